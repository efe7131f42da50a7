//! Which word of a command line isn't understood, and what stands there. It is asked after the top call has answered
//! that the words are no command: what is one, that call alone says.

use crate::help::{TOPICS, USAGE};
use crate::words::FILE_SIGN;
use script_text::fields::parse_number;
use std::fmt::{self, Formatter};
use tsd_model::geometry::{MAX_BLOCKS, MAX_PRIMARIES, MAX_SLOTS, MIN_BLOCKS};

/// The most requests that one `load` carries out.
const MAX_COUNT: u32 = 200_000;

/// The digits of a capability.
const CAP_DIGITS: usize = 32;

/// The digits of a seed.
const SEED_DIGITS: usize = 64;

/// The most characters of a word that is printed. A capability or a seed has more, also where a few are missing.
const SHOWN_MAX: usize = 16;

/// A command line that isn't understood. It is told by a line that has no capability and no seed in it.
#[derive(Drop)]
pub enum Misread {
    /// It has no words.
    Nothing,

    /// These words: `help`, and not one topic behind it.
    Topic(Vec<String>),

    /// These words behind an image.
    Command {
        /// As they were given.
        given: Vec<String>,

        /// The words that they stand for, one for each.
        meant: Vec<String>,

        /// Whether `mirror` stands before the image.
        is_mirror: bool,
    },
}

impl fmt::Display for Misread {
    fn fmt<W: fmt::Write>(&self, f: &mut Formatter<W>) -> fmt::Result {
        match self {
            Misread::Nothing => f.write_str(USAGE),
            Misread::Topic(words) => tell_topic(f, words.as_slice()),
            Misread::Command {
                given,
                meant,
                is_mirror,
            } => {
                tell_command(f, given.as_slice(), meant.as_slice())?;
                if *is_mirror {
                    f.write_str(
                        "; behind mirror stand two images, and an image of that name is ./mirror",
                    )?;
                }
                Ok(())
            }
        }
    }
}

/// A word as it may be printed. One that a file gave isn't, nor one that may be a capability or a seed, nor one that a
/// terminal may not show as it stands.
#[derive(Drop)]
struct Printable<'a> {
    word: &'a str,
}

impl fmt::Display for Printable<'_> {
    fn fmt<W: fmt::Write>(&self, f: &mut Formatter<W>) -> fmt::Result {
        let bytes = self.word.as_bytes();
        if bytes.first() == Some(&FILE_SIGN) {
            write!(f, "what {} has", self.word)
        } else if bytes.is_empty() {
            f.write_str("an empty word")
        } else if bytes.len() <= SHOWN_MAX && bytes.iter().all(|byte| byte.is_ascii_graphic()) {
            f.write_str(self.word)
        } else {
            write!(f, "a word of {} characters", self.word.chars().count())
        }
    }
}

/// A word of a command, by what it tells.
#[derive(Clone, Copy, Debug, PartialEq, Eq)]
enum Operand {
    /// How many blocks a disk has.
    Blocks,

    /// How many sectors a block has.
    Sectors,

    /// For how many pointers there is room.
    Slots,

    /// How many primary blocks a disk has.
    Primaries,

    /// A capability to read.
    ReadCap,

    /// A capability to write.
    WriteCap,

    /// What capabilities or requests are drawn from.
    Seed,

    /// How many requests are carried out.
    Count,

    /// How a tree is kept in blocks.
    Kind,

    /// The block under which a tree hangs.
    Root,

    /// A capability.
    Cap,

    /// The order in which free blocks are taken.
    Placement,
}

impl Operand {
    /// Its name in the help.
    fn name(self) -> &'static str {
        match self {
            Operand::Blocks => "BLOCKS",
            Operand::Sectors => "SECTORS",
            Operand::Slots => "SLOTS",
            Operand::Primaries => "PRIMARIES",
            Operand::ReadCap => "READCAP",
            Operand::WriteCap => "WRITECAP",
            Operand::Seed => "SEED",
            Operand::Count => "COUNT",
            Operand::Kind => "KIND",
            Operand::Root => "ROOT",
            Operand::Cap => "CAP",
            Operand::Placement => "PLACE",
        }
    }

    /// How many hexadecimal digits it has, where it is to be kept secret.
    fn digits(self) -> Option<usize> {
        match self {
            Operand::ReadCap | Operand::WriteCap | Operand::Cap => Some(CAP_DIGITS),
            Operand::Seed => Some(SEED_DIGITS),
            _ => None,
        }
    }

    /// Whether a word may stand there, on a disk of so many blocks.
    fn takes(self, word: &str, blocks: u32) -> bool {
        match self {
            Operand::Kind => matches!(word, "inode" | "chain"),
            Operand::Placement => matches!(word, "low" | "near" | "spread" | "zone"),
            Operand::ReadCap | Operand::WriteCap | Operand::Cap => has_digits(word, CAP_DIGITS),
            Operand::Seed => has_digits(word, SEED_DIGITS),
            _ => match parse_number(word.as_bytes()) {
                Some(number) => self.takes_number(number, blocks),
                None => false,
            },
        }
    }

    /// Whether a number may stand there, on a disk of so many blocks.
    fn takes_number(self, number: u32, blocks: u32) -> bool {
        match self {
            Operand::Blocks => (MIN_BLOCKS..=MAX_BLOCKS).contains(&number),
            Operand::Sectors => matches!(number, 1 | 2 | 4 | 8),
            Operand::Slots => (1..=MAX_SLOTS).contains(&number),
            Operand::Primaries => (1..=MAX_PRIMARIES).contains(&number) && number < blocks,
            Operand::Count => (1..=MAX_COUNT).contains(&number),
            Operand::Root => true,
            _ => false,
        }
    }
}

/// What stands there.
impl fmt::Display for Operand {
    fn fmt<W: fmt::Write>(&self, f: &mut Formatter<W>) -> fmt::Result {
        match self {
            Operand::Blocks => write!(f, "{MIN_BLOCKS} to {MAX_BLOCKS}"),
            Operand::Sectors => f.write_str("1, 2, 4 or 8"),
            Operand::Slots => write!(f, "1 to {MAX_SLOTS}"),
            Operand::Primaries => write!(f, "1 to {MAX_PRIMARIES} and fewer than BLOCKS"),
            Operand::ReadCap | Operand::WriteCap | Operand::Cap => {
                write!(f, "{CAP_DIGITS} hexadecimal digits")
            }
            Operand::Seed => write!(f, "{SEED_DIGITS} hexadecimal digits"),
            Operand::Count => write!(f, "1 to {MAX_COUNT}"),
            Operand::Kind => f.write_str("inode or chain"),
            Operand::Root => f.write_str("the number of a block"),
            Operand::Placement => f.write_str("low, near, spread or zone"),
        }
    }
}

/// Whether a word has so many hexadecimal digits and nothing else.
fn has_digits(word: &str, count: usize) -> bool {
    word.len() == count && word.as_bytes().iter().all(|byte| byte.is_ascii_hexdigit())
}

/// The words that a command takes, or none where there is no such command.
fn operands_of(command: &str) -> Option<&'static [Operand]> {
    match command {
        "fresh" => Some(&[
            Operand::Blocks,
            Operand::Sectors,
            Operand::ReadCap,
            Operand::WriteCap,
            Operand::Placement,
        ]),
        "format" => Some(&[
            Operand::Blocks,
            Operand::Sectors,
            Operand::Slots,
            Operand::Primaries,
            Operand::Seed,
        ]),
        "run" | "serve" | "group" => Some(&[Operand::Placement]),
        "shell" | "files" => Some(&[
            Operand::Kind,
            Operand::Root,
            Operand::Cap,
            Operand::Placement,
        ]),
        "copyfs" => Some(&[
            Operand::Kind,
            Operand::Root,
            Operand::Cap,
            Operand::Kind,
            Operand::Root,
            Operand::Cap,
            Operand::Placement,
        ]),
        "load" => Some(&[Operand::Seed, Operand::Count, Operand::Placement]),
        "check" | "info" | "upgrade" | "audit" | "verify" => Some(&[]),
        _ => None,
    }
}

/// Tells that the words behind `help` are no topic.
fn tell_topic<W: fmt::Write>(f: &mut Formatter<W>, words: &[String]) -> fmt::Result {
    match words {
        [_, topic] => {
            let word = topic.as_str();
            write!(f, "tsd: no topic is called {}", Printable { word })?;
        }
        _ => {
            write!(f, "tsd: help takes TOPIC")?;
            tell_count(f, words.len().saturating_sub(1))?;
        }
    }
    write!(
        f,
        "; there are {TOPICS}, and an image of the name help is ./help"
    )
}

/// Tells how many words came.
fn tell_count<W: fmt::Write>(f: &mut Formatter<W>, count: usize) -> fmt::Result {
    match count {
        0 => f.write_str(", and no word came"),
        1 => f.write_str(", and 1 word came"),
        _ => write!(f, ", and {count} words came"),
    }
}

/// Tells which word of a command isn't understood.
fn tell_command<W: fmt::Write>(
    f: &mut Formatter<W>,
    given: &[String],
    meant: &[String],
) -> fmt::Result {
    let (Some((shown, given)), Some((name, meant))) = (given.split_first(), meant.split_first())
    else {
        return f.write_str(
            "tsd: behind IMAGE stands a command: fresh, format, run, serve, group, shell, files, copyfs, check, \
             info, load, upgrade, audit or verify",
        );
    };
    match operands_of(name.as_str()) {
        None => {
            let word = shown.as_str();
            write!(
                f,
                "tsd: no command is called {}; there are ",
                Printable { word }
            )?;
            f.write_str(
                "fresh, format, run, serve, group, shell, files, copyfs, check, info, load, upgrade, audit and verify",
            )
        }
        Some(operands) if operands.len() != meant.len() => {
            write!(f, "tsd: {name} takes")?;
            tell_names(f, operands)?;
            tell_count(f, meant.len())
        }
        Some(operands) => tell_operand(f, operands, given, meant),
    }
}

/// Tells the names of the words that a command takes.
fn tell_names<W: fmt::Write>(f: &mut Formatter<W>, operands: &[Operand]) -> fmt::Result {
    if operands.is_empty() {
        return f.write_str(" no words");
    }
    for operand in operands {
        write!(f, " {}", operand.name())?;
    }
    Ok(())
}

/// Tells the first word that a command doesn't take, of as many as it takes.
fn tell_operand<W: fmt::Write>(
    f: &mut Formatter<W>,
    operands: &[Operand],
    given: &[String],
    meant: &[String],
) -> fmt::Result {
    let blocks = blocks_of(meant);
    for ((operand, given), meant) in operands.iter().zip(given).zip(meant) {
        if !operand.takes(meant.as_str(), blocks) {
            return tell_word(f, *operand, given.as_str(), meant.as_str());
        }
    }
    f.write_str("tsd: these words are no command")
}

/// How many blocks the disk is to have, where the first word tells it. The words that ask for it stand behind that.
fn blocks_of(words: &[String]) -> u32 {
    match words.first() {
        Some(word) => parse_number(word.as_str().as_bytes()).unwrap_or(0),
        None => 0,
    }
}

/// Tells a word, and what stands in its place. Of one that is to be kept secret it tells how long it is.
fn tell_word<W: fmt::Write>(
    f: &mut Formatter<W>,
    operand: Operand,
    given: &str,
    meant: &str,
) -> fmt::Result {
    write!(f, "tsd: {} is {operand}, ", operand.name())?;
    let count = meant.chars().count();
    match operand.digits() {
        Some(digits) if digits == count => f.write_str("and a character of this word isn't one"),
        Some(_) if count == 1 => f.write_str("and this word has 1 character"),
        Some(_) => write!(f, "and this word has {count} characters"),
        None => write!(f, "not {}", Printable { word: given }),
    }
}
