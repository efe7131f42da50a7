//! The words of the command line, and those that stand in a file.

use crate::line::MIRROR;
use std::alloc::AllocError;
use std::env::{Env, FillError};
use std::fmt::{self, Formatter};
use std::fs::File;
use std::io::{self, Read, Write};
use std::{env, str};
use tsd_serve::Status;

/// What a word of a command begins with where it names a file.
pub const FILE_SIGN: u8 = b'@';

/// The most bytes of a file among which its first word is looked for.
const LOOKED_AT: u64 = 4_096;

/// The most bytes of a word that isn't UTF-8 that are told.
const TOLD_MAX: usize = 4_096;

/// The words of the command line can't be read.
#[derive(Clone, Copy, Debug, PartialEq, Eq)]
pub enum NoWords {
    /// One of them isn't UTF-8.
    NotText,

    /// There is no memory for them.
    NoMemory,
}

impl NoWords {
    /// How a run ends with them.
    pub fn status(self) -> Status {
        match self {
            NoWords::NotText => Status::Usage,
            NoWords::NoMemory => Status::NoMemory,
        }
    }
}

/// The words of the command line, without the program's name.
pub fn arguments(rt: &HostRuntime) -> Result<Vec<String>, NoWords> {
    let alloc = rt.alloc();
    let args = match env::args(rt) {
        Ok(args) => args,
        Err(error) => return Err(no_words(&error)),
    };
    let mut words = Vec::new(alloc);
    for word in args.skip(1) {
        if words.push(word).is_err() {
            return Err(NoWords::NoMemory);
        }
    }
    Ok(words)
}

/// Why there are none.
fn no_words(error: &io::Error) -> NoWords {
    match error.kind() {
        io::ErrorKind::OutOfMemory => NoWords::NoMemory,
        _ => NoWords::NotText,
    }
}

/// Tells which word of the command line isn't UTF-8, and what it is where it stands in the place of an image.
pub fn tell_not_text<E: Write>(rt: &HostRuntime, errors: &mut E) -> io::Result<()> {
    let mut room = [0u8; TOLD_MAX];
    let mut last_image = 1;
    for place in 1..usize::MAX {
        let word = match rt.arg(place, &mut room) {
            Ok(count) => &room[..count],
            Err(FillError::TooLong) => continue,
            Err(FillError::NotPresent) => break,
        };
        if str::from_utf8(word).is_ok() {
            if place == 1 && word == MIRROR.as_bytes() {
                last_image = 3;
            }
            continue;
        }
        write!(errors, "tsd: word {place} isn't UTF-8, as a name has to be")?;
        if place <= last_image {
            write!(errors, "; it is {}", word.escape_ascii())?;
        }
        return writeln!(errors);
    }
    Ok(())
}

/// Why a file has no word to give.
#[derive(Clone, Copy, Debug)]
pub enum WordTrouble {
    /// It can't be read.
    System(io::Error),

    /// It has no word.
    Empty,

    /// Its first word doesn't end among the bytes that are looked at.
    TooLong,

    /// Its first word isn't UTF-8.
    NotText,
}

impl From<io::Error> for WordTrouble {
    fn from(error: io::Error) -> WordTrouble {
        WordTrouble::System(error)
    }
}

impl From<AllocError> for WordTrouble {
    fn from(error: AllocError) -> WordTrouble {
        WordTrouble::System(io::Error::from(error))
    }
}

impl fmt::Display for WordTrouble {
    fn fmt<W: fmt::Write>(&self, f: &mut Formatter<W>) -> fmt::Result {
        match self {
            WordTrouble::System(error) => write!(f, "{error}"),
            WordTrouble::Empty => f.write_str("it has no word"),
            WordTrouble::TooLong => write!(f, "no word ends in its first {LOOKED_AT} bytes"),
            WordTrouble::NotText => f.write_str("its first word isn't UTF-8"),
        }
    }
}

/// A word that stands for one in a file, where that file has none to give.
#[derive(Drop)]
pub struct WordFault {
    /// The word.
    pub word: String,

    /// Why.
    pub trouble: WordTrouble,
}

impl WordFault {
    /// Such a word makes the command line faulty, unless there was no memory to read it.
    pub fn status(&self) -> Status {
        match &self.trouble {
            WordTrouble::System(error) => no_words(error).status(),
            _ => Status::Usage,
        }
    }
}

/// The word that a word of a command stands for: where it is `@FILE`, the first word in that file, and else itself.
pub fn meant(rt: &HostRuntime, word: String) -> Result<String, WordFault> {
    let found = match file_of(word.as_str()) {
        Some(path) => word_in(rt, path),
        None => return Ok(word),
    };
    match found {
        Ok(found) => Ok(found),
        Err(trouble) => Err(WordFault { word, trouble }),
    }
}

/// The name of the file that a word stands for a word of, where it does.
fn file_of(word: &str) -> Option<&str> {
    match word.as_bytes().first() {
        Some(&FILE_SIGN) => word.get(1..),
        _ => None,
    }
}

/// The first word in a file.
fn word_in(rt: &HostRuntime, path: &str) -> Result<String, WordTrouble> {
    let alloc = rt.alloc();
    let mut bytes = Vec::new(alloc);
    let count = File::open(rt, path)?
        .take(LOOKED_AT)
        .read_to_end(&mut bytes)?;
    let is_all = (count as u64) < LOOKED_AT;
    match str::from_utf8(first_word(bytes.as_slice(), is_all)?) {
        Ok(text) => Ok(String::from_str(alloc, text)?),
        Err(_) => Err(WordTrouble::NotText),
    }
}

/// The first of the words that these bytes have, parted by white space. Where they aren't all, a word at their end may
/// go on.
fn first_word(bytes: &[u8], is_all: bool) -> Result<&[u8], WordTrouble> {
    let mut pieces = bytes.split(|byte| byte.is_ascii_whitespace());
    let word = pieces.find(|piece| !piece.is_empty());
    let ends = pieces.next().is_some();
    match word {
        Some(word) if ends || is_all => Ok(word),
        None if is_all => Err(WordTrouble::Empty),
        _ => Err(WordTrouble::TooLong),
    }
}
