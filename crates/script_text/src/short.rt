//! Replies of short lines: all but those that tell many bytes.

ghost use Rattle.std.specs.Prelude.{◌≡◌, ◌+◌, ◌*◌, ◌<◌, ◌≤◌, [], ◌∷◌, ◌++◌, length, decimal, true, false};
ghost use Rattle.std.specs.Prelude.{flat_map};
ghost use Rattle.std.specs.List.{join_with_byte};
ghost use Rattle.hex.specs.Hex.{encode_lower};
ghost use Rattle.tsd_model.specs.declared.replies.Reply.TheVariants as answer;
ghost use Rattle.script_text.specs.Texts.{data_text, is_short, level_text, reply_text, rule_words, target_words};

use crate::fields::NUMBER_DIGITS;
use crate::trimming::trimmed;
use arrayvec::ArrayVec;
use std::marker::Model;
use tsd_model::lists::BLOCKS_MAX;
use tsd_model::{BlockList, Data, Level, Reply, Rule};

/// The most bytes that a short reply tells, those not counted that are zeros at the end.
pub const FEW_MAX: usize = 512;

/// The most bytes of a short reply with its line feed: a name, a space, two digits for each byte.
pub const SHORT_MAX: usize = 1032;

/// The most bytes of numbers with the space before each.
const BLOCKS_ROOM: usize = BLOCKS_MAX * (1 + NUMBER_DIGITS);

/// The most bytes of a rule's words with the spaces before them.
const RULE_ROOM: usize = 40;

/// At most 1,032 bytes: room that costs little to clear. Contracts see it as the list of its bytes.
#[derive(Drop)]
pub struct ShortLine {
    bytes: ArrayVec<u8, SHORT_MAX>,
}

impl Model for ShortLine {
    ghost use Rattle.std.specs.Prelude.{List, ℕ};

    ghost Value = { List ℕ };

    ghost view = { λ b. b.bytes.items };
}

impl ShortLine {
    /// No bytes.
    pub fn new() -> ShortLine
        ensures { result ≡ [] }
    {
        ShortLine {
            bytes: ArrayVec::new(),
        }
    }

    /// The bytes.
    pub fn as_slice(&self) -> &[u8]
        ensures value { result.now ≡ self.now }
        ensures fits { length self.now ≤ SHORT_MAX }
    {
        self.bytes.as_slice()
    }

    /// Adds bytes at the end, for which there is room.
    fn put(&mut self, bytes: &[u8])
        requires { length self.old + length bytes.now ≤ SHORT_MAX }
        ensures { self.new ≡ self.old ++ bytes.now }
    {
        let _fit = self.bytes.try_extend_from_slice(bytes);
    }

    /// Adds a word with the space before it.
    fn word(&mut self, word: &[u8])
        requires { length self.old + length word.now + 1 ≤ SHORT_MAX }
        ensures text { self.new ≡ self.old ++ 32 ∷ word.now }
        ensures room { length self.new ≡ length self.old + length word.now + 1 }
    {
        self.put(b" ".as_slice());
        self.put(word);
    }

    /// Adds a number, without leading zeros, with the space before it.
    fn number(&mut self, n: u32)
        requires { length self.old + 1 + NUMBER_DIGITS ≤ SHORT_MAX }
        ensures text { self.new ≡ self.old ++ 32 ∷ decimal n }
        ensures room { length self.new ≤ length self.old + 1 + NUMBER_DIGITS }
    {
        let mut digits = itoa::Buffer::new();
        self.word(digits.format(n).as_bytes());
    }
}

/// Puts the line of a short reply into `line`, which is empty, with its line feed, and answers whether the reply is
/// short.
pub fn put_short_line(reply: &Reply, line: &mut ShortLine) -> bool
    requires { line.old ≡ [] }
    ensures short { result ≡ is_short reply.now }
    ensures text { result ≡ true → line.new ≡ reply_text reply.now ++ 10 ∷ [] }
{
    let is_short = put_short(reply, line);
    if is_short {
        line.put(b"\n".as_slice());
    }
    is_short
}

/// Puts the text of a short reply into `line`, which is empty, and answers whether it is one.
pub(crate) fn put_short(reply: &Reply, line: &mut ShortLine) -> bool
    requires { line.old ≡ [] }
    ensures short { result ≡ is_short reply.now }
    ensures text { result ≡ true → line.new ≡ reply_text reply.now }
    ensures room { length line.new < SHORT_MAX }
{
    match reply {
        Reply::Bytes(all) => bytes(line, all),
        Reply::Blocks(all) => {
            blocks(line, all);
            true
        }
        Reply::Targets(all) => {
            targets(line, all);
            true
        }
        Reply::Done => {
            line.put(b"ok".as_slice());
            true
        }
        Reply::NoMemory => {
            line.put(b"no memory".as_slice());
            true
        }
        Reply::Free(count) => {
            line.put(b"free".as_slice());
            line.number(*count);
            true
        }
        Reply::Gone(count) => {
            line.put(b"gone".as_slice());
            line.number(*count);
            true
        }
        Reply::Refused(why) => {
            line.put(b"no".as_slice());
            rule(line, why);
            true
        }
    }
}

/// Bytes, where they are few; it answers whether they are.
#[inline(never)]
fn bytes(line: &mut ShortLine, all: &Data) -> bool
    requires { line.old ≡ [] }
    ensures short { result ≡ is_short (answer.Bytes all.now) }
    ensures text { result ≡ true → line.new ≡ reply_text (answer.Bytes all.now) }
    ensures room { length line.new < SHORT_MAX }
{
    let few = trimmed(all.as_slice());
    if few.len() > FEW_MAX {
        return false;
    }
    line.put(b"data".as_slice());
    data(line, few);
    true
}

/// New blocks.
fn blocks(line: &mut ShortLine, all: &BlockList)
    requires { line.old ≡ [] }
    ensures text { line.new ≡ reply_text (answer.Blocks all.now) }
    ensures room { length line.new < SHORT_MAX }
{
    line.put(b"blocks".as_slice());
    numbers(line, all.as_slice());
}

/// Targets, or a dash.
fn targets(line: &mut ShortLine, all: &BlockList)
    requires { line.old ≡ [] }
    ensures text { line.new ≡ reply_text (answer.Targets all.now) }
    ensures room { length line.new < SHORT_MAX }
{
    line.put(b"list".as_slice());
    targets_or_dash(line, all.as_slice());
}

/// The targets, or a dash.
fn targets_or_dash(line: &mut ShortLine, blocks: &[u32])
    requires few { length blocks.now ≤ BLOCKS_MAX }
    requires room { length line.old + BLOCKS_ROOM ≤ SHORT_MAX }
    ensures text { line.new ≡ line.old ++ 32 ∷ join_with_byte 32 (target_words blocks.now) }
    ensures room { length line.new ≤ length line.old + BLOCKS_ROOM }
{
    if blocks.is_empty() {
        line.word(b"-".as_slice());
    } else {
        numbers(line, blocks);
    }
}

/// Numbers, at most 64.
fn numbers(line: &mut ShortLine, items: &[u32])
    requires few { length items.now ≤ BLOCKS_MAX }
    requires room { length line.old + BLOCKS_ROOM ≤ SHORT_MAX }
    ensures text { line.new ≡ line.old ++ flat_map (λ n. 32 ∷ decimal n) items.now }
    ensures room { length line.new ≤ length line.old + BLOCKS_ROOM }
{
    for n in items {
        line.number(*n);
    }
}

/// Bytes in lower case, at most 512.
fn data(line: &mut ShortLine, bytes: &[u8])
    requires few { length bytes.now ≤ FEW_MAX }
    requires room { length line.old + 2 * FEW_MAX + 1 ≤ SHORT_MAX }
    ensures text { line.new ≡ line.old ++ 32 ∷ data_text bytes.now }
    ensures room { length line.new ≤ length line.old + 2 * FEW_MAX + 1 }
{
    if bytes.is_empty() {
        return line.word(b"-".as_slice());
    }
    let mut room = [0u8; 2 * FEW_MAX];
    let digits = &mut room[..2 * bytes.len()];
    hex_word(line, bytes, digits);
}

/// Two lower-case digits for each byte. They are put together in `digits`, which is overwritten.
fn hex_word(line: &mut ShortLine, bytes: &[u8], digits: &mut [u8])
    requires twice { length digits.old ≡ 2 * length bytes.now }
    requires room { length line.old + length digits.old + 1 ≤ SHORT_MAX }
    ensures text { line.new ≡ line.old ++ 32 ∷ encode_lower bytes.now }
    ensures room { length line.new ≡ length line.old + 2 * length bytes.now + 1 }
{
    let _fit = hex::encode_to_slice(bytes, digits);
    line.word(digits);
}

/// The words of a rule.
fn rule(line: &mut ShortLine, rule: &Rule)
    requires { length line.old + RULE_ROOM ≤ SHORT_MAX }
    ensures text { line.new ≡ line.old ++ 32 ∷ join_with_byte 32 (rule_words rule.now) }
    ensures room { length line.new ≤ length line.old + RULE_ROOM }
{
    match rule {
        Rule::BadRequest => line.word(b"bad-request".as_slice()),
        Rule::BadSession => line.word(b"bad-session".as_slice()),
        Rule::NotOpen => line.word(b"not-open".as_slice()),
        Rule::AlreadyOpen => line.word(b"already-open".as_slice()),
        Rule::BadCount => line.word(b"bad-count".as_slice()),
        Rule::BadSize => line.word(b"bad-size".as_slice()),
        Rule::NoSuchBlock => line.word(b"no-such-block".as_slice()),
        Rule::FreeBlock => line.word(b"free-block".as_slice()),
        Rule::NotPrimary => line.word(b"not-primary".as_slice()),
        Rule::IsPrimary => line.word(b"is-primary".as_slice()),
        Rule::Denied { attained, needed } => {
            line.word(b"denied".as_slice());
            level(line, *attained);
            level(line, *needed);
        }
        Rule::PointerExists => line.word(b"pointer-exists".as_slice()),
        Rule::NoPointer => line.word(b"no-pointer".as_slice()),
        Rule::Full { free, wanted } => pair(line, b"full".as_slice(), *free, *wanted),
        Rule::NoRun { free, wanted } => pair(line, b"run".as_slice(), *free, *wanted),
        Rule::PointersFull { held, max } => pair(line, b"pointers-full".as_slice(), *held, *max),
    }
}

/// A word and two numbers.
fn pair(line: &mut ShortLine, name: &[u8], first: u32, second: u32)
    requires short { length name.now < 14 }
    requires room { length line.old + RULE_ROOM ≤ SHORT_MAX }
    ensures text { line.new ≡ line.old ++ 32 ∷ join_with_byte 32 (name.now ∷ decimal first ∷ decimal second ∷
        []) }
    ensures room { length line.new ≤ length line.old + RULE_ROOM }
{
    line.word(name);
    line.number(first);
    line.number(second);
}

/// A level.
fn level(line: &mut ShortLine, level: Level)
    requires { length line.old + 6 ≤ SHORT_MAX }
    ensures text { line.new ≡ line.old ++ 32 ∷ level_text level }
    ensures room { length line.new ≤ length line.old + 6 }
{
    match level {
        Level::Bare => line.word(b"none".as_slice()),
        Level::Read => line.word(b"read".as_slice()),
        Level::Write => line.word(b"write".as_slice()),
    }
}
