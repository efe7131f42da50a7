//! Answers as they are printed.

ghost use Rattle.std.specs.Prelude.{◌≡◌, ◌≢◌, ◌+◌, ◌<◌, ◌≤◌, ℕ, List, [], ◌∷◌};
ghost use Rattle.std.specs.Prelude.{◌++◌, length, flat_map, decimal};
ghost use Rattle.std.specs.List.{join_with_byte};
ghost use Rattle.hex.specs.Hex.{encode_lower};
ghost use Rattle.fs_trees.specs.Names.{Name};
ghost use Rattle.fs_trees.specs.Answer.{bad, bytes, done, available, listed, refused};
ghost use Rattle.fs_trees.specs.declared.refusal.FsRefusal.{FsRefusal};
ghost use Rattle.script_text.specs.Pieces.{line_feeds};
ghost use Rattle.tsd_model.specs.Verdict.{is_empty};
ghost use Rattle.shell_text.specs.Texts.{answer_text, data_head, names_head, refusal_words};

use fs_trees::{FsRefusal, Name};
use script_text::OutBuf;
use script_text::fields::DATA_DIGITS;
use script_text::parse::LINE_MAX;
use script_text::printing::{put_number, put_word};
use tsd_model::lists::DATA_MAX;

/// The most bytes of a refusal's words with the spaces before them.
const REFUSAL_ROOM: usize = 40;

/// Replaces the bytes by the line of an ask that was done.
pub fn print_done(into: &mut OutBuf)
    /// promise: Exactly the text of the answer.
    ensures { into.new ≡ answer_text done ++ 10 ∷ [] }
{
    into.clear();
    into.put(b"ok\n".as_slice());
}

/// Replaces the bytes by the answer to a line that asks nothing.
pub fn print_bad(into: &mut OutBuf)
    /// promise: Exactly the text of the answer.
    ensures { into.new ≡ answer_text bad ++ 10 ∷ [] }
{
    into.clear();
    into.put(b"no bad-request\n".as_slice());
}

/// Replaces the bytes by the line of a number of free blocks.
pub fn print_free(count: u32, into: &mut OutBuf)
    /// promise: Exactly the text of the answer.
    ensures { into.new ≡ answer_text (available count) ++ 10 ∷ [] }
{
    into.clear();
    into.put(b"free".as_slice());
    put_number(into, count);
    into.put(b"\n".as_slice());
}

/// Replaces the bytes by the line of a refusal. Device has no words: a program that meets it ends.
pub fn print_refusal(refusal: &FsRefusal, into: &mut OutBuf)
    requires { refusal.now ≢ FsRefusal.Device }
    /// promise (with one_line): Exactly the text of the refusal, in one line.
    ensures text { into.new ≡ answer_text (refused refusal.now) ++ 10 ∷ [] }
    ensures one_line { line_feeds (answer_text (refused refusal.now)) ≡ 0 }
{
    into.clear();
    into.put(b"no".as_slice());
    put_refusal(into, refusal);
    into.put(b"\n".as_slice());
}

/// The words of a refusal.
fn put_refusal(into: &mut OutBuf, refusal: &FsRefusal)
    requires some { refusal.now ≢ FsRefusal.Device }
    requires room { length into.old + REFUSAL_ROOM ≤ LINE_MAX }
    ensures text { into.new ≡ into.old ++ 32 ∷ join_with_byte 32 (refusal_words refusal.now) }
    ensures room { length into.new ≤ length into.old + REFUSAL_ROOM }
    ensures one_line { line_feeds (answer_text (refused refusal.now)) ≡ 0 }
{
    match refusal {
        FsRefusal::NotThisFs => put_word(into, b"not-this-fs".as_slice()),
        FsRefusal::NoEntry => put_word(into, b"no-entry".as_slice()),
        FsRefusal::Exists => put_word(into, b"exists".as_slice()),
        FsRefusal::NotDir => put_word(into, b"not-dir".as_slice()),
        FsRefusal::IsDir => put_word(into, b"is-dir".as_slice()),
        FsRefusal::NotEmpty => put_word(into, b"not-empty".as_slice()),
        FsRefusal::DirFull => put_word(into, b"dir-full".as_slice()),
        FsRefusal::TooBig => put_word(into, b"too-big".as_slice()),
        FsRefusal::Full { free, wanted } => pair(into, b"full".as_slice(), *free, *wanted),
        FsRefusal::PointersFull { held, max } => {
            pair(into, b"pointers-full".as_slice(), *held, *max);
        }
        FsRefusal::Device => {}
    }
}

/// A word and two numbers.
fn pair(into: &mut OutBuf, name: &[u8], first: u32, second: u32)
    requires short { length name.now < 14 }
    requires room { length into.old + REFUSAL_ROOM ≤ LINE_MAX }
    ensures text { into.new
        ≡ into.old ++ 32 ∷ join_with_byte 32 (name.now ∷ decimal first ∷ decimal second ∷ []) }
    ensures room { length into.new ≤ length into.old + REFUSAL_ROOM }
{
    put_word(into, name);
    put_number(into, first);
    put_number(into, second);
}

/// Replaces the bytes by what stands before the digits of a file's bytes, or, where it has no bytes, by the line but
/// its line feed.
pub fn print_data_head(empty: bool, into: &mut OutBuf)
    /// promise: Exactly the head of a file's bytes.
    ensures { into.new ≡ data_head empty }
{
    into.clear();
    if empty {
        into.put(b"data -".as_slice());
    } else {
        into.put(b"data ".as_slice());
    }
}

/// Replaces the bytes by the digits of some of a file's bytes, at most 4,096.
pub fn print_data_part(part: &[u8], into: &mut OutBuf)
    requires { length part.now ≤ DATA_MAX }
    /// promise: Exactly the digits of a part of a file's bytes.
    ensures { into.new ≡ encode_lower part.now }
{
    let mut room = [0u8; DATA_DIGITS];
    let digits = &mut room[..2 * part.len()];
    let _fit = hex::encode_to_slice(part, digits);
    into.clear();
    into.put(digits);
}

/// Replaces the bytes by what stands before the names in a directory, or, where it has none, by the line but its line
/// feed.
pub fn print_names_head(none: bool, into: &mut OutBuf)
    /// promise: Exactly the head of a directory's names.
    ensures { into.new ≡ names_head none }
{
    into.clear();
    if none {
        into.put(b"names -".as_slice());
    } else {
        into.put(b"names".as_slice());
    }
}

/// Replaces the bytes by a space and a name.
pub fn print_name(name: &Name, into: &mut OutBuf)
    /// promise: Exactly a name of a directory.
    ensures { into.new ≡ 32 ∷ name.now }
{
    into.clear();
    put_word(into, name.as_slice());
}

/// Replaces the bytes by the end of a line.
pub fn print_end(into: &mut OutBuf)
    /// promise: Exactly the end of a long answer.
    ensures { into.new ≡ 10 ∷ [] }
{
    into.clear();
    into.put(b"\n".as_slice());
}

/// An answer that is sent in parts is the answer: the head, the parts in their order, and the end of the line.
pub fn long_answers_in_parts()
    // A file's bytes, in whatever parts.
    /// promise (with names): A file's bytes in whatever parts, and a directory's names one by one, are the text of the
    /// answer.
    ensures data { (parts : List (List ℕ)) → let x = flat_map (λ part. part) parts in
        data_head (is_empty x) ++ flat_map encode_lower parts ≡ answer_text (bytes x) }
    // The names in a directory, one a part.
    ensures names { (ns : List Name) →
        names_head (is_empty ns) ++ flat_map (λ n. 32 ∷ n) ns ≡ answer_text (listed ns) }
{}
