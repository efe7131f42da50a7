//! Answers to asks that only look, as they are printed.

ghost use Rattle.std.specs.Prelude.{◌≡◌, ◌+◌, ◌≤◌, ◌∷◌, ◌++◌, [], length, decimal, true};
ghost use Rattle.fs_trees.specs.Names.{is_name};
ghost use Rattle.script_text.specs.Pieces.{line_feeds};
ghost use Rattle.shell_text.specs.Looked.{file_of, dir_here, part_of, next_file, next_dir, none_left, looked_text};

use fs_trees::Name;
use script_text::OutBuf;
use script_text::parse::LINE_MAX;
use script_text::printing::{put_data, put_word};
use tsd_model::lists::DATA_MAX;

/// Room for a size with the space before it.
const SIZE_ROOM: usize = 41;

/// Replaces the bytes by the line of a file, with how many bytes it has.
pub fn print_file_size(size: u64, into: &mut OutBuf)
    /// promise (with one_line): Exactly the text of the answer, in one line.
    ensures text { into.new ≡ looked_text (file_of size) ++ 10 ∷ [] }
    ensures one_line { line_feeds (looked_text (file_of size)) ≡ 0 }
{
    into.clear();
    into.put(b"file".as_slice());
    put_size(into, size);
    into.put(b"\n".as_slice());
}

/// Replaces the bytes by the line of a directory.
pub fn print_dir(into: &mut OutBuf)
    /// promise (with one_line): Exactly the text of the answer, in one line.
    ensures text { into.new ≡ looked_text dir_here ++ 10 ∷ [] }
    ensures one_line { line_feeds (looked_text dir_here) ≡ 0 }
{
    into.clear();
    into.put(b"dir\n".as_slice());
}

/// Replaces the bytes by the line of some of a file's bytes, at most 4,096.
pub fn print_part(bytes: &[u8], into: &mut OutBuf)
    requires { length bytes.now ≤ DATA_MAX }
    /// promise (with one_line): Exactly the text of the answer, in one line.
    ensures text { into.new ≡ looked_text (part_of bytes.now) ++ 10 ∷ [] }
    ensures one_line { line_feeds (looked_text (part_of bytes.now)) ≡ 0 }
{
    into.clear();
    into.put(b"data".as_slice());
    put_data(into, bytes);
    into.put(b"\n".as_slice());
}

/// Replaces the bytes by the line of the next name, which is a file's, with how many bytes that has.
pub fn print_next_file(name: &Name, size: u64, into: &mut OutBuf)
    /// promise (with one_line): Exactly the text of the answer, in one line.
    ensures text { into.new ≡ looked_text (next_file name.now size) ++ 10 ∷ [] }
    ensures one_line { is_name name.now ≡ true → line_feeds (looked_text (next_file name.now size)) ≡ 0 }
{
    into.clear();
    into.put(b"next".as_slice());
    put_word(into, name.as_slice());
    put_word(into, b"file".as_slice());
    put_size(into, size);
    into.put(b"\n".as_slice());
}

/// Replaces the bytes by the line of the next name, which is a directory's.
pub fn print_next_dir(name: &Name, into: &mut OutBuf)
    /// promise (with one_line): Exactly the text of the answer, in one line.
    ensures text { into.new ≡ looked_text (next_dir name.now) ++ 10 ∷ [] }
    ensures one_line { is_name name.now ≡ true → line_feeds (looked_text (next_dir name.now)) ≡ 0 }
{
    into.clear();
    into.put(b"next".as_slice());
    put_word(into, name.as_slice());
    put_word(into, b"dir".as_slice());
    into.put(b"\n".as_slice());
}

/// Replaces the bytes by the line of a directory that has no such name left.
pub fn print_no_name(into: &mut OutBuf)
    /// promise (with one_line): Exactly the text of the answer, in one line.
    ensures text { into.new ≡ looked_text none_left ++ 10 ∷ [] }
    ensures one_line { line_feeds (looked_text none_left) ≡ 0 }
{
    into.clear();
    into.put(b"names -\n".as_slice());
}

/// A size, without leading zeros.
fn put_size(into: &mut OutBuf, size: u64)
    requires { length into.old + SIZE_ROOM ≤ LINE_MAX }
    ensures text { into.new ≡ into.old ++ 32 ∷ decimal size }
    ensures room { length into.new ≤ length into.old + SIZE_ROOM }
{
    let mut digits = itoa::Buffer::new();
    put_word(into, digits.format(size).as_bytes());
}
