//! The line that says how a copy ended.

ghost use Rattle.std.specs.Prelude.{◌≡◌, ◌+◌, ◌≤◌, [], ◌∷◌, ◌++◌, length, flat_map, decimal};
ghost use Rattle.shell_text.specs.Grammar.{path_text};
ghost use Rattle.image_copy.specs.Lines.{HasWords, end_line};
ghost use Rattle.image_copy.specs.declared.ending.CopyEnd.TheVariants as ended;

use crate::ending::CopyEnd;
use fs_copy::Copied;
use fs_trees::{FsRefusal, Path};
use script_text::OutBuf;
use script_text::parse::LINE_MAX;
use script_text::printing::{put_number, put_word};
use shell_text::print_refusal;

/// The most bytes of a number of 64 bits with the space before it.
const LONG_ROOM: usize = 21;

/// The most bytes of the names of a path, each with a slash before it.
const NAMES_ROOM: usize = 464;

/// The line that says how a copy ended.
pub(crate) fn end_line(end: &CopyEnd) -> OutBuf
    requires { HasWords end.now }
    ensures { result ≡ end_line end.now }
{
    let mut line = OutBuf::new();
    match end {
        CopyEnd::Shared { block } => put_shared(&mut line, *block),
        CopyEnd::NotThisFs => print_refusal(&FsRefusal::NotThisFs, &mut line),
        CopyEnd::Nested { path } => put_nested(&mut line, path),
        CopyEnd::Refused { refusal } => print_refusal(refusal, &mut line),
        CopyEnd::Whole { copied } => put_copied(&mut line, copied),
    }
    line
}

/// The line of a block that both roots reach.
fn put_shared(into: &mut OutBuf, block: u32)
    requires { into.old ≡ [] }
    ensures { into.new ≡ end_line (ended.Shared block) }
{
    into.put(b"no shared".as_slice());
    put_number(into, block);
    into.put(b"\n".as_slice());
}

/// The line of what was copied.
fn put_copied(into: &mut OutBuf, copied: &Copied)
    requires { into.old ≡ [] }
    ensures { into.new ≡ end_line (ended.Whole copied.now) }
{
    into.put(b"copied".as_slice());
    put_long(into, copied.files);
    put_long(into, copied.bytes);
    into.put(b"\n".as_slice());
}

/// A number of 64 bits with the space before it.
fn put_long(into: &mut OutBuf, n: u64)
    requires { length into.old + LONG_ROOM ≤ LINE_MAX }
    ensures text { into.new ≡ into.old ++ 32 ∷ decimal n }
    ensures room { length into.new ≤ length into.old + LONG_ROOM }
{
    let mut digits = itoa::Buffer::new();
    put_word(into, digits.format(n).as_bytes());
}

/// The line of a directory that the target can't hold.
fn put_nested(into: &mut OutBuf, path: &Path)
    requires { into.old ≡ [] }
    ensures { into.new ≡ end_line (ended.Nested path.now) }
{
    into.put(b"no nested ".as_slice());
    put_path(into, path);
    into.put(b"\n".as_slice());
}

/// A path: a slash, and the names with a slash between each two.
fn put_path(into: &mut OutBuf, path: &Path)
    requires { length into.old + NAMES_ROOM + 1 ≤ LINE_MAX }
    ensures text { into.new ≡ into.old ++ path_text path.now }
    ensures room { length into.new ≤ length into.old + NAMES_ROOM + 1 }
{
    if path.len() == 0 {
        into.put(b"/".as_slice());
    }
    put_names(into, path);
}

/// The names of a path, each with a slash before it.
fn put_names(into: &mut OutBuf, path: &Path)
    requires { length into.old + NAMES_ROOM ≤ LINE_MAX }
    ensures text { into.new ≡ into.old ++ flat_map (λ n. 47 ∷ n) path.now }
    ensures room { length into.new ≤ length into.old + NAMES_ROOM }
{
    for name in path.as_slice() {
        into.put(b"/".as_slice());
        into.put(name.as_slice());
    }
}
