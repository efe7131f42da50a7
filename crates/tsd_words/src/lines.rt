//! Lines of numbers.

ghost use Rattle.std.specs.Prelude.{◌≡◌, ◌+◌, ◌≤◌, ◌∷◌, ◌++◌, length, decimal};
ghost use Rattle.tsd_model.specs.Geometry.{IsLawful};
ghost use Rattle.tsd_words.specs.Lines.{clean_words, info_lines, line_of, load_words, upgrade_line, value_line};

use image_layout::Layout;
use image_layout::sectors::SECTOR_BYTES;
use script_text::OutBuf;
use script_text::parse::LINE_MAX;
use script_text::printing::{put_number, put_word};
use tsd_model::Geometry;

/// The most bytes of a word and a number with the spaces before them.
const COUNTED_ROOM: usize = 20;

/// The most bytes of a line of a name and a value.
const VALUE_ROOM: usize = 31;

/// The version of an image that keeps digests.
const DIGEST_VERSION: u32 = 2;

const _: () = prove!(DIGEST_VERSION == 2);

/// What is counted of a load.
#[derive(Clone, Copy, Debug, PartialEq, Eq)]
pub struct Summary {
    /// The requests.
    pub count: u32,

    /// Those that were granted.
    pub granted: u32,

    /// Those that were refused.
    pub refused: u32,

    /// The blocks that are free in the end.
    pub free: u32,

    /// The pointers that are held in the end.
    pub pointers: u32,
}

/// The line of an image that stands for a world.
pub fn clean_line(live: u32, free: u32, pointers: u32) -> OutBuf
    /// promise: The line that `check` prints of a world.
    ensures { result ≡ line_of (clean_words live free pointers) }
{
    let mut line = OutBuf::new();
    line.put(b"clean".as_slice());
    put_number(&mut line, live);
    put_number(&mut line, free);
    put_number(&mut line, pointers);
    line.put(b"\n".as_slice());
    line
}

/// The lines of what an image says of itself: its version and its size, how many of its blocks are free, and how many
/// pointers are held.
pub fn info_lines(version: u32, size: &Geometry, free: u32, pointers: u32) -> OutBuf
    requires lawful { IsLawful size.now }
    requires some { free ≤ size.now.blocks }
    /// promise: The lines that `info` prints of a world.
    ensures { result ≡ info_lines version size.now free pointers }
{
    let bytes = u64::from(Layout::of(size).total()) * SECTOR_BYTES as u64;
    let mut lines = OutBuf::new();
    put_value(&mut lines, b"version".as_slice(), u64::from(version));
    put_value(&mut lines, b"sectors".as_slice(), u64::from(size.sectors));
    put_value(&mut lines, b"blocks".as_slice(), u64::from(size.blocks));
    put_value(
        &mut lines,
        b"primaries".as_slice(),
        u64::from(size.primaries),
    );
    put_value(&mut lines, b"slots".as_slice(), u64::from(size.slots));
    put_value(
        &mut lines,
        b"live".as_slice(),
        u64::from(size.blocks - free),
    );
    put_value(&mut lines, b"free".as_slice(), u64::from(free));
    put_value(&mut lines, b"pointers".as_slice(), u64::from(pointers));
    put_value(&mut lines, b"size".as_slice(), bytes);
    lines
}

/// A name and its value as a line.
fn put_value(into: &mut OutBuf, name: &[u8], value: u64)
    requires short { length name.now ≤ 9 }
    requires room { length into.old + VALUE_ROOM ≤ LINE_MAX }
    ensures text { into.new ≡ into.old ++ value_line name.now value }
    ensures room { length into.new ≤ length into.old + VALUE_ROOM }
{
    let mut digits = itoa::Buffer::new();
    into.put(name);
    put_word(into, digits.format(value).as_bytes());
    into.put(b"\n".as_slice());
}

/// The line of an image that keeps digests.
pub fn upgrade_line() -> OutBuf
    ensures { result ≡ upgrade_line }
{
    let mut line = OutBuf::new();
    line.put(b"version".as_slice());
    put_number(&mut line, DIGEST_VERSION);
    line.put(b"\n".as_slice());
    line
}

/// The line of a load.
pub fn load_line(summary: &Summary) -> OutBuf
    ensures { result ≡ line_of (load_words summary.now.count summary.now.granted summary.now.refused summary.now.free
        summary.now.pointers) }
{
    let mut line = OutBuf::new();
    line.put(b"load".as_slice());
    put_number(&mut line, summary.count);
    put_counted(&mut line, b"granted".as_slice(), summary.granted);
    put_counted(&mut line, b"refused".as_slice(), summary.refused);
    put_counted(&mut line, b"free".as_slice(), summary.free);
    put_counted(&mut line, b"pointers".as_slice(), summary.pointers);
    line.put(b"\n".as_slice());
    line
}

/// A word and a number.
fn put_counted(into: &mut OutBuf, name: &[u8], count: u32)
    requires short { length name.now ≤ 8 }
    requires room { length into.old + COUNTED_ROOM ≤ LINE_MAX }
    ensures text { into.new ≡ into.old ++ 32 ∷ name.now ++ 32 ∷ decimal count }
    ensures room { length into.new ≤ length into.old + COUNTED_ROOM }
{
    put_word(into, name);
    put_number(into, count);
}
