//! The fields of a body as they are written.

ghost use Rattle.std.specs.Prelude.{◌≡◌, ◌+◌, ◌*◌, ◌≤◌, ◌++◌, length};
ghost use Rattle.request_frames.specs.Fields.{Code, Number, Show, New, Near, Rank, field_bytes, bytes_of, HasRoomFor};
ghost use Rattle.request_frames.specs.Fields.{AllFit};
ghost use Rattle.request_frames.specs.Replies.{number_fields};

use crate::codes::{ABSENT, LEVEL_NONE, LEVEL_READ, LEVEL_WRITE, PRESENT};
use crate::frame_buf::Frame;
use crate::reader::NUMBER_BYTES;
use byteorder::{ByteOrder, LittleEndian};
use tsd_model::caps::CAP_BYTES;
use tsd_model::{Cap, Hint, Level, Shown};

/// A code.
pub fn put_code<const N: usize>(into: &mut Frame<N>, code: u8)
    requires { length into.old + 1 ≤ N }
    ensures { into.new ≡ into.old ++ field_bytes (Code code) }
{
    into.put([code].as_slice());
}

/// A number, the lowest byte first.
pub fn put_number<const N: usize>(into: &mut Frame<N>, n: u32)
    requires { length into.old + NUMBER_BYTES ≤ N }
    ensures bytes { into.new ≡ into.old ++ field_bytes (Number n) }
    ensures fits { HasRoomFor (Number n) }
{
    let mut bytes = [0; NUMBER_BYTES];
    LittleEndian::write_u32(&mut bytes, n);
    into.put(bytes.as_slice());
}

/// Numbers.
pub fn put_numbers<const N: usize>(into: &mut Frame<N>, items: &[u32])
    requires { length into.old + NUMBER_BYTES * length items.now ≤ N }
    ensures bytes { into.new ≡ into.old ++ bytes_of (number_fields items.now) }
    ensures fits { AllFit (number_fields items.now) }
{
    for n in items {
        put_number(into, *n);
    }
}

/// A capability.
pub fn put_cap<const N: usize>(into: &mut Frame<N>, cap: &Cap)
    requires { length into.old + CAP_BYTES ≤ N }
    ensures bytes { into.new ≡ into.old ++ field_bytes (New cap.now) }
    ensures fits { HasRoomFor (New cap.now) }
{
    into.put(cap.bytes.as_slice());
}

/// What is shown.
pub fn put_shown<const N: usize>(into: &mut Frame<N>, shown: &Shown)
    requires { length into.old + 1 + CAP_BYTES ≤ N }
    ensures bytes { into.new ≡ into.old ++ field_bytes (Show shown.now) }
    ensures fits { HasRoomFor (Show shown.now) }
    ensures room { length (field_bytes (Show shown.now)) ≤ 1 + CAP_BYTES }
{
    match shown {
        Shown::Nothing => put_code(into, ABSENT),
        Shown::Key(cap) => {
            put_code(into, PRESENT);
            put_cap(into, cap);
        }
    }
}

/// A hint.
pub fn put_hint<const N: usize>(into: &mut Frame<N>, hint: Hint)
    requires { length into.old + 1 + NUMBER_BYTES ≤ N }
    ensures bytes { into.new ≡ into.old ++ field_bytes (Near hint) }
    ensures fits { HasRoomFor (Near hint) }
{
    match hint {
        Hint::Null => put_code(into, ABSENT),
        Hint::At(block) => {
            put_code(into, PRESENT);
            put_number(into, block);
        }
    }
}

/// A level.
pub fn put_level<const N: usize>(into: &mut Frame<N>, level: Level)
    requires { length into.old + 1 ≤ N }
    ensures { into.new ≡ into.old ++ field_bytes (Rank level) }
{
    let code = match level {
        Level::Bare => LEVEL_NONE,
        Level::Read => LEVEL_READ,
        Level::Write => LEVEL_WRITE,
    };
    put_code(into, code);
}
