//! Words of lines as they are printed, each with the space before it.

ghost use Rattle.std.specs.Prelude.{◌≡◌, ◌+◌, ◌*◌, ◌≤◌, ◌∷◌, ◌++◌, length};
ghost use Rattle.hex.specs.Hex.{decode_of, encode_lower};
ghost use Rattle.script_text.specs.Grammar.{IsField, Number, Show, New, Near, Bytes};
ghost use Rattle.script_text.specs.Texts.{field_text, data_text};

use crate::fields::{DATA_DIGITS, NUMBER_DIGITS};
use crate::out_buf::OutBuf;
use crate::parse::LINE_MAX;
use tsd_model::caps::CAP_BYTES;
use tsd_model::lists::DATA_MAX;
use tsd_model::{Cap, Hint, Shown};

/// The hexadecimal digits of a capability.
const CAP_DIGITS: usize = 2 * CAP_BYTES;

/// The most bytes of a number with the space before it.
pub const NUMBER_ROOM: usize = 1 + NUMBER_DIGITS;

/// A word.
pub fn put_word(into: &mut OutBuf, word: &[u8])
    requires { length into.old + length word.now + 1 ≤ LINE_MAX }
    ensures text { into.new ≡ into.old ++ 32 ∷ word.now }
    ensures room { length into.new ≡ length into.old + length word.now + 1 }
{
    into.put(b" ".as_slice());
    into.put(word);
}

/// A number, without leading zeros.
pub fn put_number(into: &mut OutBuf, n: u32)
    requires { length into.old + NUMBER_ROOM ≤ LINE_MAX }
    ensures text { into.new ≡ into.old ++ 32 ∷ field_text (Number n) }
    ensures room { length into.new ≤ length into.old + NUMBER_ROOM }
    ensures spelled { IsField (Number n) (field_text (Number n)) }
{
    let mut digits = itoa::Buffer::new();
    put_word(into, digits.format(n).as_bytes());
}

/// A capability, in lower case.
pub fn put_cap(into: &mut OutBuf, cap: &Cap)
    requires { length into.old + CAP_DIGITS + 1 ≤ LINE_MAX }
    ensures text { into.new ≡ into.old ++ 32 ∷ field_text (New cap.now) }
    ensures room { length into.new ≤ length into.old + CAP_DIGITS + 1 }
    ensures spelled { IsField (New cap.now) (field_text (New cap.now)) }
{
    let mut digits = [0u8; CAP_DIGITS];
    put_hex(into, cap.bytes.as_slice(), &mut digits);
}

/// What is shown.
pub fn put_shown(into: &mut OutBuf, shown: &Shown)
    requires { length into.old + CAP_DIGITS + 1 ≤ LINE_MAX }
    ensures text { into.new ≡ into.old ++ 32 ∷ field_text (Show shown.now) }
    ensures room { length into.new ≤ length into.old + CAP_DIGITS + 1 }
    ensures spelled { IsField (Show shown.now) (field_text (Show shown.now)) }
{
    match shown {
        Shown::Nothing => put_word(into, b"-".as_slice()),
        Shown::Key(cap) => put_cap(into, cap),
    }
}

/// A hint.
pub fn put_hint(into: &mut OutBuf, hint: Hint)
    requires { length into.old + NUMBER_ROOM ≤ LINE_MAX }
    ensures text { into.new ≡ into.old ++ 32 ∷ field_text (Near hint) }
    ensures room { length into.new ≤ length into.old + NUMBER_ROOM }
    ensures spelled { IsField (Near hint) (field_text (Near hint)) }
{
    match hint {
        Hint::Null => put_word(into, b"-".as_slice()),
        Hint::At(block) => put_number(into, block),
    }
}

/// Bytes, in lower case, at most 4,096.
pub fn put_data(into: &mut OutBuf, bytes: &[u8])
    requires few { length bytes.now ≤ DATA_MAX }
    requires room { length into.old + DATA_DIGITS + 1 ≤ LINE_MAX }
    ensures text { into.new ≡ into.old ++ 32 ∷ data_text bytes.now }
    ensures room { length into.new ≤ length into.old + DATA_DIGITS + 1 }
    ensures spelled { IsField (Bytes bytes.now) (field_text (Bytes bytes.now)) }
{
    if bytes.is_empty() {
        return put_word(into, b"-".as_slice());
    }
    let mut room = [0u8; DATA_DIGITS];
    let digits = &mut room[..2 * bytes.len()];
    put_hex(into, bytes, digits);
}

/// Two lower-case digits for each byte. They are put together in `digits`, which is overwritten.
fn put_hex(into: &mut OutBuf, bytes: &[u8], digits: &mut [u8])
    requires twice { length digits.old ≡ 2 * length bytes.now }
    requires room { length into.old + length digits.old + 1 ≤ LINE_MAX }
    ensures text { into.new ≡ into.old ++ 32 ∷ encode_lower bytes.now }
    ensures room { length into.new ≡ length into.old + 2 * length bytes.now + 1 }
    ensures long { length (encode_lower bytes.now) ≡ 2 * length bytes.now }
    ensures reads { decode_of (encode_lower bytes.now) ≡ Ok bytes.now }
{
    let _fit = hex::encode_to_slice(bytes, digits);
    put_word(into, digits);
}
