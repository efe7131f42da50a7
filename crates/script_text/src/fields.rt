//! What one word of a request line says.

ghost use Rattle.std.specs.Prelude.{◌≡◌, ◌≤◌, ◌*◌, ◌/◌, [], cond, length, Some, None};
ghost use Rattle.std.specs.Result.{result_ok};
ghost use Rattle.hex.specs.Hex.{decode_sized};
ghost use Rattle.std.specs.List.{list_all};
ghost use Rattle.std.specs.Char.{is_ascii_digit};
ghost use Rattle.script_text.specs.Reading.{num_of, new_of, shown_of, hint_of, data_of};

use crate::digits::decode;
use tsd_model::caps::CAP_BYTES;
use tsd_model::lists::DATA_MAX;
use tsd_model::{Cap, Data, Hint, Shown};

/// The most digits of a number.
pub const NUMBER_DIGITS: usize = 10;

/// The most hexadecimal digits of a block's bytes.
pub const DATA_DIGITS: usize = 2 * DATA_MAX;

/// How many bytes are read in little room: the room of all that a block may have is cleared where there are more.
const FEW_BYTES: usize = 1024;

/// A number: one to ten decimal digits, at most 4,294,967,295.
pub fn parse_number(word: &[u8]) -> Option<u32>
    ensures { result ≡ num_of word.now }
{
    if word.len() > NUMBER_DIGITS || !all_digits(word) {
        return None;
    }
    match std::str::from_utf8(word) {
        Ok(text) => text.parse().ok(),
        Err(_) => None,
    }
}

/// Whether each byte is a decimal digit.
fn all_digits(word: &[u8]) -> bool
    ensures { result ≡ list_all is_ascii_digit word.now }
{
    word.iter().all(|b| b.is_ascii_digit())
}

/// A capability: 32 hexadecimal digits.
pub fn parse_cap(word: &[u8]) -> Option<Cap>
    ensures { result ≡ new_of word.now }
{
    if word.len() != 2 * CAP_BYTES {
        return None;
    }
    let mut bytes = [0; CAP_BYTES];
    if decode(word, &mut bytes) {
        Some(Cap { bytes })
    } else {
        None
    }
}

/// A dash, or a capability.
pub fn parse_shown(word: &[u8]) -> Option<Shown>
    ensures { result ≡ shown_of word.now }
{
    if word == b"-".as_slice() {
        return Some(Shown::Nothing);
    }
    Some(Shown::Key(parse_cap(word)?))
}

/// A dash, or a block's number.
pub fn parse_hint(word: &[u8]) -> Option<Hint>
    ensures { result ≡ hint_of word.now }
{
    if word == b"-".as_slice() {
        return Some(Hint::Null);
    }
    Some(Hint::At(parse_number(word)?))
}

/// A dash, or bytes as an even number of hexadecimal digits.
pub fn parse_data(word: &[u8]) -> Option<Data>
    ensures { result ≡ data_of word.now }
{
    let mut data = Data::new();
    if read_data(word, &mut data) {
        Some(data)
    } else {
        None
    }
}

/// Puts the bytes that the word spells into `room`, which is empty, and answers whether it spells any: no bytes as a
/// dash, or some as an even number of hexadecimal digits.
pub(crate) fn read_data(word: &[u8], room: &mut Data) -> bool
    requires { room.old ≡ [] }
    ensures { data_of word.now ≡ cond result (Some room.new) None }
{
    if word == b"-".as_slice() {
        return true;
    }
    if word.len() < 2 || word.len() > DATA_DIGITS {
        return false;
    }
    if word.len() <= 2 * FEW_BYTES {
        return read_digits::<FEW_BYTES>(word, room);
    }
    read_digits::<DATA_MAX>(word, room)
}

/// Puts the bytes that the digits spell into `room`, which is empty, and answers whether they spell any. They are put
/// together in room for `N` bytes.
#[inline(never)]
fn read_digits<const N: usize>(digits: &[u8], room: &mut Data) -> bool
    requires few { length digits.now ≤ 2 * N }
    requires most { N ≤ DATA_MAX }
    requires empty { room.old ≡ [] }
    ensures { result_ok (decode_sized digits.now (length digits.now / 2)) ≡ cond result (Some room.new) None }
{
    if digits.len() % 2 != 0 {
        return false;
    }
    let mut bytes = [0u8; N];
    let half = &mut bytes[..digits.len() / 2];
    decode(digits, half) && room.extend_from_slice(half).is_ok()
}
