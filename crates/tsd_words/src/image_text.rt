//! What is wrong with an image, as text.

ghost use Rattle.std.specs.Prelude.{◌≡◌, ◌+◌, ◌≤◌, ◌∷◌, ◌++◌, [], length, decimal};
ghost use Rattle.std.specs.List.{join_with_byte};
ghost use Rattle.tsd_words.specs.StatusText.{fault_text, header_words};

use image_layout::{HeaderFault, ImageFault};
use script_text::OutBuf;
use script_text::parse::LINE_MAX;
use script_text::printing::{put_number, put_word};

/// The most bytes of the text.
const FAULT_ROOM: usize = 60;

/// The most bytes of what follows the first word.
const REST_ROOM: usize = 45;

/// Replaces the bytes by the text of what is wrong and a line feed.
pub fn image_line(fault: &ImageFault, into: &mut OutBuf)
    /// promise: The line of the first test that an image fails.
    ensures { into.new ≡ fault_text fault.now ++ 10 ∷ [] }
{
    into.clear();
    put_fault(into, fault);
    into.put(b"\n".as_slice());
}

/// The text of what is wrong.
pub fn put_fault(into: &mut OutBuf, fault: &ImageFault)
    requires { length into.old + FAULT_ROOM ≤ LINE_MAX }
    ensures text { into.new ≡ into.old ++ fault_text fault.now }
    ensures room { length into.new ≤ length into.old + FAULT_ROOM }
{
    match fault {
        ImageFault::NotFormatted => into.put(b"not-formatted".as_slice()),
        ImageFault::Header(why) => {
            into.put(b"header".as_slice());
            put_header(into, why);
        }
        ImageFault::Descriptor => into.put(b"damaged descriptor".as_slice()),
        ImageFault::Primary { block } => {
            into.put(b"damaged".as_slice());
            put_word(into, b"primary".as_slice());
            put_number(into, *block);
        }
        ImageFault::Repeated { source, target } => {
            into.put(b"damaged".as_slice());
            put_two(into, b"repeated".as_slice(), *source, *target);
        }
        ImageFault::EndNotLive { source, target } => {
            into.put(b"damaged".as_slice());
            put_two(into, b"end".as_slice(), *source, *target);
        }
        ImageFault::Slot {
            slot,
            source,
            target,
        } => {
            into.put(b"damaged".as_slice());
            put_three(into, b"slot".as_slice(), *slot, *source, *target);
        }
        ImageFault::Count {
            block,
            stored,
            found,
        } => {
            into.put(b"damaged".as_slice());
            put_three(into, b"count".as_slice(), *block, *stored, *found);
        }
    }
}

/// What is wrong with a header.
fn put_header(into: &mut OutBuf, fault: &HeaderFault)
    requires { length into.old + REST_ROOM ≤ LINE_MAX }
    ensures text { into.new ≡ into.old ++ 32 ∷ join_with_byte 32 (header_words fault.now) }
    ensures room { length into.new ≤ length into.old + REST_ROOM }
{
    match fault {
        HeaderFault::Magic => put_word(into, b"magic".as_slice()),
        HeaderFault::Version(found) => {
            put_word(into, b"version".as_slice());
            put_number(into, *found);
        }
        HeaderFault::Field { number, found } => {
            put_two(into, b"field".as_slice(), *number, *found);
        }
    }
}

/// A word and two numbers.
fn put_two(into: &mut OutBuf, name: &[u8], first: u32, second: u32)
    requires short { length name.now ≤ 8 }
    requires room { length into.old + REST_ROOM ≤ LINE_MAX }
    ensures text { into.new ≡ into.old ++ 32 ∷ join_with_byte 32 (name.now ∷ decimal first ∷ decimal second ∷
        []) }
    ensures room { length into.new ≤ length into.old + REST_ROOM }
{
    put_word(into, name);
    put_number(into, first);
    put_number(into, second);
}

/// A word and three numbers.
fn put_three(into: &mut OutBuf, name: &[u8], first: u32, second: u32, third: u32)
    requires short { length name.now ≤ 8 }
    requires room { length into.old + REST_ROOM ≤ LINE_MAX }
    ensures text { into.new ≡ into.old ++ 32 ∷ join_with_byte 32 (name.now ∷ decimal first ∷ decimal second ∷
        decimal third ∷ []) }
    ensures room { length into.new ≤ length into.old + REST_ROOM }
{
    put_word(into, name);
    put_number(into, first);
    put_number(into, second);
    put_number(into, third);
}
