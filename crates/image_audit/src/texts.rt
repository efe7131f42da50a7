//! The lines of an audit: of a certificate, and of what it shows.

ghost use Rattle.std.specs.List.{join_with_byte};
ghost use Rattle.std.specs.Prelude.{◌≡◌, ◌+◌, ◌≤◌, ◌++◌, ◌∷◌, length, codes, decimal};
ghost use Rattle.tsd_words.specs.Lines.{line_of};
ghost use Rattle.script_text.specs.Grammar.{IsNumber, IsHint};
ghost use Rattle.image_audit.specs.Listing.{IsListing, parent_word};
ghost use Rattle.image_audit.specs.Texts.{listing_words, parent_text, verdict_words, fault_words};

use crate::certificate::FormFault;
use crate::listing::Listing;
use crate::verdict::Verdict;
use script_text::OutBuf;
use script_text::parse::LINE_MAX;
use script_text::printing::{put_number, put_word};

/// The most bytes of a word and a number with the spaces before them.
const COUNTED_ROOM: usize = 20;

/// The most bytes of the line of a block.
pub const LISTING_ROOM: usize = 60;

/// The line of a block in a certificate, with its line feed.
pub fn put_listing(into: &mut OutBuf, listing: &Listing)
    requires { length into.old + LISTING_ROOM ≤ LINE_MAX }
    /// promise (with read): The line of a block, which reads as what it was made of.
    ensures text { into.new ≡ into.old ++ line_of (listing_words listing.now) }
    // It reads as what it was made of.
    ensures read { IsListing (join_with_byte 32 (listing_words listing.now)) listing.now }
    ensures room { length into.new ≤ length into.old + LISTING_ROOM }
{
    into.put(b"block".as_slice());
    put_number(into, listing.block);
    put_counted(into, b"depth".as_slice(), listing.entry.depth);
    put_parent(into, listing.entry.parent);
    into.put(b"\n".as_slice());
}

/// A word and a number.
fn put_counted(into: &mut OutBuf, name: &[u8], count: u32)
    requires short { length name.now ≤ 8 }
    requires room { length into.old + COUNTED_ROOM ≤ LINE_MAX }
    ensures text { into.new ≡ into.old ++ 32 ∷ name.now ++ 32 ∷ decimal count }
    ensures room { length into.new ≤ length into.old + COUNTED_ROOM }
    ensures spelled { IsNumber (decimal count) count }
{
    put_word(into, name);
    put_number(into, count);
}

/// The words of a parent, which may be missing.
fn put_parent(into: &mut OutBuf, parent: Option<u32>)
    requires room { length into.old + COUNTED_ROOM ≤ LINE_MAX }
    ensures text { into.new ≡ into.old ++ 32 ∷ codes "parent" ++ 32 ∷ parent_text parent }
    ensures room { length into.new ≤ length into.old + COUNTED_ROOM }
    ensures spelled { IsHint (parent_text parent) (parent_word parent) }
{
    match parent {
        Some(block) => put_counted(into, b"parent".as_slice(), block),
        None => {
            put_word(into, b"parent".as_slice());
            put_word(into, b"-".as_slice());
        }
    }
}

/// The line of a verdict, with its line feed.
pub fn verdict_line(verdict: &Verdict) -> OutBuf
    ensures { result ≡ line_of (verdict_words verdict.now) }
{
    let mut line = OutBuf::new();
    match verdict {
        Verdict::Yes { blocks } => {
            line.put(b"yes".as_slice());
            put_number(&mut line, *blocks);
        }
        Verdict::Primary { block } => {
            line.put(b"no".as_slice());
            put_counted(&mut line, b"primary".as_slice(), *block);
        }
        Verdict::Entry { block } => {
            line.put(b"no".as_slice());
            put_counted(&mut line, b"entry".as_slice(), *block);
        }
        Verdict::Open { source, target } => {
            line.put(b"no".as_slice());
            put_counted(&mut line, b"open".as_slice(), *source);
            put_number(&mut line, *target);
        }
    }
    line.put(b"\n".as_slice());
    line
}

/// The line of a refused line of a certificate, with its line feed.
pub fn fault_line(fault: &FormFault) -> OutBuf
    ensures { result ≡ line_of (fault_words fault.now) }
{
    let mut line = OutBuf::new();
    line.put(b"no".as_slice());
    put_word(&mut line, b"form".as_slice());
    let mut digits = itoa::Buffer::new();
    put_word(&mut line, digits.format(fault.line).as_bytes());
    line.put(b"\n".as_slice());
    line
}
