//! A line of a certificate.

ghost use Rattle.std.specs.Prelude.{◌≡◌, ℕ, List, IfSome, Some, take};
ghost use Rattle.script_text.specs.Grammar.{held_max};
ghost use Rattle.image_audit.specs.Listing.{IsListing};
ghost use Rattle.image_audit.specs.ListingReading.{listing_in, listing_of};

use crate::entry::Entry;
use crate::words::{name_in, parent_in};
use script_text::Words;

/// What a line of a certificate says: a block, and its entry.
#[derive(Clone, Copy, Debug, PartialEq, Eq)]
pub struct Listing {
    pub block: u32,
    pub entry: Entry,
}

/// What a line says, None exactly where it isn't of the form. It comes without its line feed.
pub fn parse_listing(line: &[u8]) -> Option<Listing>
    /// promise (with only, cut): What a line says, none exactly where it isn't of the form.
    ensures spelled { IfSome result (IsListing line.now) }
    ensures only { (l : Listing) → IsListing line.now l → result ≡ Some l }
    // A line of more than 8,400 bytes says none, whole or cut to one byte more than that.
    ensures cut { (whole : List ℕ) → line.now ≡ take held_max whole → result ≡ listing_of whole }
    // As a function that computes.
    ensures value { result ≡ listing_of line.now }
{
    read_listing(Words::of(line))
}

/// What the words say.
#[tactic(auto, unfolding(crate::specs::ListingReading::listing_in))]
fn read_listing(mut words: Words) -> Option<Listing>
    ensures { result ≡ listing_in words.entry }
{
    name_in(&mut words, b"block".as_slice())?;
    let block = words.number()?;
    name_in(&mut words, b"depth".as_slice())?;
    let depth = words.number()?;
    name_in(&mut words, b"parent".as_slice())?;
    let parent = parent_in(&mut words)?;
    if !words.is_empty() {
        return None;
    }
    Some(Listing {
        block,
        entry: Entry { depth, parent },
    })
}
