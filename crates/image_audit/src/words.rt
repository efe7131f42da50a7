//! The words of a line of a certificate that no other line has.

ghost use Rattle.std.specs.Prelude.{◌≡◌, Some, None, MatchOption};
ghost use Rattle.script_text.specs.Reading.{reads};
ghost use Rattle.image_audit.specs.ListingReading.{keyword, parent_of};

use script_text::Words;
use script_text::fields::parse_hint;
use tsd_model::Hint;

/// The next word, where it is this name.
pub(crate) fn name_in(words: &mut Words, name: &[u8]) -> Option<()>
    ensures { MatchOption result (reads (keyword name.now) words.old ≡ None) (λ n. reads (keyword name.now) words.old
        ≡ Some (n, words.new)) }
{
    let word = words.next()?;
    if word == name { Some(()) } else { None }
}

/// The next word as a parent: a dash for none, or a number.
pub(crate) fn parent_in(words: &mut Words) -> Option<Option<u32>>
    ensures { MatchOption result (reads parent_of words.old ≡ None) (λ p. reads parent_of words.old
        ≡ Some (p, words.new)) }
{
    let word = words.next()?;
    match parse_hint(word) {
        Some(Hint::At(block)) => Some(Some(block)),
        Some(Hint::Null) => Some(None),
        None => None,
    }
}
