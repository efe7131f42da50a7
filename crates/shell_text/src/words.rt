//! The words of a line of the shell that no other line has, and where a text is cut.

ghost use Rattle.std.specs.Prelude.{◌≡◌, ◌∷◌, Some, None, MatchOption, position, ◌==◌};
ghost use Rattle.script_text.specs.Pieces.{pieces};
ghost use Rattle.script_text.specs.Reading.{reads, data_of};
ghost use Rattle.shell_text.specs.Reading.{left, path_of};

use crate::names::parse_path;
use fs_trees::Path;
use script_text::Words;
use script_text::fields::parse_data;
use tsd_model::Data;

/// The next word as a path.
pub(crate) fn path_in(words: &mut Words) -> Option<Path>
    ensures { MatchOption result (reads path_of words.old ≡ None) (λ p. reads path_of words.old
        ≡ Some (p, words.new)) }
{
    let word = words.next()?;
    parse_path(word)
}

/// The next word as bytes.
pub(crate) fn bytes_in(words: &mut Words) -> Option<Data>
    ensures { MatchOption result (reads data_of words.old ≡ None) (λ d. reads data_of words.old
        ≡ Some (d, words.new)) }
{
    let word = words.next()?;
    parse_data(word)
}

/// Where a byte first stands.
fn first_position(bytes: &[u8], at: u8) -> Option<usize>
    ensures { result ≡ position (λ b. b == at) bytes.now }
{
    bytes.iter().position(|b| *b == at)
}

/// What stands before the first position of a byte, and after it.
pub(crate) fn cut(text: &[u8], at: u8) -> (&[u8], Option<&[u8]>)
    ensures { pieces at text.now ≡ result.0.now ∷ left at result.1 }
{
    match first_position(text, at) {
        Some(i) => (&text[..i], Some(&text[i + 1..])),
        None => (text, None),
    }
}
