//! Names and paths as they are written.

ghost use Rattle.std.specs.Prelude.{◌≡◌};
ghost use Rattle.script_text.specs.Pieces.{pieces};
ghost use Rattle.shell_text.specs.Reading.{name_of, names_of, path_if, path_of};

use crate::words::cut;
use fs_trees::{Name, Path, is_name};

/// A path: `/`, or 1 to 16 times a slash and a name.
pub fn parse_path(word: &[u8]) -> Option<Path>
    ensures { result ≡ path_of word.now }
{
    match word.split_first() {
        Some((first, rest)) if *first == b'/' => parse_names(rest),
        _ => None,
    }
}

/// What stands after the first slash of a path.
#[tactic(auto, using(crate::proofs::PathLaws::some_text))]
fn parse_names(text: &[u8]) -> Option<Path>
    ensures { result ≡ names_of text.now }
{
    if text.is_empty() {
        Some(Path::new())
    } else {
        read_names(text)
    }
}

/// At most 16 names, parted by slashes.
fn read_names(text: &[u8]) -> Option<Path>
    ensures { result ≡ path_if (pieces 47 text.now) }
{
    let mut path = Path::new();
    let mut rest = Some(text);
    while let Some(part) = rest {
        let (word, more) = cut(part, b'/');
        match path.push_bytes(word) {
            Ok(()) => rest = more,
            Err(_) => return None,
        }
    }
    path.known();
    Some(path)
}

/// A name: 1 to 28 letters, digits, dots, underscores and dashes, but neither `.`, `..` nor `-`.
pub fn parse_name(word: &[u8]) -> Option<Name>
    ensures { result ≡ name_of word.now }
{
    if is_name(word) {
        Some(Name::from_bytes(word))
    } else {
        None
    }
}
