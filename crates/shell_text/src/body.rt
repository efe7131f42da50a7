//! The fields of a frame's body that speak of a tree: each is read from the front of what is left.

ghost use Rattle.std.specs.Prelude.{◌≡◌, ◌≤◌, MatchOption};
ghost use Rattle.shell_text.specs.FileReading.{start_of, word_of, after_at, names_at, path_at};

use crate::names::parse_name;
use byteorder::{ByteOrder, LittleEndian};
use fs_trees::name::PATH_MAX;
use fs_trees::{Name, Path};
use request_frames::reader::BodyReader;

/// How many bytes the offset of a first byte has.
const START_BYTES: usize = 8;

/// The next eight bytes as a number, the lowest first.
#[tactic(auto, unfolding(crate::specs::FileReading::start_of), using(crate::proofs::BodyLaws::start_taken))]
pub fn read_start(reader: &mut BodyReader<'_>) -> Option<u64>
    ensures { MatchOption result (start_of reader.old ≡ None) (λ n. start_of reader.old
        ≡ Some (n, reader.new)) }
{
    let bytes = reader.take(START_BYTES)?;
    Some(LittleEndian::read_u64(bytes))
}

/// A byte, and as many bytes as it says.
fn read_word<'a>(reader: &mut BodyReader<'a>) -> Option<&'a [u8]>
    ensures { MatchOption result (word_of reader.old ≡ None) (λ w. word_of reader.old
        ≡ Some (w.now, reader.new)) }
{
    let count = usize::from(reader.byte()?);
    reader.take(count)
}

/// What a name may stand above: no bytes, or a name.
#[tactic(auto, unfolding(crate::specs::FileReading::after_at))]
pub fn read_after(reader: &mut BodyReader<'_>) -> Option<Name>
    ensures { MatchOption result (after_at reader.old ≡ None) (λ n. after_at reader.old
        ≡ Some (n, reader.new)) }
{
    let word = read_word(reader)?;
    if word.is_empty() {
        Some(Name::new())
    } else {
        parse_name(word)
    }
}

/// A path: a byte, and as many names as it says, at most 16.
pub fn read_path(reader: &mut BodyReader<'_>) -> Option<Path>
    ensures { MatchOption result (path_at reader.old ≡ None) (λ p. path_at reader.old ≡ Some (p, reader.new)) }
{
    let count = usize::from(reader.byte()?);
    if count > PATH_MAX {
        return None;
    }
    read_names(reader, count)
}

/// So many names.
#[tactic(auto, unfolding(crate::specs::FileReading::name_at))]
fn read_names(reader: &mut BodyReader<'_>, count: usize) -> Option<Path>
    requires { count ≤ PATH_MAX }
    ensures { MatchOption result (names_at count reader.old ≡ None) (λ p. names_at count reader.old
        ≡ Some (p, reader.new)) }
{
    let mut path = Path::new();
    let mut more = count;
    while more > 0 {
        let word = read_word(reader)?;
        match path.push_bytes(word) {
            Ok(()) => more -= 1,
            Err(_) => return None,
        }
    }
    Some(path)
}
