//! Who may copy.

ghost use Rattle.std.specs.Prelude.{◌≡◌};
ghost use Rattle.volume_laws.specs.Volume.{told_by};
ghost use Rattle.image_copy.specs.Copied.{level_under};
ghost use Rattle.image_copy.specs.Steps.{IsDenial};

use image_shell::is_below_write;
use tsd_model::{Level, Shown};
use tsd_words::{CopyFs, TreeRoot};
use volume::Volume;

/// The level that keeps a side out, the source first, if one does.
pub(crate) fn denied(volume: &Volume, words: &CopyFs) -> Option<Level>
    ensures { IsDenial (told_by volume.now) words.now result }
{
    let attained = root_level(volume, &words.from);
    if is_below_write(&attained) {
        return Some(attained);
    }
    let attained = root_level(volume, &words.into);
    if is_below_write(&attained) {
        return Some(attained);
    }
    None
}

/// What a capability attains at the root of a tree: nothing where that isn't primary.
fn root_level(volume: &Volume, tree: &TreeRoot) -> Level
    ensures { result ≡ level_under (told_by volume.now) tree.now }
{
    let geometry = volume.geometry();
    if tree.root < geometry.primaries {
        return volume.level_shown(tree.root, &Shown::Key(tree.cap));
    }
    Level::Bare
}
