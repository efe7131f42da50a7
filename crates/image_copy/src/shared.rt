//! Blocks that two roots reach.

ghost use Rattle.std.specs.Prelude.{◌≡◌, ◌<◌, [], ◌∷◌, IfOk};
ghost use Rattle.volume_laws.specs.Volume.{IsVolumeReady, told_by};
ghost use Rattle.image_copy.specs.Steps.{IsFirstInBoth, IsSharing};

use image_audit::Reached;
use std::alloc::Global;
use tsd_model::{BlockList, NoMemory};
use volume::Volume;

/// The least block that both roots reach, if there is one. It takes memory for what each of them reaches.
pub(crate) fn first_shared(
    alloc: Global,
    volume: &Volume,
    root: u32,
    other: u32,
) -> Result<Option<u32>, NoMemory>
    requires ready { IsVolumeReady volume.now }
    requires root { root < volume.now.tables.geometry.blocks }
    requires other { other < volume.now.tables.geometry.blocks }
    ensures { IfOk result (IsSharing (told_by volume.now) root other) }
{
    let one = Reached::new(alloc, volume, &only(root))?;
    let two = Reached::new(alloc, volume, &only(other))?;
    Ok(first_in_both(&one, &two))
}

/// A list of one block.
fn only(block: u32) -> BlockList
    ensures { result ≡ block ∷ [] }
{
    let mut list = BlockList::new();
    list.push_wanted(block, true);
    list
}

/// The least block that both list, if they list one.
fn first_in_both(one: &Reached, other: &Reached) -> Option<u32>
    ensures { IsFirstInBoth one.now other.now result }
{
    for block in 0..one.blocks() {
        if one.holds(block) && other.holds(block) {
            return Some(block);
        }
    }
    None
}
