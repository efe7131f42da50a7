//! How many blocks are free, before any is taken.

ghost use Rattle.std.specs.Prelude.{◌≡◌, ◌≢◌, ◌≤◌, ℕ, false, Some, IfErr, OnOk};
ghost use Rattle.tsd_model.specs.World.{free_count};
ghost use Rattle.fs_trees.specs.declared.refusal.FsRefusal.TheVariants as no;
ghost use Rattle.fs_port.specs.Calls.{IsValidNow};
ghost use Rattle.fs_client.specs.May.{OnlyLooks};
ghost use Rattle.fs_client.specs.Steps.{no_room_in};

use fs_port::{Blocks, free_blocks};
use fs_trees::FsRefusal;

/// Refuses where fewer blocks are free than are wanted.
pub fn check_free<K: Blocks>(disk: &mut K, wanted: u32) -> Result<(), FsRefusal>
    requires unspent { (K.view disk.old).spent ≡ false }
    requires valid { K.told → IsValidNow (K.view disk.old) }
    /// promise (with full): Too few free blocks are refused before any is taken, with both numbers.
    ensures enough { K.told → OnOk result (wanted ≤ free_count (K.view disk.old).world) }
    ensures full { K.told → IfErr result (λ e. e ≢ no.Device → (pairs : ℕ)
        → no_room_in (K.view disk.old).world wanted pairs ≡ Some e) }
    ensures looks { OnlyLooks K.told (K.view disk.old) (K.view disk.new) result }
{
    let free = match free_blocks(disk) {
        Ok(free) => free,
        Err(refusal) => return Err(refusal),
    };
    if free < wanted {
        return Err(FsRefusal::Full { free, wanted });
    }
    Ok(())
}
