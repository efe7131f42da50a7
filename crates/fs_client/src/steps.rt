//! The four requests that change the disk.
#![tactic(none)]

ghost use Rattle.std.specs.Prelude.{◌≡◌, ◌≢◌, ◌≤◌, length, false, None, Some, IsTrue, IfOk, IfErr};
ghost use Rattle.std.specs.Prelude.{OnOk};
ghost use Rattle.tsd_model.specs.Geometry.{block_len};
ghost use Rattle.tsd_model.specs.World.{is_live};
ghost use Rattle.tsd_model.specs.Pairs.{holds};
ghost use Rattle.tsd_model.specs.Placing.{chosen};
ghost use Rattle.tsd_model.specs.declared.caps.Shown.TheVariants.{Nothing};
ghost use Rattle.tsd_model.specs.declared.requests.Hint.TheVariants.{At};
ghost use Rattle.fs_trees.specs.declared.refusal.FsRefusal.TheVariants as no;
ghost use Rattle.fs_laws.specs.Ways.{attains_write};
ghost use Rattle.fs_port.specs.View.{state_of};
ghost use Rattle.fs_port.specs.Calls.{IsValidNow};
ghost use Rattle.fs_client.specs.Client.{write_by, link_by, unlink_by, alloc_by};
ghost use Rattle.fs_client.specs.May.{MayWrite};
ghost use Rattle.tsd_model.specs.Step.{written};
ghost use Rattle.fs_client.specs.Steps.{Steps, pointed, dropped, taken, no_room_in};

use crate::client::Client;
use fs_port::Blocks;
use fs_trees::FsRefusal;
use tsd_model::{BlockList, Data};

/// Sets the bytes of a block. Only a fault refuses it.
pub fn write_block<K: Blocks>(
    client: &Client,
    disk: &mut K,
    block: u32,
    bytes: Data,
) -> Result<(), FsRefusal>
    requires unspent { (K.view disk.old).spent ≡ false }
    requires valid { K.told → IsValidNow (K.view disk.old) }
    requires may { K.told → MayWrite client.now (K.view disk.old) block }
    requires fits { K.told → length bytes ≤ block_len (K.view disk.old).world.geometry }
    /// promise (with only): The world with these bytes, told exactly; a stop leaves it or the one before, and no rule
    /// refuses it.
    ensures steps { Steps K.told client.now (K.view disk.old) (K.view disk.new) (write_by client.now block bytes) block
        (written (K.view disk.old).world block bytes) result }
    ensures only { K.told → IfErr result (λ e. e ≡ no.Device) }
{
    match client.write(disk, block, bytes) {
        Ok(()) => Ok(()),
        Err(refusal) => Err(refusal),
    }
}

/// Adds a pointer to a block that may be written, too. Want of room refuses it.
pub fn add_pointer<K: Blocks>(
    client: &Client,
    disk: &mut K,
    source: u32,
    target: u32,
) -> Result<(), FsRefusal>
    requires unspent { (K.view disk.old).spent ≡ false }
    requires valid { K.told → IsValidNow (K.view disk.old) }
    requires may { K.told → MayWrite client.now (K.view disk.old) source }
    requires live { K.told → IsTrue (is_live (K.view disk.old).world target) }
    requires apart { K.told → (K.view disk.old).world.geometry.primaries ≤ target }
    requires way { K.told → IsTrue (attains_write (state_of (K.view disk.old)) client.now.session target Nothing) }
    requires new { K.told → holds (K.view disk.old).world.pairs source target ≡ false }
    /// promise (with room, full): The world with the pointer, told exactly; a stop leaves it or the one before, and no
    /// rule but want of room refuses it.
    ensures steps { Steps K.told client.now (K.view disk.old) (K.view disk.new) (link_by client.now source target)
        source (pointed (K.view disk.old).world source target) result }
    ensures room { K.told → OnOk result (no_room_in (K.view disk.old).world 0 1 ≡ None) }
    ensures full { K.told → IfErr result (λ e. e ≢ no.Device → no_room_in (K.view disk.old).world 0 1 ≡ Some e) }
{
    match client.link(disk, source, target) {
        Ok(()) => Ok(()),
        Err(refusal) => Err(refusal),
    }
}

/// Deletes a pointer that is held, and with it the blocks that nothing leads to any more. Only a fault refuses it.
pub fn drop_pointer<K: Blocks>(
    client: &Client,
    disk: &mut K,
    source: u32,
    target: u32,
) -> Result<u32, FsRefusal>
    requires unspent { (K.view disk.old).spent ≡ false }
    requires valid { K.told → IsValidNow (K.view disk.old) }
    requires may { K.told → MayWrite client.now (K.view disk.old) source }
    requires held { K.told → IsTrue (holds (K.view disk.old).world.pairs source target) }
    /// promise (with only): The world without the pointer and what hung on it, told exactly; a stop leaves it or the
    /// one before, and no rule refuses it.
    ensures steps { Steps K.told client.now (K.view disk.old) (K.view disk.new) (unlink_by client.now source target)
        source (dropped (K.view disk.old).world source target) result }
    ensures only { K.told → IfErr result (λ e. e ≡ no.Device) }
{
    match client.unlink(disk, source, target) {
        Ok(gone) => Ok(gone),
        Err(refusal) => Err(refusal),
    }
}

/// Takes free blocks near the source, 1 to 32, and points to them from there. Want of room refuses it.
pub fn take_blocks<K: Blocks>(
    client: &Client,
    disk: &mut K,
    source: u32,
    count: u32,
) -> Result<BlockList, FsRefusal>
    requires unspent { (K.view disk.old).spent ≡ false }
    requires valid { K.told → IsValidNow (K.view disk.old) }
    requires may { K.told → MayWrite client.now (K.view disk.old) source }
    requires some { 1 ≤ count }
    requires few { count ≤ 32 }
    /// promise (with blocks, room, full): The world with new blocks, told exactly; a stop leaves it or the one before,
    /// and no rule but want of room refuses it.
    ensures steps { Steps K.told client.now (K.view disk.old) (K.view disk.new) (alloc_by client.now source count)
        source (taken (K.view disk.old) source count) result }
    ensures blocks { K.told → IfOk result (λ blocks. blocks ≡ chosen (K.view disk.old).kind (K.view disk.old).world
        (At source) count) }
    ensures room { K.told → OnOk result (no_room_in (K.view disk.old).world count count ≡ None) }
    ensures full { K.told → IfErr result (λ e. e ≢ no.Device → no_room_in (K.view disk.old).world count count
        ≡ Some e) }
{
    match client.alloc(disk, source, count) {
        Ok(blocks) => Ok(blocks),
        Err(refusal) => Err(refusal),
    }
}
