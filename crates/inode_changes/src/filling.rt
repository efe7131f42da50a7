//! A new file, which no directory names yet.

ghost use Rattle.std.specs.Prelude.{◌≡◌, ◌≢◌, ℕ, ◌≤◌, false, None, Some, IfErr, OnOk};
ghost use Rattle.tsd_model.specs.World.{free_count};
ghost use Rattle.tsd_model.specs.Pairs.{holds};
ghost use Rattle.fs_trees.specs.declared.refusal.FsRefusal.TheVariants as no;
ghost use Rattle.fs_port.specs.Calls.{IsValidNow};
ghost use Rattle.fs_client.specs.May.{MayWrite};
ghost use Rattle.fs_client.specs.Steps.{no_room_in};
ghost use Rattle.fs_port.specs.Runs.{Runs};
ghost use Rattle.inode_changes.specs.Content.{shared_of, new_bytes, new_count, all_count, FitsInode, IsFor};
ghost use Rattle.inode_changes.specs.Filling.{AsideOf, Filled, Stopped};

use crate::blocks::{take_parts, write_blocks};
use crate::content::Content;
use crate::sharing::share;
use fs_client::{Client, held_before, write_block};
use fs_port::Blocks;
use fs_trees::FsRefusal;

/// Makes a file of this content in a new inode, which points to nothing yet. Want of room for pointers refuses it: the
/// refusal is that of the time before the inode pointed to any, and what it points to then goes with the inode.
#[tactic(none)]
pub fn fill<K: Blocks>(
    client: &Client,
    disk: &mut K,
    inode: u32,
    content: &Content<'_>,
) -> Result<(), FsRefusal>
    requires unspent { (K.view disk.old).spent ≡ false }
    requires valid { K.told → IsValidNow (K.view disk.old) }
    requires may { K.told → MayWrite client.now (K.view disk.old) inode }
    requires room { FitsInode content.now }
    requires suits { K.told → IsFor client.now (K.view disk.old) content.now }
    requires bare { K.told → (b : ℕ) → holds (K.view disk.old).world.pairs inode b ≡ false }
    requires free { K.told → new_count content.now ≤ free_count (K.view disk.old).world }
    /// promise (with stopped, room, full): A new inode is filled that nothing names yet, with the blocks that it shares
    /// with an old file and with new ones; where there is no room for them, that is told with its numbers.
    ensures filled { K.told → OnOk result (Filled client.now (K.view disk.old) (K.view disk.new) inode
        content.now.size (shared_of content.now) (new_bytes content.now)) }
    ensures room { K.told → OnOk result (no_room_in (K.view disk.old).world (new_count content.now)
        (all_count content.now) ≡ None) }
    ensures full { K.told → IfErr result (λ e. e ≢ no.Device
        → no_room_in (K.view disk.old).world (new_count content.now) (all_count content.now) ≡ Some e) }
    ensures stopped { K.told → IfErr result (λ e. e ≢ no.Device
        → Stopped client.now (K.view disk.old) (K.view disk.new) inode (shared_of content.now)) }
    ensures runs { Runs K.told (K.view disk.old) (K.view disk.new) (AsideOf client.now.root inode
        (shared_of content.now) (K.view disk.old).world) result }
{
    match share(client, disk, inode, content) {
        Ok(()) => {}
        Err(refusal) => return Err(refusal),
    }
    let blocks = match take_parts(client, disk, inode, content.new_count()) {
        Ok(blocks) => blocks,
        Err(refusal) => return Err(held_before(refusal, content.shared_count())),
    };
    match write_blocks(client, disk, blocks.as_slice(), content) {
        Ok(()) => {}
        Err(refusal) => return Err(refusal),
    }
    match write_block(client, disk, inode, content.inode_bytes(blocks.as_slice())) {
        Ok(()) => Ok(()),
        Err(refusal) => Err(refusal),
    }
}
