//! Blocks that a new file shares with an old one.

ghost use Rattle.std.specs.Prelude.{◌≡◌, ◌≢◌, ℕ, ◌≤◌, false, None, Some, IfErr, OnOk};
ghost use Rattle.tsd_model.specs.Pairs.{holds};
ghost use Rattle.fs_trees.specs.declared.refusal.FsRefusal.TheVariants as no;
ghost use Rattle.fs_port.specs.Calls.{IsValidNow};
ghost use Rattle.fs_client.specs.May.{MayWrite};
ghost use Rattle.fs_client.specs.Steps.{no_room_in};
ghost use Rattle.fs_port.specs.Runs.{Runs};
ghost use Rattle.inode_changes.specs.Content.{shared_of, shared_count, FitsInode, IsFor};
ghost use Rattle.inode_changes.specs.Filling.{AsideOf, Shared, Stopped};

use crate::content::Content;
use fs_client::{Client, add_pointer, held_before};
use fs_port::Blocks;
use fs_trees::FsRefusal;

/// Points from an inode, which points to nothing yet, to the blocks that it shares. Want of room refuses it: the
/// refusal is that of the time before the first of them.
#[tactic(none)]
pub fn share<K: Blocks>(
    client: &Client,
    disk: &mut K,
    inode: u32,
    content: &Content<'_>,
) -> Result<(), FsRefusal>
    requires unspent { (K.view disk.old).spent ≡ false }
    requires valid { K.told → IsValidNow (K.view disk.old) }
    requires may { K.told → MayWrite client.now (K.view disk.old) inode }
    requires room { FitsInode content.now }
    requires suits { K.told → IsFor client.now (K.view disk.old) content.now }
    requires bare { K.told → (b : ℕ) → holds (K.view disk.old).world.pairs inode b ≡ false }
    ensures shared { K.told → OnOk result (Shared client.now (K.view disk.old) (K.view disk.new) inode
        (shared_of content.now)) }
    ensures room { K.told → OnOk result (no_room_in (K.view disk.old).world 0 (shared_count content.now) ≡ None) }
    ensures full { K.told → IfErr result (λ e. e ≢ no.Device
        → no_room_in (K.view disk.old).world 0 (shared_count content.now) ≡ Some e) }
    ensures stopped { K.told → IfErr result (λ e. e ≢ no.Device
        → Stopped client.now (K.view disk.old) (K.view disk.new) inode (shared_of content.now)) }
    ensures runs { Runs K.told (K.view disk.old) (K.view disk.new) (AsideOf client.now.root inode
        (shared_of content.now) (K.view disk.old).world) result }
{
    for position in 0..content.shared_count() {
        match add_pointer(client, disk, inode, content.shared_block(position)) {
            Ok(()) => {}
            Err(refusal) => return Err(held_before(refusal, position)),
        }
    }
    Ok(())
}
