//! A new inode: it is begun, and it is given up.

ghost use Rattle.std.specs.Prelude.{◌≡◌, ◌≢◌, false, None, Some, IsTrue, IfOk, IfErr, OnOk};
ghost use Rattle.tsd_model.specs.Pairs.{holds};
ghost use Rattle.fs_trees.specs.declared.refusal.FsRefusal.TheVariants as no;
ghost use Rattle.fs_port.specs.View.{state_of};
ghost use Rattle.fs_port.specs.Calls.{IsValidNow};
ghost use Rattle.fs_client.specs.May.{MayWrite};
ghost use Rattle.fs_client.specs.Leftovers.{refusal_before};
ghost use Rattle.fs_client.specs.Steps.{no_room_in};
ghost use Rattle.fs_port.specs.Runs.{Runs};
ghost use Rattle.inode_changes.specs.Blocks.{the_block};
ghost use Rattle.inode_changes.specs.Filling.{Stage, IsAside};
ghost use Rattle.inode_changes.specs.Beginning.{HasNewInode, IsBack, AsideOr, IsRefusedSo};

use fs_client::{Client, drop_pointer, held_before, take_blocks};
use fs_port::Blocks;
use fs_trees::FsRefusal;
use tsd_model::BlockList;

/// The block, where it is one.
fn the_block(blocks: &BlockList) -> Option<u32>
    ensures { result ≡ the_block blocks.now }
{
    match blocks.as_slice() {
        [block] => Some(*block),
        _ => None,
    }
}

/// Takes a block for a new inode of a directory, which points to it and doesn't name it yet. Want of room refuses it.
#[tactic(none)]
pub fn new_inode<K: Blocks>(client: &Client, disk: &mut K, directory: u32) -> Result<u32, FsRefusal>
    requires unspent { (K.view disk.old).spent ≡ false }
    requires valid { K.told → IsValidNow (K.view disk.old) }
    requires stage { K.told → Stage client.now.root (K.view disk.old).world directory }
    requires may { K.told → MayWrite client.now (K.view disk.old) directory }
    ensures began { K.told → IfOk result (HasNewInode client.now (K.view disk.old) (K.view disk.new) directory) }
    ensures room { K.told → OnOk result (no_room_in (K.view disk.old).world 1 1 ≡ None) }
    ensures full { K.told → IfErr result (λ e. e ≢ no.Device → no_room_in (K.view disk.old).world 1 1 ≡ Some e) }
    ensures same { K.told → IfErr result (λ e. e ≢ no.Device → state_of (K.view disk.new)
        ≡ state_of (K.view disk.old)) }
    ensures runs { Runs K.told (K.view disk.old) (K.view disk.new) (IsAside client.now.root (K.view disk.old).world)
        result }
{
    let blocks = match take_blocks(client, disk, directory, 1) {
        Ok(blocks) => blocks,
        Err(refusal) => return Err(refusal),
    };
    match the_block(&blocks) {
        Some(block) => Ok(block),
        None => Err(FsRefusal::NotThisFs),
    }
}

/// Takes back a new inode, with all that is under it alone, and gives the refusal of what was to be made of it, as of
/// the time before it was begun.
#[tactic(none)]
pub fn give_up<K: Blocks>(
    client: &Client,
    disk: &mut K,
    directory: u32,
    inode: u32,
    refusal: FsRefusal,
) -> FsRefusal
    requires unspent { (K.view disk.old).spent ≡ false }
    requires valid { K.told → IsValidNow (K.view disk.old) }
    requires may { K.told → MayWrite client.now (K.view disk.old) directory }
    requires held { K.told → IsTrue (holds (K.view disk.old).world.pairs directory inode) }
    requires refused { refusal ≢ no.Device }
    ensures refusal { K.told → result ≢ no.Device → result ≡ refusal_before refusal 1 }
    ensures back { K.told → result ≢ no.Device → IsBack client.now.root directory inode (K.view disk.old).world
        (K.view disk.new).world }
    ensures runs { IsRefusedSo K.told (K.view disk.old) (K.view disk.new) (AsideOr client.now.root directory inode
        (K.view disk.old).world) result }
{
    match drop_pointer(client, disk, directory, inode) {
        Ok(_gone) => held_before(refusal, 1),
        Err(fault) => fault,
    }
}
