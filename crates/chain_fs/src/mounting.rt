//! Mounting.
#![tactic(none)]

ghost use Rattle.fs_port.specs.Calls.{IsValidNow};
ghost use Rattle.fs_port.specs.Files.{IsClientReady, IsTreeAlone};
ghost use Rattle.fs_port.specs.Runs.{FindsTree, Runs};
ghost use Rattle.chain_reading.specs.Asking.{mounted_by};

use crate::tidying::tidy;
use chain_reading::is_tree;
use fs_client::{BlockSet, Client};
use fs_port::Blocks;
use fs_trees::FsRefusal;

/// Mounts the tree under the client's root: the pairs out of its clusters that these don't name are deleted. NotThisFs
/// where no tree is there, and then nothing is changed. `seen` is for the blocks that are looked at.
pub fn mount<K: Blocks>(client: &Client, disk: &mut K, seen: &mut BlockSet) -> Result<(), FsRefusal>
    requires ready { IsClientReady (mounted_by client.now) (K.view disk.old) }
    requires valid { K.told → IsValidNow (K.view disk.old) }
    /// promise (with runs): Exactly the pairs that the tree doesn't name are deleted; nothing changes where there is no
    /// tree.
    ensures finds { K.told → FindsTree (mounted_by client.now) (K.view disk.old) (K.view disk.new) result }
    ensures runs { Runs K.told (K.view disk.old) (K.view disk.new) (IsTreeAlone (mounted_by client.now)
        (K.view disk.old)) result }
{
    match is_tree(client, disk, seen) {
        Ok(true) => tidy(client, disk),
        Ok(false) => Err(FsRefusal::NotThisFs),
        Err(refusal) => Err(refusal),
    }
}
