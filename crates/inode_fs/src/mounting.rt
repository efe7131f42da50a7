//! Mounting.
#![tactic(none)]

ghost use Rattle.std.specs.Prelude.{ℕ, OnOk};
ghost use Rattle.fs_trees.specs.Layouts.{Named};
ghost use Rattle.fs_port.specs.Calls.{IsValidNow};
ghost use Rattle.fs_port.specs.Files.{IsClientReady, IsTreeAlone};
ghost use Rattle.fs_port.specs.Runs.{FindsTree, Runs};
ghost use Rattle.fs_client.specs.Trimming.{Trims, IsClean};
ghost use Rattle.inode_walks.specs.Asking.{mounted_by};
ghost use Rattle.inode_fs.specs.Tidying.{MayTidy};

use crate::looking::is_tree;
use crate::marks::Marks;
use fs_client::{Client, NoNames, delete_others};
use fs_port::Blocks;
use fs_trees::FsRefusal;
use inode_walks::read_inode;

/// Deletes the pairs out of a marked block that it doesn't name.
fn tidy_block<K: Blocks>(
    client: &Client,
    disk: &mut K,
    marks: &Marks,
    block: u32,
) -> Result<(), FsRefusal>
    ghost kept: { Named }
    requires { MayTidy K.told client.now kept (K.view disk.old) marks.now }
    ensures trims { Trims K.told client.now kept (K.view disk.old) (K.view disk.new) result }
    ensures clean { K.told → OnOk result (IsClean kept (K.view disk.new).world block) }
{
    if !marks.has_leftovers(block) {
        return Ok(());
    }
    if marks.is_inode(block) {
        match read_inode(client, disk, block) {
            Ok(found) => delete_others(client, disk, block, &found),
            Err(refusal) => Err(refusal),
        }
    } else if marks.is_data_block(block) {
        delete_others(client, disk, block, &NoNames)
    } else {
        Ok(())
    }
}

/// Deletes all pairs that are left over.
fn tidy<K: Blocks>(client: &Client, disk: &mut K, marks: &Marks) -> Result<(), FsRefusal>
    ghost kept: { Named }
    requires { MayTidy K.told client.now kept (K.view disk.old) marks.now }
    ensures trims { Trims K.told client.now kept (K.view disk.old) (K.view disk.new) result }
    ensures clean { K.told → OnOk result ((a : ℕ) → IsClean kept (K.view disk.new).world a) }
{
    let end = disk.geometry().blocks;
    for block in 0..end {
        match tidy_block(client, disk, marks, block) {
            Ok(()) => {}
            Err(refusal) => return Err(refusal),
        }
    }
    Ok(())
}

/// Mounts the tree under the client's root: the pairs out of its blocks that it doesn't name are deleted. NotThisFs
/// where no tree is there, and then nothing is changed.
pub fn mount<K: Blocks>(client: &Client, marks: &mut Marks, disk: &mut K) -> Result<(), FsRefusal>
    requires ready { IsClientReady (mounted_by client.now) (K.view disk.old) }
    requires valid { K.told → IsValidNow (K.view disk.old) }
    /// promise (with runs): Exactly the pairs that the tree doesn't name are deleted; nothing changes where there is no
    /// tree.
    ensures finds { K.told → FindsTree (mounted_by client.now) (K.view disk.old) (K.view disk.new) result }
    ensures runs { Runs K.told (K.view disk.old) (K.view disk.new) (IsTreeAlone (mounted_by client.now)
        (K.view disk.old)) result }
{
    match is_tree(client, disk, marks) {
        Ok(true) => tidy(client, disk, marks),
        Ok(false) => Err(FsRefusal::NotThisFs),
        Err(refusal) => Err(refusal),
    }
}
