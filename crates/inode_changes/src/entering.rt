//! Entries in directories.

ghost use Rattle.std.specs.Prelude.{◌≡◌, ◌≤◌, nat_le, length, false, None, IsTrue, IfErr, OnOk, OnErr};
ghost use Rattle.fs_trees.specs.Names.{name_max};
ghost use Rattle.fs_trees.specs.Needs.{need};
ghost use Rattle.fs_trees.specs.Inode.{entries_room};
ghost use Rattle.fs_trees.specs.declared.refusal.FsRefusal.TheVariants as no;
ghost use Rattle.fs_port.specs.Calls.{IsValidNow};
ghost use Rattle.fs_port.specs.Files.{KeepsRoom};
ghost use Rattle.fs_client.specs.May.{MayWrite};
ghost use Rattle.fs_port.specs.Runs.{Runs};
ghost use Rattle.inode_layout.specs.Block.{inode_of, block_len_of};
ghost use Rattle.inode_layout.specs.Said.{is_directory, blocks_said, entry_said};
ghost use Rattle.inode_changes.specs.Entering.{DirectoryHasRoom, MayEnter, Enters, EntersOrNot};

use fs_client::{Client, drop_pointer, write_block};
use fs_port::Blocks;
use fs_trees::FsRefusal;
use inode_layout::{Inode, directory_with, entries_room};
use inode_walks::Lookup;

/// Refuses a new entry of a directory that has as many as it can.
pub fn check_entry(directory: &Inode, name: &[u8]) -> Result<(), FsRefusal>
    requires { IsTrue (is_directory (inode_of directory.now)) }
    ensures room { OnOk result (DirectoryHasRoom directory.now name.now) }
    ensures only { IfErr result (λ e. e ≡ no.DirFull) }
    ensures new { OnErr result (entry_said name.now (inode_of directory.now) ≡ None) }
    ensures full { OnErr result (IsTrue (nat_le (entries_room (block_len_of directory.now))
        (length (blocks_said (inode_of directory.now))))) }
{
    if directory.entry(name).is_none() && directory.count() >= entries_room(directory.block_len()) {
        return Err(FsRefusal::DirFull);
    }
    Ok(())
}

/// Names an inode that was made in a directory, which is the deciding write, and then lets go of what was named so
/// before.
#[tactic(none)]
pub fn enter<K: Blocks>(
    client: &Client,
    disk: &mut K,
    lookup: &Lookup<'_>,
    inode: u32,
) -> Result<(), FsRefusal>
    requires unspent { (K.view disk.old).spent ≡ false }
    requires valid { K.told → IsValidNow (K.view disk.old) }
    requires dir { IsTrue (is_directory (inode_of lookup.now.directory.inode)) }
    requires short { length lookup.now.name.now ≤ name_max }
    requires room { DirectoryHasRoom lookup.now.directory.inode lookup.now.name.now }
    requires may { K.told → MayWrite client.now (K.view disk.old) lookup.now.directory.block }
    requires made { K.told → MayEnter client.now.root lookup.now inode (K.view disk.old).world }
    /// promise (with keeps, runs): The one write that decides: the tree with the entry; a stop leaves the tree before
    /// or after.
    ensures entered { K.told → OnOk result (Enters client.now.root lookup.now inode (K.view disk.old).world
        (K.view disk.new).world) }
    ensures keeps { K.told → OnOk result (KeepsRoom (need 0 0) (K.view disk.old).world (K.view disk.new).world) }
    ensures only { K.told → IfErr result (λ e. e ≡ no.Device) }
    ensures runs { Runs K.told (K.view disk.old) (K.view disk.new) (EntersOrNot client.now.root lookup.now inode
        (K.view disk.old).world) result }
{
    let directory = &lookup.directory;
    let bytes = directory_with(&directory.inode, lookup.name, inode);
    match write_block(client, disk, directory.block, bytes) {
        Ok(()) => {}
        Err(refusal) => return Err(refusal),
    }
    let old = match lookup.old {
        Some(old) => old,
        None => return Ok(()),
    };
    match drop_pointer(client, disk, directory.block, old) {
        Ok(_gone) => Ok(()),
        Err(refusal) => Err(refusal),
    }
}
