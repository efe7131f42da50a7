//! New directories.

ghost use Rattle.std.specs.Prelude.{◌≡◌, ◌≢◌, ◌≤◌, ℕ, length, false, None, Some, IsTrue, IfOk, IfErr, OnOk};
ghost use Rattle.fs_trees.specs.Names.{Path, name_max};
ghost use Rattle.fs_trees.specs.Answer.{done};
ghost use Rattle.fs_trees.specs.Needs.{need};
ghost use Rattle.fs_trees.specs.Step.{empty_tree};
ghost use Rattle.fs_trees.specs.declared.ask.ShellAsk.TheVariants as ask;
ghost use Rattle.fs_trees.specs.declared.refusal.FsRefusal.TheVariants as no;
ghost use Rattle.fs_port.specs.Calls.{IsValidNow};
ghost use Rattle.fs_port.specs.Files.{Answers, KeepsRoom};
ghost use Rattle.fs_port.specs.Runs.{Changes, Runs};
ghost use Rattle.fs_client.specs.May.{MayWrite};
ghost use Rattle.fs_client.specs.Steps.{no_room_in};
ghost use Rattle.inode_layout.specs.Block.{inode_of};
ghost use Rattle.inode_layout.specs.Said.{is_directory};
ghost use Rattle.inode_walks.specs.Asking.{MayAsk, mounted_by};
ghost use Rattle.inode_changes.specs.Filling.{Stage, IsAside};
ghost use Rattle.inode_changes.specs.Entering.{IsMadeInode};
ghost use Rattle.inode_changes.specs.Directories.{IsVacant};

use crate::beginning::new_inode;
use crate::entering::{check_entry, enter};
use fs_client::{Client, write_block};
use fs_port::Blocks;
use fs_trees::{FsRefusal, Path};
use inode_layout::empty_directory;
use inode_walks::{Lookup, look_up};

/// Makes a directory without entries in a new inode of another, which doesn't name it yet. Want of room refuses it.
#[tactic(none)]
fn new_directory<K: Blocks>(client: &Client, disk: &mut K, directory: u32) -> Result<u32, FsRefusal>
    requires unspent { (K.view disk.old).spent ≡ false }
    requires valid { K.told → IsValidNow (K.view disk.old) }
    requires stage { K.told → Stage client.now.root (K.view disk.old).world directory }
    requires may { K.told → MayWrite client.now (K.view disk.old) directory }
    ensures made { K.told → IfOk result (λ inode. IsMadeInode client.now.root (K.view disk.old).world directory inode
        empty_tree (K.view disk.new).world) }
    ensures may { K.told → OnOk result ((b : ℕ) → MayWrite client.now (K.view disk.old) b
        → MayWrite client.now (K.view disk.new) b) }
    ensures room { K.told → OnOk result (no_room_in (K.view disk.old).world 1 1 ≡ None) }
    ensures keeps { K.told → OnOk result (KeepsRoom (need 1 1) (K.view disk.old).world (K.view disk.new).world) }
    ensures full { K.told → IfErr result (λ e. e ≢ no.Device → no_room_in (K.view disk.old).world 1 1 ≡ Some e) }
    ensures same { K.told → IfErr result (λ e. e ≢ no.Device → (K.view disk.new).world
        ≡ (K.view disk.old).world) }
    ensures runs { Runs K.told (K.view disk.old) (K.view disk.new) (IsAside client.now.root (K.view disk.old).world)
        result }
{
    let inode = match new_inode(client, disk, directory) {
        Ok(inode) => inode,
        Err(refusal) => return Err(refusal),
    };
    match write_block(client, disk, inode, empty_directory()) {
        Ok(()) => Ok(inode),
        Err(refusal) => Err(refusal),
    }
}

/// Makes a directory without entries, and enters it where a lookup found nothing.
#[tactic(none)]
fn add_directory<K: Blocks>(
    client: &Client,
    disk: &mut K,
    lookup: &Lookup<'_>,
) -> Result<(), FsRefusal>
    requires unspent { (K.view disk.old).spent ≡ false }
    requires valid { K.told → IsValidNow (K.view disk.old) }
    requires dir { IsTrue (is_directory (inode_of lookup.now.directory.inode)) }
    requires short { length lookup.now.name.now ≤ name_max }
    requires vacant { K.told → (path : Path) × IsVacant client.now (K.view disk.old) path lookup.now }
    ensures answer { K.told → (path : Path) → IsVacant client.now (K.view disk.old) path lookup.now
        → Answers (mounted_by client.now) (K.view disk.old) (K.view disk.new) (ask.MakeDir path) result
        (λ _ answer. answer ≡ done) }
    ensures changes { (path : Path) → (K.told → IsVacant client.now (K.view disk.old) path lookup.now)
        → Changes K.told (mounted_by client.now) (K.view disk.old) (K.view disk.new) (ask.MakeDir path) result }
{
    let directory = &lookup.directory;
    match check_entry(&directory.inode, lookup.name) {
        Ok(()) => {}
        Err(refusal) => return Err(refusal),
    }
    let inode = match new_directory(client, disk, directory.block) {
        Ok(inode) => inode,
        Err(refusal) => return Err(refusal),
    };
    match enter(client, disk, lookup, inode) {
        Ok(()) => Ok(()),
        Err(refusal) => Err(refusal),
    }
}

/// Makes a directory without entries at a path: a new inode, and then the entry, which decides.
#[tactic(none)]
pub fn make_dir<K: Blocks>(client: &Client, disk: &mut K, path: &Path) -> Result<(), FsRefusal>
    requires may { MayAsk K.told client.now (K.view disk.old) }
    /// promise (with changes): The answer is the tree's step, and every stop leaves the tree before or after.
    ensures answer { K.told → Answers (mounted_by client.now) (K.view disk.old) (K.view disk.new)
        (ask.MakeDir path.now) result (λ _ answer. answer ≡ done) }
    ensures changes { Changes K.told (mounted_by client.now) (K.view disk.old) (K.view disk.new) (ask.MakeDir path.now)
        result }
{
    let lookup = match look_up(client, disk, path, FsRefusal::Exists) {
        Ok(lookup) => lookup,
        Err(refusal) => return Err(refusal),
    };
    match lookup.old {
        Some(_taken) => return Err(FsRefusal::Exists),
        None => {}
    }
    match add_directory(client, disk, &lookup) {
        Ok(()) => Ok(()),
        Err(refusal) => Err(refusal),
    }
}
