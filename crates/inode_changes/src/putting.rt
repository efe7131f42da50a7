//! Files that are put at a path.

ghost use Rattle.std.specs.Prelude.{◌≡◌, ◌≢◌, ◌≤◌, length, false, IsTrue, IfErr, OnOk};
ghost use Rattle.fs_trees.specs.Names.{Path, name_max};
ghost use Rattle.fs_trees.specs.Tree.{at, is_dir};
ghost use Rattle.fs_trees.specs.Answer.{done};
ghost use Rattle.fs_trees.specs.declared.ask.ShellAsk.TheVariants as ask;
ghost use Rattle.fs_trees.specs.declared.refusal.FsRefusal.TheVariants as no;
ghost use Rattle.fs_port.specs.Calls.{IsValidNow};
ghost use Rattle.fs_port.specs.Files.{Answers};
ghost use Rattle.fs_client.specs.May.{OnlyLooks};
ghost use Rattle.fs_port.specs.Runs.{Changes};
ghost use Rattle.inode_layout.specs.Block.{inode_of};
ghost use Rattle.inode_layout.specs.Said.{is_directory};
ghost use Rattle.inode_walks.specs.Asking.{MayAsk, mounted_by, tree_under};
ghost use Rattle.inode_walks.specs.Finding.{IsLookup};
ghost use Rattle.inode_changes.specs.Putting.{PutsFile, IsOf};

use crate::content::Content;
use crate::entering::{check_entry, enter};
use crate::new_file::make_file;
use crate::sizes::is_too_big;
use fs_client::Client;
use fs_port::Blocks;
use fs_trees::{FsRefusal, Path};
use inode_walks::{Lookup, look_up, read_inode};
use tsd_model::Data;

/// Refuses a directory that stands where a file is to be put.
#[tactic(none)]
fn check_old<K: Blocks>(client: &Client, disk: &mut K, lookup: &Lookup<'_>) -> Result<(), FsRefusal>
    requires unspent { (K.view disk.old).spent ≡ false }
    requires valid { K.told → IsValidNow (K.view disk.old) }
    requires dir { IsTrue (is_directory (inode_of lookup.now.directory.inode)) }
    requires found { K.told → (path : Path) × IsLookup client.now (K.view disk.old) path lookup.now }
    ensures no_dir { K.told → OnOk result ((path : Path) → IsLookup client.now (K.view disk.old) path lookup.now
        → is_dir (at (tree_under client.now (K.view disk.old)) path) ≡ false) }
    ensures only { K.told → IfErr result (λ e. e ≢ no.Device → e ≡ no.IsDir) }
    ensures is_dir { K.told → IfErr result (λ e. e ≢ no.Device → (path : Path)
        → IsLookup client.now (K.view disk.old) path lookup.now
        → IsTrue (is_dir (at (tree_under client.now (K.view disk.old)) path))) }
    ensures looks { OnlyLooks K.told (K.view disk.old) (K.view disk.new) result }
{
    let block = match lookup.old {
        Some(block) => block,
        None => return Ok(()),
    };
    let old = match read_inode(client, disk, block) {
        Ok(old) => old,
        Err(refusal) => return Err(refusal),
    };
    if old.inode.is_directory() {
        return Err(FsRefusal::IsDir);
    }
    Ok(())
}

/// What a file of these bytes is made of: it shares nothing.
fn whole(bytes: &Data, block_len: usize) -> Content<'_>
    ensures { IsOf bytes.now block_len result }
{
    Content {
        size: bytes.len() as u32,
        shared: &[],
        front: &[],
        bytes: bytes.as_slice(),
        block_len,
    }
}

/// Makes a file of these bytes and enters it where a lookup found no directory.
#[tactic(none)]
fn store<K: Blocks>(
    client: &Client,
    disk: &mut K,
    lookup: &Lookup<'_>,
    bytes: &Data,
) -> Result<(), FsRefusal>
    requires unspent { (K.view disk.old).spent ≡ false }
    requires valid { K.told → IsValidNow (K.view disk.old) }
    requires dir { IsTrue (is_directory (inode_of lookup.now.directory.inode)) }
    requires short { length lookup.now.name.now ≤ name_max }
    requires puts { K.told → (path : Path) × PutsFile client.now (K.view disk.old) path lookup.now }
    ensures answer { K.told → (path : Path) → PutsFile client.now (K.view disk.old) path lookup.now
        → Answers (mounted_by client.now) (K.view disk.old) (K.view disk.new) (ask.Put path bytes.now) result
        (λ _ answer. answer ≡ done) }
    ensures changes { (path : Path) → (K.told → PutsFile client.now (K.view disk.old) path lookup.now)
        → Changes K.told (mounted_by client.now) (K.view disk.old) (K.view disk.new) (ask.Put path bytes.now) result }
{
    let directory = &lookup.directory;
    match check_entry(&directory.inode, lookup.name) {
        Ok(()) => {}
        Err(refusal) => return Err(refusal),
    }
    let block_len = directory.inode.block_len();
    if is_too_big(bytes.len() as u64, block_len) {
        return Err(FsRefusal::TooBig);
    }
    let content = whole(bytes, block_len);
    let inode = match make_file(client, disk, directory.block, &content) {
        Ok(inode) => inode,
        Err(refusal) => return Err(refusal),
    };
    match enter(client, disk, lookup, inode) {
        Ok(()) => Ok(()),
        Err(refusal) => Err(refusal),
    }
}

/// Makes a file of these bytes at a path, in place of the old one.
#[tactic(none)]
pub fn put<K: Blocks>(
    client: &Client,
    disk: &mut K,
    path: &Path,
    bytes: &Data,
) -> Result<(), FsRefusal>
    requires may { MayAsk K.told client.now (K.view disk.old) }
    /// promise (with changes): The answer is the tree's step, and every stop leaves the tree before or after.
    ensures answer { K.told → Answers (mounted_by client.now) (K.view disk.old) (K.view disk.new)
        (ask.Put path.now bytes.now) result (λ _ answer. answer ≡ done) }
    ensures changes { Changes K.told (mounted_by client.now) (K.view disk.old) (K.view disk.new)
        (ask.Put path.now bytes.now) result }
{
    let lookup = match look_up(client, disk, path, FsRefusal::IsDir) {
        Ok(lookup) => lookup,
        Err(refusal) => return Err(refusal),
    };
    match check_old(client, disk, &lookup) {
        Ok(()) => {}
        Err(refusal) => return Err(refusal),
    }
    match store(client, disk, &lookup, bytes) {
        Ok(()) => Ok(()),
        Err(refusal) => Err(refusal),
    }
}
