//! Copies of files.

ghost use Rattle.std.specs.Prelude.{◌≡◌, ◌≤◌, length, false, IsTrue};
ghost use Rattle.fs_trees.specs.Names.{Path, name_max};
ghost use Rattle.fs_trees.specs.Answer.{done};
ghost use Rattle.fs_trees.specs.declared.ask.ShellAsk.TheVariants as ask;
ghost use Rattle.fs_port.specs.Calls.{IsValidNow};
ghost use Rattle.fs_port.specs.Files.{Answers};
ghost use Rattle.fs_port.specs.Runs.{Changes};
ghost use Rattle.inode_layout.specs.Block.{inode_of};
ghost use Rattle.inode_layout.specs.Said.{is_directory};
ghost use Rattle.inode_walks.specs.Asking.{MayAsk, mounted_by};
ghost use Rattle.inode_changes.specs.Entering.{DirectoryHasRoom};
ghost use Rattle.inode_changes.specs.Copying.{Copies, IsCopied};

use crate::content::Content;
use crate::entering::{check_entry, enter};
use crate::new_file::make_file;
use fs_client::Client;
use fs_fields::NUMBER_BYTES;
use fs_port::Blocks;
use fs_trees::{FsRefusal, Path};
use inode_layout::Inode;
use inode_walks::{Found, Lookup, find_file, look_up};

/// What a copy of a file is made of: all its blocks, which it shares.
fn shared_whole(inode: &Inode) -> Content<'_>
    requires { is_directory (inode_of inode.now) ≡ false }
    ensures whole { IsCopied inode.now result }
    ensures fits { result.block_len ≤ 4096 }
{
    Content {
        size: inode.amount(),
        shared: &inode.body()[..NUMBER_BYTES * inode.count()],
        front: &[],
        bytes: &[],
        block_len: inode.block_len(),
    }
}

/// Makes a new file at a lookup: its inode shares the blocks of another.
#[tactic(none)]
fn copy_to<K: Blocks>(
    client: &Client,
    disk: &mut K,
    file: &Found,
    lookup: &Lookup<'_>,
) -> Result<(), FsRefusal>
    requires unspent { (K.view disk.old).spent ≡ false }
    requires valid { K.told → IsValidNow (K.view disk.old) }
    requires is_file { is_directory (inode_of file.now.inode) ≡ false }
    requires dir { IsTrue (is_directory (inode_of lookup.now.directory.inode)) }
    requires short { length lookup.now.name.now ≤ name_max }
    requires room { DirectoryHasRoom lookup.now.directory.inode lookup.now.name.now }
    requires copies { K.told → (path : Path) × (new : Path) × Copies client.now (K.view disk.old) path file.now new
        lookup.now }
    ensures answer { K.told → (path new : Path) → Copies client.now (K.view disk.old) path file.now new lookup.now
        → Answers (mounted_by client.now) (K.view disk.old) (K.view disk.new) (ask.Copy path new) result
        (λ _ answer. answer ≡ done) }
    ensures changes { (path new : Path) → (K.told → Copies client.now (K.view disk.old) path file.now new lookup.now)
        → Changes K.told (mounted_by client.now) (K.view disk.old) (K.view disk.new) (ask.Copy path new) result }
{
    let content = shared_whole(&file.inode);
    let new = match make_file(client, disk, lookup.directory.block, &content) {
        Ok(new) => new,
        Err(refusal) => return Err(refusal),
    };
    match enter(client, disk, lookup, new) {
        Ok(()) => Ok(()),
        Err(refusal) => Err(refusal),
    }
}

/// Makes a new file of the bytes of another, at a path where nothing stands. The two change apart afterwards.
#[tactic(none)]
pub fn copy<K: Blocks>(
    client: &Client,
    disk: &mut K,
    path: &Path,
    new: &Path,
) -> Result<(), FsRefusal>
    requires may { MayAsk K.told client.now (K.view disk.old) }
    /// promise (with changes): The answer is the tree's step, and every stop leaves the tree before or after.
    ensures answer { K.told → Answers (mounted_by client.now) (K.view disk.old) (K.view disk.new)
        (ask.Copy path.now new.now) result (λ _ answer. answer ≡ done) }
    ensures changes { Changes K.told (mounted_by client.now) (K.view disk.old) (K.view disk.new)
        (ask.Copy path.now new.now) result }
{
    let file = match find_file(client, disk, path) {
        Ok(file) => file,
        Err(refusal) => return Err(refusal),
    };
    let lookup = match look_up(client, disk, new, FsRefusal::Exists) {
        Ok(lookup) => lookup,
        Err(refusal) => return Err(refusal),
    };
    match lookup.old {
        Some(_taken) => return Err(FsRefusal::Exists),
        None => {}
    }
    match check_entry(&lookup.directory.inode, lookup.name) {
        Ok(()) => {}
        Err(refusal) => return Err(refusal),
    }
    copy_to(client, disk, &file, &lookup)
}
