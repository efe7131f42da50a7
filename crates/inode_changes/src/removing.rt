//! Entries that are taken away.

ghost use Rattle.std.specs.Prelude.{◌≡◌, ◌&&◌, nat_lt, length};
ghost use Rattle.fs_trees.specs.Answer.{done};
ghost use Rattle.fs_trees.specs.declared.ask.ShellAsk.TheVariants as ask;
ghost use Rattle.fs_port.specs.Files.{Answers};
ghost use Rattle.inode_layout.specs.Block.{inode_of};
ghost use Rattle.inode_layout.specs.Said.{blocks_said, is_directory};
ghost use Rattle.fs_port.specs.Runs.{Changes};
ghost use Rattle.inode_walks.specs.Asking.{MayAsk, mounted_by};

use fs_client::{Client, drop_pointer, write_block};
use fs_port::Blocks;
use fs_trees::{FsRefusal, Path};
use inode_layout::{Inode, directory_without};
use inode_walks::{look_up, read_inode};

/// Whether it is a directory with entries.
fn has_entries(inode: &Inode) -> bool
    ensures { result ≡ (is_directory (inode_of inode.now) && nat_lt 0 (length (blocks_said (inode_of inode.now)))) }
{
    inode.is_directory() && inode.count() > 0
}

/// Takes away a file, or a directory without entries: the directory above is written without it, which decides, and
/// then lets go of it.
#[tactic(none)]
pub fn remove<K: Blocks>(client: &Client, disk: &mut K, path: &Path) -> Result<(), FsRefusal>
    requires may { MayAsk K.told client.now (K.view disk.old) }
    /// promise (with changes): The answer is the tree's step, and every stop leaves the tree before or after.
    ensures answer { K.told → Answers (mounted_by client.now) (K.view disk.old) (K.view disk.new) (ask.Rm path.now)
        result (λ _ answer. answer ≡ done) }
    ensures changes { Changes K.told (mounted_by client.now) (K.view disk.old) (K.view disk.new) (ask.Rm path.now)
        result }
{
    let lookup = match look_up(client, disk, path, FsRefusal::IsDir) {
        Ok(lookup) => lookup,
        Err(refusal) => return Err(refusal),
    };
    let block = match lookup.old {
        Some(block) => block,
        None => return Err(FsRefusal::NoEntry),
    };
    let old = match read_inode(client, disk, block) {
        Ok(old) => old,
        Err(refusal) => return Err(refusal),
    };
    if has_entries(&old.inode) {
        return Err(FsRefusal::NotEmpty);
    }
    let directory = &lookup.directory;
    let bytes = directory_without(&directory.inode, lookup.name);
    match write_block(client, disk, directory.block, bytes) {
        Ok(()) => {}
        Err(refusal) => return Err(refusal),
    }
    match drop_pointer(client, disk, directory.block, block) {
        Ok(_gone) => Ok(()),
        Err(refusal) => Err(refusal),
    }
}
