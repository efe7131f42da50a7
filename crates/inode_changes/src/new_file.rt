//! New files that no directory names yet.

ghost use Rattle.std.specs.Prelude.{◌≡◌, ◌≢◌, ◌+◌, ℕ, false, None, Some, IfOk, IfErr, OnOk};
ghost use Rattle.fs_trees.specs.Tree.{a_file};
ghost use Rattle.fs_trees.specs.Needs.{need};
ghost use Rattle.fs_trees.specs.declared.refusal.FsRefusal.TheVariants as no;
ghost use Rattle.fs_port.specs.Calls.{IsValidNow};
ghost use Rattle.fs_port.specs.Files.{KeepsRoom};
ghost use Rattle.fs_client.specs.May.{MayWrite};
ghost use Rattle.fs_client.specs.Steps.{no_room_in};
ghost use Rattle.fs_port.specs.Runs.{Runs};
ghost use Rattle.inode_changes.specs.Content.{shared_of, new_count, all_count, FitsInode, IsFor};
ghost use Rattle.inode_changes.specs.Filling.{Stage, IsAside};
ghost use Rattle.inode_changes.specs.Entering.{AreOfFiles, IsMadeInode};
ghost use Rattle.inode_changes.specs.NewFile.{bytes_of};

use crate::beginning::{give_up, new_inode};
use crate::content::Content;
use crate::filling::fill;
use fs_client::{Client, check_free};
use fs_port::Blocks;
use fs_trees::FsRefusal;

/// Makes a file of this content in a new inode of a directory, which doesn't name it yet. Want of room refuses it, by
/// the numbers before it, and then nothing is left of it.
#[tactic(none)]
pub fn make_file<K: Blocks>(
    client: &Client,
    disk: &mut K,
    directory: u32,
    content: &Content<'_>,
) -> Result<u32, FsRefusal>
    requires unspent { (K.view disk.old).spent ≡ false }
    requires valid { K.told → IsValidNow (K.view disk.old) }
    requires stage { K.told → Stage client.now.root (K.view disk.old).world directory }
    requires may { K.told → MayWrite client.now (K.view disk.old) directory }
    requires room { FitsInode content.now }
    requires suits { K.told → IsFor client.now (K.view disk.old) content.now }
    requires of_files { K.told → AreOfFiles client.now.root (K.view disk.old).world (shared_of content.now) }
    /// promise (with keeps, full, same): A new file that nothing names yet; where there is no room the world is as it
    /// was.
    ensures made { K.told → IfOk result (λ inode. IsMadeInode client.now.root (K.view disk.old).world directory inode
        (a_file (bytes_of (K.view disk.old).world content.now)) (K.view disk.new).world) }
    ensures may { K.told → OnOk result ((b : ℕ) → MayWrite client.now (K.view disk.old) b
        → MayWrite client.now (K.view disk.new) b) }
    ensures room { K.told → OnOk result (no_room_in (K.view disk.old).world (1 + new_count content.now)
        (1 + all_count content.now) ≡ None) }
    ensures keeps { K.told → OnOk result (KeepsRoom (need (1 + new_count content.now) (1 + all_count content.now))
        (K.view disk.old).world (K.view disk.new).world) }
    ensures full { K.told → IfErr result (λ e. e ≢ no.Device
        → no_room_in (K.view disk.old).world (1 + new_count content.now) (1 + all_count content.now) ≡ Some e) }
    ensures same { K.told → IfErr result (λ e. e ≢ no.Device → (K.view disk.new).world
        ≡ (K.view disk.old).world) }
    ensures runs { Runs K.told (K.view disk.old) (K.view disk.new) (IsAside client.now.root (K.view disk.old).world)
        result }
{
    match check_free(disk, 1 + content.new_count()) {
        Ok(()) => {}
        Err(refusal) => return Err(refusal),
    }
    let inode = match new_inode(client, disk, directory) {
        Ok(inode) => inode,
        Err(refusal) => return Err(refusal),
    };
    let refusal = match fill(client, disk, inode, content) {
        Ok(()) => return Ok(inode),
        Err(refusal) => refusal,
    };
    match refusal {
        FsRefusal::Device => Err(FsRefusal::Device),
        _ => Err(give_up(client, disk, directory, inode, refusal)),
    }
}
