//! Whether there is a tree under the root, and what else hangs there.
#![tactic(none)]

ghost use Rattle.std.specs.Prelude.{◌≡◌, ℕ, false, IfOk, IfErr, OnOk, IsTrue};
ghost use Rattle.tsd_model.specs.World.{has_number};
ghost use Rattle.fs_trees.specs.declared.refusal.FsRefusal.TheVariants as no;
ghost use Rattle.fs_port.specs.Calls.{IsValidNow};
ghost use Rattle.fs_port.specs.Files.{IsClientReady};
ghost use Rattle.fs_client.specs.May.{MayWrite, OnlyLooks};
ghost use Rattle.inode_layout.specs.Block.{inode_of};
ghost use Rattle.inode_layout.specs.Said.{blocks_said, is_directory};
ghost use Rattle.inode_walks.specs.Asking.{mounted_by};
ghost use Rattle.inode_fs.specs.Looking.{IsMarkedAs, Come, Comes, IsSeenAt, Noted, TellsTree, come_as, come_data};
ghost use Rattle.inode_fs.specs.Looking.{NamesData, IsReadAt};

use crate::marks::Marks;
use fs_client::{Client, NoNames, count_pairs};
use fs_port::Blocks;
use fs_trees::FsRefusal;
use fs_trees::name::PATH_MAX;
use inode_layout::Inode;
use inode_walks::Found;
use tsd_model::Data;

/// A path has at most 16 names, and so a tree 17 levels.
const LEVELS: usize = PATH_MAX + 1;

/// An inode that is right by itself: it points to each block that it names.
#[derive(Drop)]
pub struct Seen {
    /// What was read.
    pub found: Found,

    /// Whether its pairs lead to more.
    pub has_others: bool,
}

/// The inode in the bytes of a block, where it is one.
fn inode_in(block: u32, bytes: Data) -> Option<Found>
    ensures { IsReadAt bytes block result }
{
    match Inode::parse(bytes) {
        Some(inode) => {
            if inode.is_in_order() {
                Some(Found { block, inode })
            } else {
                None
            }
        }
        None => None,
    }
}

/// The inode in a block, where it is one and points to each block that it names.
fn look_at<K: Blocks>(client: &Client, disk: &mut K, block: u32) -> Result<Option<Seen>, FsRefusal>
    requires unspent { (K.view disk.old).spent ≡ false }
    requires valid { K.told → IsValidNow (K.view disk.old) }
    requires may { K.told → MayWrite client.now (K.view disk.old) block }
    ensures seen { K.told → IfOk result (IsSeenAt client.now (K.view disk.old) (K.view disk.new) block) }
    ensures only { K.told → IfErr result (λ e. e ≡ no.Device) }
    ensures looks { OnlyLooks K.told (K.view disk.old) (K.view disk.new) result }
{
    let bytes = match client.look(disk, block) {
        Ok(bytes) => bytes,
        Err(refusal) => return Err(refusal),
    };
    let found = match inode_in(block, bytes) {
        Some(found) => found,
        None => return Ok(None),
    };
    let count = match count_pairs(client, disk, block, &found) {
        Ok(count) => count,
        Err(refusal) => return Err(refusal),
    };
    if count.named != found.inode.count() {
        return Ok(None);
    }
    Ok(Some(Seen {
        found,
        has_others: count.others > 0,
    }))
}

/// Marks a block of a file's bytes that isn't marked as an inode; where it wasn't marked yet and has pairs, they are
/// left over.
fn see_data_block<K: Blocks>(
    client: &Client,
    disk: &mut K,
    marks: &mut Marks,
    block: u32,
) -> Result<(), FsRefusal>
    requires unspent { (K.view disk.old).spent ≡ false }
    requires valid { K.told → IsValidNow (K.view disk.old) }
    requires may { K.told → MayWrite client.now (K.view disk.old) block }
    requires noted { K.told → Noted client.now (K.view disk.old) marks.old }
    ensures marked { K.told → OnOk result (NamesData marks.old marks.new block) }
    ensures noted { K.told → OnOk result (Noted client.now (K.view disk.new) marks.new) }
    ensures only { K.told → IfErr result (λ e. e ≡ no.Device) }
    ensures looks { OnlyLooks K.told (K.view disk.old) (K.view disk.new) result }
{
    if marks.is_data_block(block) {
        return Ok(());
    }
    match count_pairs(client, disk, block, &NoNames) {
        Ok(count) => {
            marks.mark_data_block(block, count.others > 0);
            Ok(())
        }
        Err(refusal) => Err(refusal),
    }
}

/// Whether no block of a file's bytes is an inode, as far as they are marked.
fn is_file_right<K: Blocks>(
    client: &Client,
    disk: &mut K,
    marks: &mut Marks,
    file: &Found,
) -> Result<bool, FsRefusal>
    requires unspent { (K.view disk.old).spent ≡ false }
    requires valid { K.told → IsValidNow (K.view disk.old) }
    requires may { K.told → (b : ℕ) → IsTrue (has_number (blocks_said (inode_of file.now.inode)) b)
        → MayWrite client.now (K.view disk.old) b }
    requires noted { K.told → Noted client.now (K.view disk.old) marks.old }
    ensures comes { K.told → IfOk result (λ right. (s : Come) → IsMarkedAs marks.old s
        → Comes marks.new (come_data (blocks_said (inode_of file.now.inode)) s) right) }
    ensures noted { K.told → OnOk result (Noted client.now (K.view disk.new) marks.new) }
    ensures only { K.told → IfErr result (λ e. e ≡ no.Device) }
    ensures looks { OnlyLooks K.told (K.view disk.old) (K.view disk.new) result }
{
    for position in 0..file.inode.count() {
        let block = file.inode.named(position);
        if marks.is_inode(block) {
            return Ok(false);
        }
        match see_data_block(client, disk, marks, block) {
            Ok(()) => {}
            Err(refusal) => return Err(refusal),
        }
    }
    Ok(true)
}

/// Whether the inode in a block is right, and all under it, with so many levels. Only an entry may be a file.
fn is_right<K: Blocks>(
    client: &Client,
    disk: &mut K,
    marks: &mut Marks,
    block: u32,
    levels: usize,
    is_entry: bool,
) -> Result<bool, FsRefusal>
    requires unspent { (K.view disk.old).spent ≡ false }
    requires valid { K.told → IsValidNow (K.view disk.old) }
    requires may { K.told → MayWrite client.now (K.view disk.old) block }
    requires noted { K.told → Noted client.now (K.view disk.old) marks.old }
    ensures comes { K.told → IfOk result (λ right. (s : Come) → IsMarkedAs marks.old s
        → Comes marks.new (come_as is_entry (K.view disk.old).world levels block s) right) }
    ensures noted { K.told → OnOk result (Noted client.now (K.view disk.new) marks.new) }
    ensures only { K.told → IfErr result (λ e. e ≡ no.Device) }
    ensures looks { OnlyLooks K.told (K.view disk.old) (K.view disk.new) result }
{
    if levels == 0 || marks.is_inode(block) || marks.is_data_block(block) {
        return Ok(false);
    }
    let seen = match look_at(client, disk, block) {
        Ok(Some(seen)) => seen,
        Ok(None) => return Ok(false),
        Err(refusal) => return Err(refusal),
    };
    marks.mark_inode(block, seen.has_others);
    if !seen.found.inode.is_directory() {
        if !is_entry {
            return Ok(false);
        }
        return is_file_right(client, disk, marks, &seen.found);
    }
    for position in 0..seen.found.inode.count() {
        match is_right(
            client,
            disk,
            marks,
            seen.found.inode.named(position),
            levels - 1,
            true,
        ) {
            Ok(true) => {}
            Ok(false) => return Ok(false),
            Err(refusal) => return Err(refusal),
        }
    }
    Ok(true)
}

/// Whether there is a tree under the root; where there is, all that it names is marked.
pub fn is_tree<K: Blocks>(
    client: &Client,
    disk: &mut K,
    marks: &mut Marks,
) -> Result<bool, FsRefusal>
    requires ready { IsClientReady (mounted_by client.now) (K.view disk.old) }
    requires valid { K.told → IsValidNow (K.view disk.old) }
    ensures tells { K.told → IfOk result (TellsTree (K.view disk.old).world client.now.root marks.new) }
    ensures noted { K.told → OnOk result (Noted client.now (K.view disk.new) marks.new) }
    ensures only { K.told → IfErr result (λ e. e ≡ no.Device) }
    ensures looks { OnlyLooks K.told (K.view disk.old) (K.view disk.new) result }
{
    marks.clear();
    match is_right(client, disk, marks, client.root, LEVELS, false) {
        Ok(right) => Ok(right),
        Err(refusal) => Err(refusal),
    }
}
