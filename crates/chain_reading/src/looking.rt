//! Whether the directory and its files are right.
#![tactic(none)]

ghost use Rattle.std.specs.Prelude.{◌≡◌, ◌≤◌, ℕ, List, true, false, length, IfOk, IfErr, IsTrue};
ghost use Rattle.tsd_model.specs.World.{has_number};
ghost use Rattle.fs_trees.specs.Cluster.{bytes_room};
ghost use Rattle.fs_trees.specs.Tree.{is_there};
ghost use Rattle.fs_trees.specs.ChainTree.{chain_tree};
ghost use Rattle.fs_trees.specs.declared.refusal.FsRefusal.TheVariants as no;
ghost use Rattle.fs_port.specs.Calls.{IsValidNow};
ghost use Rattle.fs_port.specs.Files.{IsClientReady};
ghost use Rattle.fs_client.specs.May.{MayWrite, OnlyLooks};
ghost use Rattle.fs_client.specs.Marked.{Agrees};
ghost use Rattle.chain_layout.specs.Block.{cluster_of, block_len_of};
ghost use Rattle.chain_layout.specs.Held.{part_cluster, entries_in, blocks_in};
ghost use Rattle.chain_layout.specs.Listed.{entry_blocks, next_blocks};
ghost use Rattle.chain_reading.specs.Asking.{mounted_by};
ghost use Rattle.chain_reading.specs.Looking.{is_part_filled, file_from, files_from, directory_from, Comes};
ghost use Rattle.chain_reading.specs.Looking.{IsPartSeenAt, IsPageSeenAt};

use crate::comparing::are_names_distinct;
use crate::walking::{Page, Part, page_at, part_at};
use chain_layout::{DirectoryCluster, FileCluster};
use fs_client::{BlockSet, Client, is_held};
use fs_port::Blocks;
use fs_trees::FsRefusal;

/// How many names a directory has at most.
pub const NAMES_MAX: usize = 4096;

// ---- files

/// Whether a cluster of a file has as many bytes as it has to: it is full where another one follows, and none is empty
/// but the first.
#[tactic(auto)]
fn is_filled(cluster: &FileCluster, is_first: bool) -> bool
    ensures filled { result ≡ is_part_filled (bytes_room (block_len_of (part_cluster cluster.now))) is_first
        (cluster_of (part_cluster cluster.now)) }
    ensures fits { (cluster_of (part_cluster cluster.now)).used ≤ bytes_room (block_len_of (part_cluster cluster.now)) }
{
    let is_empty = cluster.bytes().is_empty();
    let is_last = cluster.cluster().next().is_none();
    (is_first || !is_empty) && (is_last || cluster.is_full())
}

/// How many blocks a cluster of a file names.
#[tactic(auto)]
fn count_of(cluster: &FileCluster) -> usize
    ensures { result ≡ length (next_blocks (cluster_of (part_cluster cluster.now)).next) }
{
    if cluster.cluster().next().is_some() {
        1
    } else {
        0
    }
}

/// The cluster of a file in a block, where there is one that is right by itself: it has as many bytes as it has to, and
/// points to the next one.
fn look_at_part<K: Blocks>(
    client: &Client,
    disk: &mut K,
    block: u32,
    is_first: bool,
) -> Result<Option<Part>, FsRefusal>
    requires unspent { (K.view disk.old).spent ≡ false }
    requires valid { K.told → IsValidNow (K.view disk.old) }
    requires may { K.told → MayWrite client.now (K.view disk.old) block }
    ensures seen { K.told → IfOk result (IsPartSeenAt client.now (K.view disk.old) (K.view disk.new) is_first block) }
    ensures only { K.told → IfErr result (λ e. e ≡ no.Device) }
    ensures looks { OnlyLooks K.told (K.view disk.old) (K.view disk.new) result }
{
    let part = match part_at(client, disk, block) {
        Ok(Some(part)) => part,
        Ok(None) => return Ok(None),
        Err(refusal) => return Err(refusal),
    };
    if !is_filled(&part.cluster, is_first) {
        return Ok(None);
    }
    match is_held(client, disk, block, &part, count_of(&part.cluster)) {
        Ok(true) => Ok(Some(part)),
        Ok(false) => Ok(None),
        Err(refusal) => Err(refusal),
    }
}

/// Whether the chain from a block on is a file's, and has no block that was gone to before.
fn is_file_right<K: Blocks>(
    client: &Client,
    disk: &mut K,
    seen: &mut BlockSet,
    first: u32,
) -> Result<bool, FsRefusal>
    requires unspent { (K.view disk.old).spent ≡ false }
    requires valid { K.told → IsValidNow (K.view disk.old) }
    requires may { K.told → MayWrite client.now (K.view disk.old) first }
    ensures comes { K.told → IfOk result (λ right. (s : List ℕ) → Agrees seen.old s
        → Comes seen.new (file_from (K.view disk.old).world (K.view disk.old).world.geometry.blocks true first s)
        right) }
    ensures only { K.told → IfErr result (λ e. e ≡ no.Device) }
    ensures looks { OnlyLooks K.told (K.view disk.old) (K.view disk.new) result }
{
    let mut block = first;
    for position in 0..disk.geometry().blocks {
        if !seen.insert(block) {
            return Ok(false);
        }
        let part = match look_at_part(client, disk, block, position == 0) {
            Ok(Some(part)) => part,
            Ok(None) => return Ok(false),
            Err(refusal) => return Err(refusal),
        };
        match part.cluster.cluster().next() {
            Some(next) => block = next,
            None => return Ok(true),
        }
    }
    Ok(false)
}

/// Whether the files of a cluster's entries are right.
fn are_files_right<K: Blocks>(
    client: &Client,
    disk: &mut K,
    seen: &mut BlockSet,
    page: &DirectoryCluster,
) -> Result<bool, FsRefusal>
    requires unspent { (K.view disk.old).spent ≡ false }
    requires valid { K.told → IsValidNow (K.view disk.old) }
    requires may { K.told → (b : ℕ) → IsTrue (has_number (entry_blocks (entries_in page.now)) b)
        → MayWrite client.now (K.view disk.old) b }
    ensures comes { K.told → IfOk result (λ right. (s : List ℕ) → Agrees seen.old s
        → Comes seen.new (files_from (K.view disk.old).world (entry_blocks (entries_in page.now)) s) right) }
    ensures only { K.told → IfErr result (λ e. e ≡ no.Device) }
    ensures looks { OnlyLooks K.told (K.view disk.old) (K.view disk.new) result }
{
    for position in 0..page.count() {
        match is_file_right(client, disk, seen, page.block(position)) {
            Ok(true) => {}
            Ok(false) => return Ok(false),
            Err(refusal) => return Err(refusal),
        }
    }
    Ok(true)
}

// ---- the directory

/// How many blocks a cluster of the directory names.
#[tactic(auto)]
fn names_count(page: &DirectoryCluster) -> usize
    ensures { result ≡ length (blocks_in page.now) }
{
    if page.cluster().next().is_some() {
        page.count() + 1
    } else {
        page.count()
    }
}

/// The cluster of the directory in a block, where there is one that points to each block that it names, and names none
/// twice.
fn look_at_page<K: Blocks>(
    client: &Client,
    disk: &mut K,
    block: u32,
) -> Result<Option<Page>, FsRefusal>
    requires unspent { (K.view disk.old).spent ≡ false }
    requires valid { K.told → IsValidNow (K.view disk.old) }
    requires may { K.told → MayWrite client.now (K.view disk.old) block }
    ensures seen { K.told → IfOk result (IsPageSeenAt client.now (K.view disk.old) (K.view disk.new) block) }
    ensures only { K.told → IfErr result (λ e. e ≡ no.Device) }
    ensures looks { OnlyLooks K.told (K.view disk.old) (K.view disk.new) result }
{
    let page = match page_at(client, disk, block) {
        Ok(Some(page)) => page,
        Ok(None) => return Ok(None),
        Err(refusal) => return Err(refusal),
    };
    match is_held(client, disk, block, &page, names_count(&page.cluster)) {
        Ok(true) => Ok(Some(page)),
        Ok(false) => Ok(None),
        Err(refusal) => Err(refusal),
    }
}

/// Whether the clusters of the directory are right, with the files of their entries, and there are no more than 4,096.
fn is_directory_right<K: Blocks>(
    client: &Client,
    disk: &mut K,
    seen: &mut BlockSet,
) -> Result<bool, FsRefusal>
    requires unspent { (K.view disk.old).spent ≡ false }
    requires valid { K.told → IsValidNow (K.view disk.old) }
    requires may { K.told → MayWrite client.now (K.view disk.old) client.now.root }
    ensures comes { K.told → IfOk result (λ right. (s : List ℕ) → Agrees seen.old s
        → Comes seen.new (directory_from (K.view disk.old).world (K.view disk.old).world.geometry.blocks
        client.now.root 0 s) right) }
    ensures only { K.told → IfErr result (λ e. e ≡ no.Device) }
    ensures looks { OnlyLooks K.told (K.view disk.old) (K.view disk.new) result }
{
    let mut block = client.root;
    let mut count = 0;
    for position in 0..disk.geometry().blocks {
        if !seen.insert(block) {
            return Ok(false);
        }
        let page = match look_at_page(client, disk, block) {
            Ok(Some(page)) => page,
            Ok(None) => return Ok(false),
            Err(refusal) => return Err(refusal),
        };
        count += page.cluster.count();
        match are_files_right(client, disk, seen, &page.cluster) {
            Ok(true) => {}
            Ok(false) => return Ok(false),
            Err(refusal) => return Err(refusal),
        }
        match page.cluster.cluster().next() {
            Some(next) => block = next,
            None => return Ok(count <= NAMES_MAX),
        }
    }
    Ok(false)
}

/// Whether a tree of chains is under the client's root. Only a fault refuses it.
pub fn is_tree<K: Blocks>(
    client: &Client,
    disk: &mut K,
    seen: &mut BlockSet,
) -> Result<bool, FsRefusal>
    requires ready { IsClientReady (mounted_by client.now) (K.view disk.old) }
    requires valid { K.told → IsValidNow (K.view disk.old) }
    /// promise (with looks): Whether a tree of chains is there, exactly; no world is changed.
    ensures tells { K.told
        → IfOk result (λ right. right ≡ is_there (chain_tree (K.view disk.old).world client.now.root)) }
    ensures only { K.told → IfErr result (λ e. e ≡ no.Device) }
    ensures looks { OnlyLooks K.told (K.view disk.old) (K.view disk.new) result }
{
    seen.clear();
    match is_directory_right(client, disk, seen) {
        Ok(true) => are_names_distinct(client, disk),
        Ok(false) => Ok(false),
        Err(refusal) => Err(refusal),
    }
}
