//! The way to a file.

ghost use Rattle.std.specs.Prelude.{◌≡◌, ◌≢◌, List, false, None, Some, IfOk, IfErr, OnOk, []};
ghost use Rattle.fs_trees.specs.ChainTree.{Link};
ghost use Rattle.fs_trees.specs.declared.refusal.FsRefusal.TheVariants as no;
ghost use Rattle.fs_port.specs.Calls.{IsValidNow};
ghost use Rattle.fs_client.specs.May.{OnlyLooks};
ghost use Rattle.chain_reading.specs.Chained.{PlacedEntry};
ghost use Rattle.chain_reading.specs.Ahead.{IsDirectoryAhead, HasDirectory};
ghost use Rattle.chain_reading.specs.Asking.{MayAsk, tree_under};
ghost use Rattle.chain_reading.specs.Finding.{better, no_way, IsNameFound, IsLookupWithin, IsFileOf, no_file_found};
ghost use Rattle.chain_reading.specs.Finding.{no_directory_found};

use crate::walking::{Page, read_page};
use fs_client::Client;
use fs_port::Blocks;
use fs_trees::{FsRefusal, Name, Path};

/// The entry that a path speaks of.
#[derive(Drop)]
pub enum Lookup {
    /// It is there: its cluster, its position in that, and the file's first block.
    Taken {
        page: Page,
        position: usize,
        first: u32,
    },

    /// No entry has the name: the first cluster that has room, or the last one where none has, and how many entries
    /// there are.
    Free {
        page: Page,
        count: usize,
    },
}

/// The cluster to put a new entry in: the first one that has room, or the last.
fn better(page: Option<Page>, other: Page) -> Page
    ensures { result ≡ better page other }
{
    match page {
        Some(page) if page.cluster.has_room() => page,
        _ => other,
    }
}

/// Looks a name up in the directory, each cluster read once.
pub fn search<K: Blocks>(client: &Client, disk: &mut K, name: &Name) -> Result<Lookup, FsRefusal>
    requires unspent { (K.view disk.old).spent ≡ false }
    requires valid { K.told → IsValidNow (K.view disk.old) }
    requires directory { K.told → HasDirectory client.now (K.view disk.old) }
    /// promise (with within): Where a name stands, or where there is room for it.
    ensures found { K.told → (ls : List Link) (ps : List PlacedEntry) → IsDirectoryAhead client.now (K.view disk.old) ls
        ps → IfOk result (IsNameFound client.now (K.view disk.new) name.now ls ps) }
    ensures within { IfOk result IsLookupWithin }
    ensures only { K.told → IfErr result (λ e. e ≡ no.Device) }
    ensures looks { OnlyLooks K.told (K.view disk.old) (K.view disk.new) result }
{
    let mut best = None;
    let mut count = 0;
    let mut block = client.root;
    for turn in 0..disk.geometry().blocks {
        let page = match read_page(client, disk, block) {
            Ok(page) => page,
            Err(refusal) => return Err(refusal),
        };
        if let Some(position) = page.cluster.position(name.as_slice()) {
            let first = page.cluster.block(position);
            return Ok(Lookup::Taken {
                page,
                position,
                first,
            });
        }
        count += page.cluster.count();
        let next = page.cluster.cluster().next();
        let page = better(best, page);
        match next {
            Some(next) => {
                block = next;
                best = Some(page);
            }
            None => return Ok(Lookup::Free { page, count }),
        }
    }
    Err(FsRefusal::NotThisFs)
}

/// Why no way leads on from what stands at a name.
pub fn no_way(position: Lookup) -> FsRefusal
    ensures { result ≡ no_way position }
{
    match position {
        Lookup::Taken { .. } => FsRefusal::NotDir,
        Lookup::Free { .. } => FsRefusal::NoEntry,
    }
}

/// The first block of the file at a path.
pub fn find_file<K: Blocks>(client: &Client, disk: &mut K, path: &Path) -> Result<u32, FsRefusal>
    requires may { MayAsk K.told client.now (K.view disk.old) }
    ensures found { K.told → IfOk result (λ first. IsFileOf client.now (K.view disk.new) path.now first) }
    ensures none { K.told → OnOk result (no_file_found (tree_under client.now (K.view disk.old)) path.now ≡ None) }
    ensures refused { K.told → IfErr result (λ e. e ≢ no.Device
        → no_file_found (tree_under client.now (K.view disk.old)) path.now ≡ Some e) }
    ensures looks { OnlyLooks K.told (K.view disk.old) (K.view disk.new) result }
{
    match path.as_slice() {
        [] => Err(FsRefusal::IsDir),
        [name] => match search(client, disk, name) {
            Ok(Lookup::Taken { first, .. }) => Ok(first),
            Ok(Lookup::Free { .. }) => Err(FsRefusal::NoEntry),
            Err(refusal) => Err(refusal),
        },
        [name, _, ..] => match search(client, disk, name) {
            Ok(position) => Err(no_way(position)),
            Err(refusal) => Err(refusal),
        },
    }
}

/// Refuses a path that isn't that of the directory.
pub fn find_directory<K: Blocks>(
    client: &Client,
    disk: &mut K,
    path: &Path,
) -> Result<(), FsRefusal>
    requires may { MayAsk K.told client.now (K.view disk.old) }
    ensures found { K.told → OnOk result (path.now ≡ []) }
    ensures none { K.told → OnOk result (no_directory_found (tree_under client.now (K.view disk.old)) path.now ≡ None) }
    ensures refused { K.told → IfErr result (λ e. e ≢ no.Device
        → no_directory_found (tree_under client.now (K.view disk.old)) path.now ≡ Some e) }
    ensures looks { OnlyLooks K.told (K.view disk.old) (K.view disk.new) result }
{
    match path.as_slice() {
        [] => Ok(()),
        [name, ..] => match search(client, disk, name) {
            Ok(position) => Err(no_way(position)),
            Err(refusal) => Err(refusal),
        },
    }
}
