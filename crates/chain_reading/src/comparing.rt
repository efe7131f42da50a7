//! Whether each name of the directory stands once.
#![tactic(none)]

ghost use Rattle.std.specs.Prelude.{◌≡◌, List, false, IfOk, IfErr};
ghost use Rattle.fs_trees.specs.Names.{are_distinct};
ghost use Rattle.fs_trees.specs.Fields.{entry_names};
ghost use Rattle.fs_trees.specs.ChainTree.{Link};
ghost use Rattle.fs_trees.specs.declared.refusal.FsRefusal.TheVariants as no;
ghost use Rattle.fs_laws.specs.Ways.{HoldsWrite};
ghost use Rattle.fs_port.specs.View.{state_of};
ghost use Rattle.fs_port.specs.Calls.{IsValidNow};
ghost use Rattle.fs_client.specs.May.{OnlyLooks};
ghost use Rattle.chain_layout.specs.Held.{entries_in};
ghost use Rattle.chain_reading.specs.Chained.{PlacedEntry};
ghost use Rattle.chain_reading.specs.Standing.{IsPage};
ghost use Rattle.chain_reading.specs.Finding.{placed_names};
ghost use Rattle.chain_reading.specs.Comparing.{ArePagesAhead, HasPages, are_apart_from, AreFirstDistinct};

use crate::walking::{Page, read_page};
use chain_layout::DirectoryCluster;
use fs_client::Client;
use fs_port::Blocks;
use fs_trees::FsRefusal;

/// Whether no name of a cluster stands in those of the directory from a block on.
fn is_apart_from<K: Blocks>(
    client: &Client,
    disk: &mut K,
    page: &DirectoryCluster,
    first: u32,
) -> Result<bool, FsRefusal>
    requires unspent { (K.view disk.old).spent ≡ false }
    requires valid { K.told → IsValidNow (K.view disk.old) }
    requires pages { K.told → HasPages client.now (K.view disk.old) first }
    ensures apart { K.told → (ls : List Link) (ps : List PlacedEntry) → ArePagesAhead client.now (K.view disk.old) first
        ls ps → IfOk result (λ apart. apart ≡ are_apart_from (entry_names (entries_in page.now)) (placed_names ps)) }
    ensures only { K.told → IfErr result (λ e. e ≡ no.Device) }
    ensures looks { OnlyLooks K.told (K.view disk.old) (K.view disk.new) result }
{
    let mut block = first;
    for position in 0..disk.geometry().blocks {
        let later = match read_page(client, disk, block) {
            Ok(later) => later,
            Err(refusal) => return Err(refusal),
        };
        if page.shares_a_name(&later.cluster) {
            return Ok(false);
        }
        match later.cluster.cluster().next() {
            Some(next) => block = next,
            None => return Ok(true),
        }
    }
    Err(FsRefusal::NotThisFs)
}

/// Whether each name of a cluster stands once in it, and in none behind it. None is read behind one without entries.
fn is_page_distinct<K: Blocks>(
    client: &Client,
    disk: &mut K,
    page: &Page,
) -> Result<bool, FsRefusal>
    requires unspent { (K.view disk.old).spent ≡ false }
    requires valid { K.told → IsValidNow (K.view disk.old) }
    requires pages { K.told → HasPages client.now (K.view disk.old) page.now.block }
    requires read { K.told → IsPage (K.view disk.old).world page.now.block page.now }
    requires held { K.told → HoldsWrite (state_of (K.view disk.old)) client.now.session page.now.block }
    ensures distinct { K.told → (ls : List Link) (ps : List PlacedEntry)
        → ArePagesAhead client.now (K.view disk.old) page.now.block ls ps
        → IfOk result (AreFirstDistinct (entry_names (entries_in page.now.cluster)) (placed_names ps)) }
    ensures only { K.told → IfErr result (λ e. e ≡ no.Device) }
    ensures looks { OnlyLooks K.told (K.view disk.old) (K.view disk.new) result }
{
    if page.cluster.count() == 0 {
        return Ok(true);
    }
    if !page.cluster.has_distinct_names() {
        return Ok(false);
    }
    match page.cluster.cluster().next() {
        Some(next) => is_apart_from(client, disk, &page.cluster, next),
        None => Ok(true),
    }
}

/// Whether each name of the directory stands once, where its clusters are right.
pub fn are_names_distinct<K: Blocks>(client: &Client, disk: &mut K) -> Result<bool, FsRefusal>
    requires unspent { (K.view disk.old).spent ≡ false }
    requires valid { K.told → IsValidNow (K.view disk.old) }
    requires pages { K.told → HasPages client.now (K.view disk.old) client.now.root }
    ensures distinct { K.told → (ls : List Link) (ps : List PlacedEntry)
        → ArePagesAhead client.now (K.view disk.old) client.now.root ls ps
        → IfOk result (λ distinct. distinct ≡ are_distinct (placed_names ps)) }
    ensures only { K.told → IfErr result (λ e. e ≡ no.Device) }
    ensures looks { OnlyLooks K.told (K.view disk.old) (K.view disk.new) result }
{
    let mut block = client.root;
    for position in 0..disk.geometry().blocks {
        let page = match read_page(client, disk, block) {
            Ok(page) => page,
            Err(refusal) => return Err(refusal),
        };
        match is_page_distinct(client, disk, &page) {
            Ok(true) => {}
            Ok(false) => return Ok(false),
            Err(refusal) => return Err(refusal),
        }
        match page.cluster.cluster().next() {
            Some(next) => block = next,
            None => return Ok(true),
        }
    }
    Err(FsRefusal::NotThisFs)
}
