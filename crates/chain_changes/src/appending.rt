//! Files that get longer.

ghost use Rattle.std.specs.Prelude.{◌≡◌, ◌≢◌, ◌≤◌, ◌<◌, ◌-◌, min, take, drop, List, []};
ghost use Rattle.std.specs.Prelude.{length, false, None, Some, IfOk, IfErr, OnOk};
ghost use Rattle.tsd_model.specs.Geometry.{block_len};
ghost use Rattle.fs_trees.specs.Answer.{done};
ghost use Rattle.fs_trees.specs.Names.{Path};
ghost use Rattle.fs_trees.specs.Cluster.{bytes_room};
ghost use Rattle.fs_trees.specs.ChainTree.{Link};
ghost use Rattle.fs_trees.specs.declared.ask.ShellAsk.TheVariants as ask;
ghost use Rattle.fs_trees.specs.declared.refusal.FsRefusal.TheVariants as no;
ghost use Rattle.fs_port.specs.Calls.{IsValidNow};
ghost use Rattle.fs_port.specs.Files.{Answers};
ghost use Rattle.fs_client.specs.May.{MayWrite, OnlyLooks};
ghost use Rattle.fs_client.specs.Steps.{no_room_in};
ghost use Rattle.fs_port.specs.Runs.{Changes, Runs};
ghost use Rattle.chain_reading.specs.Ahead.{IsFileAhead, HasFile};
ghost use Rattle.chain_reading.specs.Asking.{MayAsk, mounted_by};
ghost use Rattle.chain_changes.specs.Making.{Stage, IsAside};
ghost use Rattle.tsd_model.specs.Placing.{first_block};
ghost use Rattle.chain_changes.specs.Filling.{AreLinkable};
ghost use Rattle.chain_layout.specs.Block.{block_len_of};
ghost use Rattle.chain_layout.specs.Held.{part_cluster, part_in};
ghost use Rattle.chain_changes.specs.Growing.{IsLastCluster, IsLastOf, clusters_more, NewTail};

use crate::blocks::new_chain;
use crate::bytes::write_chain;
use chain_layout::{bytes_room, file_part};
use chain_reading::{Part, find_file, read_part};
use fs_client::{Client, write_block};
use fs_port::Blocks;
use fs_trees::{FsRefusal, Path};
use tsd_model::{BlockList, Data};

/// The last cluster of the chain that begins at a block.
fn last_part<K: Blocks>(client: &Client, disk: &mut K, first: u32) -> Result<Part, FsRefusal>
    requires unspent { (K.view disk.old).spent ≡ false }
    requires valid { K.told → IsValidNow (K.view disk.old) }
    requires file { K.told → HasFile client.now (K.view disk.old) first }
    ensures last { K.told → (ls : List Link) → IsFileAhead client.now (K.view disk.old) first ls
        → IfOk result (IsLastCluster client.now (K.view disk.new) ls) }
    ensures only { K.told → IfErr result (λ e. e ≡ no.Device) }
    ensures looks { OnlyLooks K.told (K.view disk.old) (K.view disk.new) result }
{
    let mut block = first;
    for position in 0..disk.geometry().blocks {
        let part = match read_part(client, disk, block) {
            Ok(part) => part,
            Err(refusal) => return Err(refusal),
        };
        match part.cluster.cluster().next() {
            Some(next) => block = next,
            None => return Ok(part),
        }
    }
    Err(FsRefusal::NotThisFs)
}

/// Makes the further clusters of a file in new blocks under its last one. Want of room refuses them, and then nothing
/// is left of them.
#[tactic(none)]
fn new_tail<K: Blocks>(
    client: &Client,
    disk: &mut K,
    source: u32,
    bytes: &[u8],
    len: usize,
) -> Result<BlockList, FsRefusal>
    requires unspent { (K.view disk.old).spent ≡ false }
    requires valid { K.told → IsValidNow (K.view disk.old) }
    requires may { K.told → MayWrite client.now (K.view disk.old) source }
    requires stage { K.told → Stage client.now.root (K.view disk.old).world source }
    requires len { K.told → len ≡ block_len (K.view disk.old).world.geometry }
    requires head { 16 < len }
    requires few { len ≤ 4096 }
    requires small { length bytes.now ≤ 4096 }
    ensures made { K.told → IfOk result (NewTail client.now (K.view disk.old) (K.view disk.new) source bytes.now) }
    ensures linkable { IfOk result (λ blocks. AreLinkable blocks) }
    ensures room { K.told → OnOk result (no_room_in (K.view disk.old).world (clusters_more len bytes.now)
        (clusters_more len bytes.now) ≡ None) }
    ensures full { K.told → IfErr result (λ e. e ≢ no.Device
        → no_room_in (K.view disk.old).world (clusters_more len bytes.now) (clusters_more len bytes.now) ≡ Some e) }
    ensures same { K.told → IfErr result (λ e. e ≢ no.Device → (K.view disk.new).world
        ≡ (K.view disk.old).world) }
    ensures runs { Runs K.told (K.view disk.old) (K.view disk.new) (IsAside client.now.root (K.view disk.old).world)
        result }
{
    let count = bytes.len().div_ceil(bytes_room(len));
    let blocks = match new_chain(client, disk, source, count as u32) {
        Ok(blocks) => blocks,
        Err(refusal) => return Err(refusal),
    };
    match write_chain(client, disk, blocks.as_slice(), bytes, len) {
        Ok(()) => Ok(blocks),
        Err(refusal) => Err(refusal),
    }
}

/// How many bytes more a cluster takes.
fn room_left(part: &Part) -> usize
    ensures { result ≡ bytes_room (block_len_of (part_cluster part.now.cluster)) - length (part_in part.now.cluster) }
{
    bytes_room(part.cluster.cluster().block_len()) - part.cluster.bytes().len()
}

/// The first bytes, so many or all, and the others.
fn parts(bytes: &[u8], count: usize) -> (&[u8], &[u8])
    ensures here { result.0.now ≡ take (min count (length bytes.now)) bytes.now }
    ensures rest { result.1.now ≡ drop (min count (length bytes.now)) bytes.now }
    ensures few { length result.0.now ≤ count }
    ensures fewer { length result.1.now ≤ length bytes.now }
{
    let taken = count.min(bytes.len());
    (&bytes[..taken], &bytes[taken..])
}

/// The first of blocks, where there is one.
fn first_block(blocks: &[u32]) -> Option<u32>
    ensures { result ≡ first_block blocks.now }
{
    match blocks {
        [] => None,
        [block, ..] => Some(*block),
    }
}

/// Adds some bytes behind a file's last cluster: as many as it has room for in that, and the others in new clusters.
/// The write of the last one decides.
#[tactic(none)]
fn grow<K: Blocks>(
    client: &Client,
    disk: &mut K,
    last: &Part,
    bytes: &[u8],
) -> Result<(), FsRefusal>
    requires may { MayAsk K.told client.now (K.view disk.old) }
    requires last { K.told → (path : Path) × IsLastOf client.now (K.view disk.old) path last.now }
    requires some { 0 < length bytes.now }
    requires small { length bytes.now ≤ 4096 }
    ensures answer { K.told → (path : Path) → IsLastOf client.now (K.view disk.old) path last.now
        → Answers (mounted_by client.now) (K.view disk.old) (K.view disk.new) (ask.Append path bytes.now) result
        (λ _ answer. answer ≡ done) }
    ensures changes { (path : Path) → (K.told → IsLastOf client.now (K.view disk.old) path last.now)
        → Changes K.told (mounted_by client.now) (K.view disk.old) (K.view disk.new) (ask.Append path bytes.now)
        result }
{
    let len = last.cluster.cluster().block_len();
    if bytes_room(len) == 0 {
        return Err(FsRefusal::NotThisFs);
    }
    let (here, rest) = parts(bytes, room_left(last));
    let blocks = match new_tail(client, disk, last.block, rest, len) {
        Ok(blocks) => blocks,
        Err(refusal) => return Err(refusal),
    };
    let next = first_block(blocks.as_slice());
    let part = file_part(next, last.cluster.bytes(), here);
    match write_block(client, disk, last.block, part) {
        Ok(()) => Ok(()),
        Err(refusal) => Err(refusal),
    }
}

/// Adds these bytes at the end of a file. Where there are none it only looks.
#[tactic(none)]
pub fn append<K: Blocks>(
    client: &Client,
    disk: &mut K,
    path: &Path,
    bytes: &Data,
) -> Result<(), FsRefusal>
    requires may { MayAsk K.told client.now (K.view disk.old) }
    /// promise (with changes): The answer is the tree's step, and every stop leaves the tree before or after.
    ensures answer { K.told → Answers (mounted_by client.now) (K.view disk.old) (K.view disk.new)
        (ask.Append path.now bytes.now) result (λ _ answer. answer ≡ done) }
    ensures changes { Changes K.told (mounted_by client.now) (K.view disk.old) (K.view disk.new)
        (ask.Append path.now bytes.now) result }
    ensures idle { bytes.now ≡ [] → OnlyLooks K.told (K.view disk.old) (K.view disk.new) result }
{
    let first = match find_file(client, disk, path) {
        Ok(first) => first,
        Err(refusal) => return Err(refusal),
    };
    if bytes.is_empty() {
        return Ok(());
    }
    let last = match last_part(client, disk, first) {
        Ok(last) => last,
        Err(refusal) => return Err(refusal),
    };
    grow(client, disk, &last, bytes.as_slice())
}
