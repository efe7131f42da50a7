//! The pairs out of a block, of which some are named by its contents and others are left over.

ghost use Rattle.std.specs.Prelude.{◌≡◌, ◌<◌, ◌≤◌, ◌+◌, ◌^◌, ℕ, List, [], false, length};
ghost use Rattle.std.specs.Prelude.{filter, IfOk, IfErr};
ghost use Rattle.tsd_model.specs.World.{has_number};
ghost use Rattle.fs_trees.specs.declared.refusal.FsRefusal.TheVariants as no;
ghost use Rattle.fs_port.specs.Calls.{IsValidNow};
ghost use Rattle.fs_client.specs.Leftovers.{named_targets, other_targets, next_in};
ghost use Rattle.fs_client.specs.May.{MayWrite, OnlyLooks};

use crate::client::Client;
use fs_port::Blocks;
use fs_trees::FsRefusal;
use tsd_model::BlockList;
use tsd_model::lists::BLOCKS_MAX;

/// What names blocks: the contents of one.
pub trait Names {
    /// The blocks that it names.
    ghost blocks: { Self → List ℕ };

    /// Whether it names this block.
    fn names(&self, block: u32) -> bool
        ensures { result ≡ has_number (blocks self.now) block };
}

/// Contents that name nothing.
#[derive(Drop)]
pub struct NoNames;

impl Names for NoNames {
    ghost blocks = { λ _. [] };

    fn names(&self, _block: u32) -> bool {
        false
    }
}

/// What the pairs out of a block lead to.
#[derive(Clone, Copy, Debug, PartialEq, Eq)]
pub struct PairCount {
    /// How many lead to blocks that it names.
    pub named: usize,

    /// How many lead elsewhere.
    pub others: usize,
}

/// Where the targets behind a page of them begin, which was listed from a start on; the end where there are none.
pub fn next_start(targets: &BlockList, start: u32, end: u32) -> u32
    requires { start < end }
    ensures value { result ≡ next_in targets.now start end }
    ensures later { start < result }
    ensures within { result ≤ end }
{
    let targets = targets.as_slice();
    if targets.len() < BLOCKS_MAX {
        return end;
    }
    let last = targets[BLOCKS_MAX - 1];
    if start <= last && last < end {
        last + 1
    } else {
        end
    }
}

/// How many of these it names.
fn count_named<N: Names>(targets: &BlockList, namer: &N) -> usize
    ensures value { result ≡ length (filter (has_number (N.blocks namer.now)) targets.now) }
    ensures fits { result ≤ length targets.now }
{
    targets
        .as_slice()
        .iter()
        .filter(|target| namer.names(**target))
        .count()
}

/// The count with these targets.
fn counted<N: Names>(count: PairCount, targets: &BlockList, namer: &N) -> PairCount
    requires { count.named + count.others < 2 ^ 40 }
    ensures named { result.named ≡ count.named + length (filter (has_number (N.blocks namer.now)) targets.now) }
    ensures all { result.named + result.others ≡ count.named + count.others + length targets.now }
    ensures few { length targets.now ≤ 64 }
{
    let all = targets.len();
    let named = count_named(targets, namer);
    PairCount {
        named: count.named + named,
        others: count.others + (all - named),
    }
}

/// Counts the pairs out of a block that the client may write. Only a fault refuses it.
pub fn count_pairs<K: Blocks, N: Names>(
    client: &Client,
    disk: &mut K,
    source: u32,
    namer: &N,
) -> Result<PairCount, FsRefusal>
    requires unspent { (K.view disk.old).spent ≡ false }
    requires valid { K.told → IsValidNow (K.view disk.old) }
    requires may { K.told → MayWrite client.now (K.view disk.old) source }
    /// promise (with others, only, looks): How many of the pairs out of a block its contents name, and how many others
    /// there are; no world is changed, and only a fault refuses it.
    ensures named { K.told
        → IfOk result (λ count. count.named ≡ length (named_targets (K.view disk.old).world source
        (N.blocks namer.now))) }
    ensures others { K.told
        → IfOk result (λ count. count.others ≡ length (other_targets (K.view disk.old).world source
        (N.blocks namer.now))) }
    ensures only { K.told → IfErr result (λ e. e ≡ no.Device) }
    ensures looks { OnlyLooks K.told (K.view disk.old) (K.view disk.new) result }
{
    let end = disk.geometry().blocks;
    let mut count = PairCount {
        named: 0,
        others: 0,
    };
    let mut start = 0;
    while start < end {
        let targets = match client.targets(disk, source, start) {
            Ok(targets) => targets,
            Err(refusal) => return Err(refusal),
        };
        count = counted(count, &targets, namer);
        start = next_start(&targets, start, end);
    }
    Ok(count)
}
