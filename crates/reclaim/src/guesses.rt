//! Blocks that may be lost, and the step at one of them.

ghost use Rattle.std.specs.Prelude.{◌≡◌, ◌⊎◌, true, length, ℕ, ◌<◌, [], IfSome, IsNone, IsTrue};
ghost use Rattle.std.specs.Prelude.{◌↔◌};
ghost use Rattle.tsd_model.specs.Doomed.{doomed};
ghost use Rattle.graph_laws.specs.Steps.{IsLost};
ghost use Rattle.reclaim.specs.Stepping.{MayStep, TakesAll, AreKeptBy};
ghost use Rattle.reclaim.specs.Tables.{graph_of, AreTables, HaveCounts};

use crate::out_step::OutStep;
use crate::step::step_at;
use crate::work::is_uncounted;
use block_alloc::LiveMap;
use pointer_table::PointerTable;
use ref_counts::RefCounts;
use std::alloc::Global;
use tsd_model::NoMemory;

/// How many guesses there is room for.
const GUESSES: usize = 4_096;

/// Some blocks that may be lost, so that no step has to look at all blocks for one. Each is looked at before it is
/// used: a wrong one costs time and no answer, and so does one that is missing. They take 16 KiB.
#[derive(Drop)]
pub struct Guesses {
    blocks: Vec<u32>,
    /// How many there are: the first ones of `blocks`.
    len: usize,
}

impl Guesses {
    /// None, with room for 4,096. No other call takes memory.
    pub fn new(alloc: Global) -> Result<Guesses, NoMemory> {
        match vec![in alloc; 0u32; GUESSES] {
            Ok(blocks) => Ok(Guesses { blocks, len: 0 }),
            Err(_) => Err(NoMemory),
        }
    }

    /// A block may be lost. It is forgotten where there is no room.
    pub fn push(&mut self, block: u32) {
        if let Some(place) = self.blocks.get_mut(self.len) {
            *place = block;
            self.len += 1;
        }
    }

    /// Those of these blocks may be lost to which no pair leads.
    pub fn push_uncounted(&mut self, counts: &RefCounts, blocks: &[u32]) {
        let all = counts.geometry().blocks;
        for block in blocks {
            if *block < all && counts.count(*block) == 0 {
                self.push(*block);
            }
        }
    }

    /// The guess that was pushed last is a guess no longer.
    fn pop(&mut self) -> Option<u32>
        ensures { IfSome result (λ _. self.new.len < self.old.len) }
    {
        let left = self.len.checked_sub(1)?;
        self.len = left;
        self.blocks.get(left).copied()
    }

    /// The last guess that is a lost block. It is a guess no longer, and neither are the wrong ones behind it.
    fn pop_lost(
        &mut self,
        pointers: &PointerTable,
        counts: &RefCounts,
        live: &LiveMap,
    ) -> Option<u32>
        requires tables { AreTables pointers.now live.now }
        requires counts { HaveCounts pointers.now live.now counts.now }
        ensures { IfSome result (λ b. IsLost (graph_of pointers.now live.now) b) }
    {
        while let Some(block) = self.pop() {
            if is_lost(pointers, counts, live, block) {
                return Some(block);
            }
        }
        None
    }

    /// The first lost block of all. The other ones become guesses, as far as there is room.
    fn look_for_lost(
        &mut self,
        pointers: &PointerTable,
        counts: &RefCounts,
        live: &LiveMap,
    ) -> Option<u32>
        requires tables { AreTables pointers.now live.now }
        requires counts { HaveCounts pointers.now live.now counts.now }
        ensures lost { IfSome result (λ b. IsLost (graph_of pointers.now live.now) b) }
        ensures none { IsNone result → (b : ℕ) → b < pointers.now.geometry.blocks
            → IsLost (graph_of pointers.now live.now) b → ⊥ }
    {
        let mut first = None;
        let blocks = pointers.geometry().blocks;
        for block in 0..blocks {
            if !is_lost(pointers, counts, live, block) {
                continue;
            }
            if first.is_none() {
                first = Some(block);
            } else {
                self.push(block);
            }
        }
        first
    }
}

/// The next step: a lost block's first 16 targets, or all where it has no more, and then it is freed. The block is one
/// that is guessed where a guess is right; only where none is, all blocks are looked at. None exactly where nothing is
/// doomed.
///
/// Carrying the step out means to take away the pairs from the block to these targets and, if it is freed, the block.
/// Each target to which no pair is left is a good guess then.
pub fn find_step(
    pointers: &PointerTable,
    counts: &RefCounts,
    live: &LiveMap,
    guesses: &mut Guesses,
) -> Option<OutStep>
    requires tables { AreTables pointers.now live.now }
    requires counts { HaveCounts pointers.now live.now counts.now }
    /// promise (with freed, wide): By guesses, which may be wrong, a lost block and its first 16 targets, or all, and
    /// then it is freed.
    ensures step { IfSome result (λ s. MayStep (graph_of pointers.now live.now) s) }

    // It frees the block exactly where it has no other targets; else it takes 16.
    ensures freed { IfSome result (λ s. IsTrue s.freed ↔ TakesAll (graph_of pointers.now live.now) s) }
    ensures wide { IfSome result (λ s. (s.freed ≡ true) ⊎ (length s.targets ≡ 16)) }

    /// promise: What a disk with this graph settles to is the same after the step, and less is doomed.
    ensures kept { IfSome result (λ s. AreKeptBy (graph_of pointers.now live.now) s) }
    /// promise: None exactly where nothing is doomed, whatever the guesses are.
    ensures none { IsNone result ↔ (doomed (graph_of pointers.now live.now) ≡ []) }
{
    let block = find_lost(pointers, counts, live, guesses)?;
    let step = step_at(pointers, live, block);
    if !step.freed {
        guesses.push(block);
    }
    Some(step)
}

/// A lost block, by a guess where one is right. None exactly where nothing is doomed.
fn find_lost(
    pointers: &PointerTable,
    counts: &RefCounts,
    live: &LiveMap,
    guesses: &mut Guesses,
) -> Option<u32>
    requires tables { AreTables pointers.now live.now }
    requires counts { HaveCounts pointers.now live.now counts.now }
    ensures lost { IfSome result (λ b. IsLost (graph_of pointers.now live.now) b) }
    ensures none { IsNone result ↔ (doomed (graph_of pointers.now live.now) ≡ []) }
{
    let guessed = guesses.pop_lost(pointers, counts, live);
    if guessed.is_some() {
        guessed
    } else {
        guesses.look_for_lost(pointers, counts, live)
    }
}

/// Whether a block is lost. A hidden block may be.
fn is_lost(pointers: &PointerTable, counts: &RefCounts, live: &LiveMap, block: u32) -> bool
    requires tables { AreTables pointers.now live.now }
    requires counts { HaveCounts pointers.now live.now counts.now }
    ensures { IsTrue result ↔ IsLost (graph_of pointers.now live.now) block }
{
    let size = pointers.geometry();
    block < size.blocks && is_uncounted(counts, live, size.primaries, block)
}
