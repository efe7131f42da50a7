//! The blocks that wait.

ghost use Rattle.std.specs.Prelude.{◌≡◌, ℕ, ◌<◌, ◌∷◌, [], ◌++◌, false, ◌&&◌, nat_lt};
ghost use Rattle.std.specs.Prelude.{IfOk, IfSome, IsNone, ◌↔◌};
ghost use Rattle.tsd_model.specs.World.{has_number};
ghost use Rattle.pointer_table.specs.Table.{Table};
ghost use Rattle.reclaim.specs.Held.{IsPopped};
ghost use Rattle.reclaim.specs.Tables.{graph_of, AreTables, HaveCounts, HoldsLost, is_uncounted};

use block_alloc::LiveMap;
use ref_counts::RefCounts;
use std::alloc::Global;
use std::marker::Model;
use tsd_model::NoMemory;

/// The blocks that wait to be taken away, each once, with room for all blocks of a disk. It takes four bytes a block,
/// and touches no more of them than ever waited at a time.
#[derive(Drop)]
pub struct Work {
    /// Those that wait.
    blocks: Vec<u32>,
    /// For how many there is room.
    room: u32,
}

impl Model for Work {
    ghost use Rattle.std.specs.Prelude.{◌≤◌, vec_capacity};
    ghost use Rattle.reclaim.specs.Held.{HeldTargets, IsHeld};

    ghost Value = { HeldTargets };

    ghost view = { λ w. record { room = w.room; blocks = w.blocks.items } };

    ghost invariant = { λ w. (w.room ≤ vec_capacity w.blocks)
        × IsHeld (record { room = w.room; blocks = w.blocks.items }) };
}

impl Work {
    /// Nothing waits, and there is room for so many blocks. No other call takes memory.
    pub fn new(alloc: Global, blocks: u32) -> Result<Work, NoMemory>
        ensures { IfOk result (λ w. w ≡ record { room = blocks; blocks = [] }) }
    {
        match Vec::with_capacity(alloc, blocks as usize) {
            Ok(items) => Ok(Work {
                blocks: items,
                room: blocks,
            }),
            Err(_) => Err(NoMemory),
        }
    }

    /// Exactly the live blocks that aren't primary and have count 0 wait, whatever waited before.
    pub fn collect(&mut self, counts: &RefCounts, live: &LiveMap, primaries: u32)
        requires room { self.old.room ≡ counts.now.geometry.blocks }
        requires sizes { live.now.geometry ≡ counts.now.geometry }
        ensures room { self.new.room ≡ self.old.room }
        ensures value { (b : ℕ) → has_number self.new.blocks b
            ≡ (nat_lt b counts.now.geometry.blocks && is_uncounted live.now.live counts.now.counts primaries b) }

        // Where the counts are those of the pairs of a table, these are the lost blocks.
        ensures lost { (t : Table) → AreTables t live.now → HaveCounts t live.now counts.now
            → primaries ≡ t.geometry.primaries → HoldsLost (graph_of t live.now) self.new }
    {
        self.clear();
        let blocks = counts.geometry().blocks;
        for block in 0..blocks {
            if is_uncounted(counts, live, primaries, block) {
                self.push(block);
            }
        }
    }

    /// Nothing waits.
    fn clear(&mut self)
        ensures { self.new ≡ record self.old { blocks = [] } }
    {
        self.blocks.clear();
    }

    /// A block more waits.
    pub fn push(&mut self, block: u32)
        requires block { block < self.old.room }
        requires new { has_number self.old.blocks block ≡ false }
        ensures { self.new ≡ record self.old { blocks = self.old.blocks ++ block ∷ [] } }
    {
        self.blocks.push_reserved(block);
    }

    /// The block that was pushed last waits no longer. None exactly where none waits.
    pub fn pop(&mut self) -> Option<u32>
        ensures some { IfSome result (IsPopped self.old self.new) }
        ensures none { IsNone result ↔ (self.old.blocks ≡ []) }
        ensures same { IsNone result → self.new ≡ self.old }
    {
        self.blocks.pop()
    }
}

/// Whether a block is live, isn't primary, and has count 0. A hidden block is live here.
pub(crate) fn is_uncounted(counts: &RefCounts, live: &LiveMap, primaries: u32, block: u32) -> bool
    requires block { block < counts.now.geometry.blocks }
    requires sizes { live.now.geometry ≡ counts.now.geometry }
    ensures { result ≡ is_uncounted live.now.live counts.now.counts primaries block }
{
    primaries <= block && live.raw_live(block) && counts.count(block) == 0
}
