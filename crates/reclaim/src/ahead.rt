//! What is doomed, told before it is taken away.

ghost use Rattle.std.specs.Prelude.{◌≡◌, ℕ, ◌+◌, ◌<◌, ◌&&◌, ◌==◌, not, [], false, length};
ghost use Rattle.std.specs.Prelude.{replicate, IfOk};
ghost use Rattle.tsd_model.specs.World.{World, has_number};
ghost use Rattle.tsd_model.specs.World.{is_live as is_live_in};
ghost use Rattle.tsd_model.specs.Doomed.{doomed, settle};
ghost use Rattle.block_alloc.specs.LiveMap.{is_live};
ghost use Rattle.tsd_model.specs.Step.{with_pointer, without_pointer, with_new_blocks};
ghost use Rattle.graph_laws.specs.Counts.{AreCounts, doomed_pairs};
ghost use Rattle.reclaim.specs.Ahead.{is_gone, Hides, IsAheadOf, IsAdding, IsGrowing, IsDeleting, IsStepping};
ghost use Rattle.reclaim.specs.Stepping.{after_step};
ghost use Rattle.reclaim.specs.Tables.{graph_of, AreTables};

use crate::out_step::OutStep;
use crate::tally::Tally;
use crate::work::Work;
use bit_array::BitArray;
use block_alloc::LiveMap;
use pointer_table::PointerTable;
use ref_counts::RefCounts;
use std::alloc::Global;
use std::marker::Model;
use tsd_model::NoMemory;

/// What is doomed on a disk from which nothing is taken away yet: of each block the number of pairs to it from blocks
/// that aren't doomed, and whether it is doomed; how many blocks are, and how many pairs come from them.
///
/// It is right of a disk once `reset` took the disk's counts, and stays right as long as it is told of each pair that
/// is added or deleted and of each step. With the list of blocks that `lower` works through it takes eight bytes and a
/// bit a block.
#[derive(Drop)]
pub struct Ahead {
    tally: Tally,
}

impl Model for Ahead {
    ghost use Rattle.std.specs.Prelude.{◌≡◌, [], length};
    ghost use Rattle.reclaim.specs.Ahead.{Kept, kept_ahead};

    ghost Value = { Kept };

    ghost view = { λ a. kept_ahead a.tally.counts.items a.tally.gone a.tally.doomed a.tally.pairs };

    // no block waits between calls
    ghost invariant = { λ a.
        (length a.tally.gone ≡ length a.tally.counts.items)
        × (a.tally.waiting.room ≡ length a.tally.counts.items)
        × (a.tally.waiting.blocks ≡ []) };
}

impl Ahead {
    /// Nothing is doomed, and no pair leads to any of so many blocks. No other call takes memory.
    pub fn new(alloc: Global, blocks: u32) -> Result<Ahead, NoMemory>
        ensures { IfOk result (λ a. a ≡ record {
          counts = replicate blocks 0;
          gone = replicate blocks false;
          doomed =
              0;
          pairs = 0;
        }) }
    {
        let counts = vec![in alloc; 0u32; blocks as usize]?;
        let gone = BitArray::new(alloc, blocks)?;
        let waiting = Work::new(alloc, blocks)?;
        Ok(Ahead {
            tally: Tally {
                counts,
                gone,
                waiting,
                doomed: 0,
                pairs: 0,
            },
        })
    }

    /// Whether a block is doomed. No number past the last block is.
    pub fn is_doomed(&self, block: u32) -> bool
        /// promise (with told): Whether the block is doomed, as long as the table was told of each pair and step.
        ensures value { result ≡ is_gone self.now.gone block }
        ensures told { (w : World) → IsAheadOf w self.now → result ≡ has_number (doomed w) block }
    {
        self.tally.gone.get(block)
    }

    /// How many blocks are doomed.
    pub fn doomed(&self) -> u32
        /// promise (with told): How many blocks are doomed.
        ensures value { result ≡ self.now.doomed }
        ensures told { (w : World) → IsAheadOf w self.now → result ≡ length (doomed w) }
    {
        self.tally.doomed
    }

    /// How many pairs come from doomed blocks.
    pub fn doomed_pairs(&self) -> u32
        /// promise (with told): How many pairs come from doomed blocks.
        ensures value { result ≡ self.now.pairs }
        ensures told { (w : World) → IsAheadOf w self.now → result ≡ length (doomed_pairs w) }
    {
        self.tally.pairs
    }

    /// Takes the counts of a disk on which nothing is doomed.
    pub fn reset(&mut self, counts: &RefCounts)
        requires sizes { length self.old.counts ≡ counts.now.geometry.blocks }
        ensures ahead { (w : World) → w.geometry.blocks ≡ counts.now.geometry.blocks → doomed w ≡ []
            → AreCounts counts.now.counts w → IsAheadOf w self.new }
        ensures gone { (b : ℕ) → is_gone self.new.gone b ≡ false }
    {
        self.tally.reset(counts);
    }

    /// A pair to a block was added.
    pub fn raise(&mut self, target: u32)
        requires told { (w : World) × (a : ℕ) × IsAdding w a target self.old }
        /// promise: The table is right again after a pair was added.
        ensures ahead { (w : World) (a : ℕ) → IsAdding w a target self.old
            → IsAheadOf (with_pointer w a target) self.new }
        ensures gone { self.new.gone ≡ self.old.gone }
    {
        self.tally.raise(target);
    }

    /// Blocks were allocated: each of these, which were free, is live, and a pair to it was added. Nothing is doomed
    /// then: room for blocks is made by reclaiming all first. So whichever block the pairs come from, none of the new
    /// blocks is doomed, and there is no need to name it.
    pub fn raise_all(&mut self, targets: &[u32])
        requires told { (w : World) × IsGrowing w targets.now self.old }
        /// promise: The table is right again after new blocks were taken.
        ensures ahead { (w : World) (a : ℕ) → IsGrowing w targets.now self.old
            → IsAheadOf (with_new_blocks w a targets.now) self.new }
        ensures gone { self.new.gone ≡ self.old.gone }
    {
        self.tally.raise_all(targets);
    }

    /// A pair to a block was deleted. Hides the blocks that became doomed by that, and tells how many they are.
    pub fn lower(&mut self, pointers: &PointerTable, live: &mut LiveMap, target: u32) -> u32
        requires tables { AreTables pointers.now live.old }
        requires hidden { Hides live.old (is_gone self.old.gone) }
        requires deleted { (w : World) × (a : ℕ) × IsDeleting w a target self.old
            × (graph_of pointers.now live.old ≡ without_pointer w a target) }
        /// promise (with settled, more): Exactly the blocks that the deletion dooms are hidden, and their number is
        /// told.
        ensures ahead { IsAheadOf (graph_of pointers.now live.new) self.new }
        ensures hidden { Hides live.new (is_gone self.new.gone) }

        // So the map answers by the settled disk.
        ensures settled { (b : ℕ) → b < pointers.now.geometry.blocks → is_live live.new.unhidden b
            ≡ is_live_in (settle (graph_of pointers.now live.new)) b }

        /// promise: The bitmap stays.
        ensures raw { live.new ≡ record live.old { unhidden = live.new.unhidden } }
        ensures more { self.new.doomed ≡ self.old.doomed + result }
    {
        self.tally.lower(pointers, live, target)
    }

    /// A step of reclamation was carried out.
    pub fn done(&mut self, step: &OutStep)
        requires told { (w : World) × IsStepping w step.now self.old }
        /// promise: The table is right again after a step.
        ensures ahead { (w : World) → IsStepping w step.now self.old → IsAheadOf (after_step w step.now) self.new }
        ensures gone { (b : ℕ) → is_gone self.new.gone b
            ≡ (is_gone self.old.gone b && not (step.now.freed && (b == step.now.block))) }
    {
        let taken = step.targets.len() as u32;
        self.tally.take(step.block, taken, step.freed);
    }
}
