//! Which blocks are doomed, found with a work list.

ghost use Rattle.std.specs.Prelude.{◌≡◌, ℕ, ◌+◌, ◌-◌, ◌<◌, ◌≤◌, ◌||◌, ◌&&◌, ◌==◌};
ghost use Rattle.std.specs.Prelude.{[], false, not, cond, length, slice_index, slice_set, IsTrue};
ghost use Rattle.tsd_model.specs.World.{World, has_number, are_apart};
ghost use Rattle.tsd_model.specs.Step.{without_pointer};
ghost use Rattle.reclaim.specs.Ahead.{is_gone, Hides, IsAheadOf, IsDeleting, kept_ahead};
ghost use Rattle.reclaim.specs.Counting.{left_at, IsCounting};
ghost use Rattle.reclaim.specs.Tallies.{HasSameMarks};
ghost use Rattle.reclaim.specs.Tables.{graph_of, AreTables};

use crate::work::Work;
use bit_array::BitArray;
use block_alloc::LiveMap;
use pointer_table::PointerTable;
use ref_counts::RefCounts;

/// Of each block the number of pairs to it from blocks that aren't doomed, and which blocks are doomed; and the doomed
/// blocks whose pairs aren't counted off yet.
#[derive(Drop)]
pub(crate) struct Tally {
    pub(crate) counts: Vec<u32>,
    pub(crate) gone: BitArray,
    pub(crate) waiting: Work,
    /// How many blocks are doomed.
    pub(crate) doomed: u32,
    /// How many pairs come from them.
    pub(crate) pairs: u32,
}

impl Tally {
    /// Takes the counts of a disk on which nothing is doomed.
    pub(crate) fn reset(&mut self, counts: &RefCounts)
        requires counts { length self.old.counts.items ≡ counts.now.geometry.blocks }
        requires gone { length self.old.gone ≡ counts.now.geometry.blocks }
        ensures counts { (b : ℕ) → b < counts.now.geometry.blocks → slice_index self.new.counts.items b
            ≡ slice_index counts.now.counts b }
        ensures gone { (b : ℕ) → is_gone self.new.gone b ≡ false }
        ensures doomed { self.new.doomed ≡ 0 }
        ensures pairs { self.new.pairs ≡ 0 }
        ensures long { (length self.new.counts.items ≡ length self.old.counts.items)
            × (length self.new.gone ≡ length self.old.gone) }
        ensures waiting { self.new.waiting ≡ self.old.waiting }
    {
        let blocks = counts.geometry().blocks;
        for block in 0..blocks {
            self.counts[block as usize] = counts.count(block);
        }
        self.gone.clear();
        self.doomed = 0;
        self.pairs = 0;
    }

    /// One pair more leads to a block.
    pub(crate) fn raise(&mut self, target: u32)
        requires within { target < length self.old.counts.items }
        requires fits { slice_index self.old.counts.items target < 4294967295 }
        ensures counts { self.new.counts.items ≡ slice_set self.old.counts.items target
            (slice_index self.old.counts.items target + 1) }
        ensures others { HasSameMarks self.old self.new }
    {
        self.counts[target as usize] += 1;
    }

    /// One pair more leads to each of these blocks.
    pub(crate) fn raise_all(&mut self, targets: &[u32])
        requires once { IsTrue (are_apart targets.now) }
        requires within { (b : ℕ) → IsTrue (has_number targets.now b) → b < length self.old.counts.items }
        requires fits { (b : ℕ) → IsTrue (has_number targets.now b) → slice_index self.old.counts.items b
            < 4294967295 }
        ensures counts { (b : ℕ) → slice_index self.new.counts.items b ≡ cond (has_number targets.now b) 1 0 +
            slice_index self.old.counts.items b }
        ensures long { length self.new.counts.items ≡ length self.old.counts.items }
        ensures others { HasSameMarks self.old self.new }
    {
        for target in targets {
            self.raise(*target);
        }
    }

    /// So many pairs of a doomed block are taken away, and the block if `freed`.
    pub(crate) fn take(&mut self, block: u32, pairs: u32, freed: bool)
        requires within { block < length self.old.gone }
        requires some { cond freed 1 0 ≤ self.old.doomed }
        requires pairs { pairs ≤ self.old.pairs }
        ensures gone { (b : ℕ) → is_gone self.new.gone b
            ≡ (is_gone self.old.gone b && not (freed && (b == block))) }
        ensures long { length self.new.gone ≡ length self.old.gone }
        ensures doomed { self.old.doomed ≡ cond freed 1 0 + self.new.doomed }
        ensures taken { self.old.pairs ≡ pairs + self.new.pairs }
        ensures counts { self.new.counts.items ≡ self.old.counts.items }
        ensures waiting { self.new.waiting ≡ self.old.waiting }
    {
        self.pairs -= pairs;
        if freed {
            self.doomed -= 1;
            self.gone.set(block, false);
        }
    }

    /// A pair to a block was deleted. Hides the blocks that became doomed by that, and tells how many they are.
    pub(crate) fn lower(&mut self, pointers: &PointerTable, live: &mut LiveMap, target: u32) -> u32
        requires tables { AreTables pointers.now live.old }
        requires room { self.old.waiting.room ≡ pointers.now.geometry.blocks }
        requires none { self.old.waiting.blocks ≡ [] }
        requires hidden { Hides live.old (is_gone self.old.gone) }
        requires deleted { (w : World) × (a : ℕ) × IsDeleting w a target (kept_ahead self.old.counts.items self.old.gone
            self.old.doomed self.old.pairs) × (graph_of pointers.now live.old ≡ without_pointer w a target) }
        ensures ahead { IsAheadOf (graph_of pointers.now live.new) (kept_ahead self.new.counts.items self.new.gone
            self.new.doomed self.new.pairs) }
        ensures hidden { Hides live.new (is_gone self.new.gone) }
        ensures raw { live.new ≡ record live.old { unhidden = live.new.unhidden } }
        ensures more { self.new.doomed ≡ self.old.doomed + result }
        ensures counts { length self.new.counts.items ≡ length self.old.counts.items }
        ensures gone { length self.new.gone ≡ length self.old.gone }
        ensures room { self.new.waiting.room ≡ self.old.waiting.room }
        ensures none { self.new.waiting.blocks ≡ [] }
    {
        let before = self.doomed;
        self.lower_one(target);
        while let Some(block) = self.waiting.pop() {
            live.hide(block);
            self.lower_targets(pointers, live, block);
        }
        self.doomed - before
    }

    /// Counts off the pairs from a doomed block.
    fn lower_targets(&mut self, pointers: &PointerTable, live: &LiveMap, block: u32)
        requires tables { AreTables pointers.now live.now }
        requires counts { length self.old.counts.items ≡ pointers.now.geometry.blocks }
        requires gone { length self.old.gone ≡ pointers.now.geometry.blocks }
        requires room { self.old.waiting.room ≡ pointers.now.geometry.blocks }
        requires marked { IsTrue (is_gone self.old.gone block) }
        requires out { has_number self.old.waiting.blocks block ≡ false }
        requires counting { IsCounting (graph_of pointers.now live.now) self.old.counts.items self.old.gone
            self.old.waiting.blocks self.old.doomed self.old.pairs (left_at self.old.gone self.old.waiting.blocks block
            0) }
        ensures counting { IsCounting (graph_of pointers.now live.now) self.new.counts.items self.new.gone
            self.new.waiting.blocks self.new.doomed self.new.pairs (left_at self.new.gone self.new.waiting.blocks
            pointers.now.geometry.blocks 0) }
        ensures counts { length self.new.counts.items ≡ length self.old.counts.items }
        ensures gone { length self.new.gone ≡ length self.old.gone }
        ensures room { self.new.waiting.room ≡ self.old.waiting.room }
        ensures balance { self.new.doomed + length self.old.waiting.blocks ≡ self.old.doomed + length
            self.new.waiting.blocks }
        ensures more { self.old.doomed ≤ self.new.doomed }

        // A block that is doomed now waits, if it wasn't doomed before.
        ensures done { (b : ℕ) → (is_gone self.new.gone b && not (has_number self.new.waiting.blocks b))
            ≡ (is_gone self.old.gone b && not (has_number self.old.waiting.blocks b)) }
    {
        let mut from = 0;
        while let Some(target) = pointers.next_target(block, from) {
            self.lower_one(target);
            self.pairs += 1;
            from = target + 1;
        }
    }

    /// Lowers the count of a block, which is doomed if it comes to 0.
    fn lower_one(&mut self, target: u32)
        requires within { target < length self.old.counts.items }
        requires gone { length self.old.gone ≡ length self.old.counts.items }
        requires room { self.old.waiting.room ≡ length self.old.counts.items }
        requires some { 0 < slice_index self.old.counts.items target }
        requires fresh { is_gone self.old.gone target ≡ false }
        requires waits { (b : ℕ) → IsTrue (has_number self.old.waiting.blocks b)
            → IsTrue (is_gone self.old.gone b) }
        requires fits { self.old.doomed < 4294967295 }
        ensures counts { self.new.counts.items ≡ slice_set self.old.counts.items target
            (slice_index self.old.counts.items target - 1) }
        ensures gone { (b : ℕ) → is_gone self.new.gone b
            ≡ (is_gone self.old.gone b || ((b == target) && (slice_index self.old.counts.items target == 1))) }
        ensures waiting { (b : ℕ) → has_number self.new.waiting.blocks b
            ≡ (has_number self.old.waiting.blocks b || ((b == target) && (slice_index self.old.counts.items target ==
            1))) }
        ensures doomed { self.new.doomed ≡ self.old.doomed + cond (slice_index self.old.counts.items target == 1) 1 0 }
        ensures balance { self.new.doomed + length self.old.waiting.blocks ≡ self.old.doomed + length
            self.new.waiting.blocks }
        ensures pairs { self.new.pairs ≡ self.old.pairs }
        ensures long { length self.new.gone ≡ length self.old.gone }
        ensures room { self.new.waiting.room ≡ self.old.waiting.room }
    {
        let count = self.counts[target as usize] - 1;
        self.counts[target as usize] = count;
        if count == 0 {
            self.gone.set(target, true);
            self.waiting.push(target);
            self.doomed += 1;
        }
    }
}
