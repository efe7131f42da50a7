//! Which blocks are reached.

ghost use Rattle.std.specs.Prelude.{◌≡◌, ℕ, ◌+◌, ◌<◌, ◌||◌, ◌&&◌, ◌==◌, not, [], false};
ghost use Rattle.std.specs.Prelude.{length, replicate, IfOk, IsTrue};
ghost use Rattle.tsd_model.specs.Reach.{reach};
ghost use Rattle.tsd_model.specs.World.{has_number};
ghost use Rattle.cycle_sweep.specs.Marked.{is_marked, AreMarks, AreMarksAt, count_marked};
ghost use Rattle.reclaim.specs.Tables.{graph_of, AreTables};

use bit_array::BitArray;
use block_alloc::LiveMap;
use pointer_table::PointerTable;
use reclaim::Work;
use std::alloc::Global;
use std::marker::Model;
use tsd_model::NoMemory;

/// A mark on each block of a disk. Contracts see at each index whether the block is marked.
#[derive(Drop)]
pub struct Marks {
    marked: BitArray,
    /// While blocks are being marked, the marked ones whose targets are still to be marked.
    waiting: Work,
    /// The block where the search for a step begins: a guess, so a wrong one costs time alone.
    position: u32,
}

impl Model for Marks {
    ghost use Rattle.std.specs.Prelude.{◌≡◌, List, Bool, [], length};

    ghost Value = { List Bool };

    ghost view = { λ m. m.marked };

    ghost invariant = { λ m. (m.waiting.blocks ≡ []) × (m.waiting.room ≡ length m.marked) };
}

impl Marks {
    /// No block of so many is marked. No other call takes memory.
    pub fn new(alloc: Global, blocks: u32) -> Result<Marks, NoMemory>
        ensures { IfOk result (λ m. m ≡ replicate blocks false) }
    {
        Ok(Marks {
            marked: BitArray::new(alloc, blocks)?,
            waiting: Work::new(alloc, blocks)?,
            position: 0,
        })
    }

    /// Whether a block is marked; past the last block none is.
    pub fn is_marked(&self, block: u32) -> bool
        ensures { result ≡ is_marked self.now block }
    {
        self.marked.get(block)
    }

    /// The block where the last step was, or 0.
    pub(crate) fn position(&self) -> u32 {
        self.position
    }

    /// Remembers the block of a step.
    pub(crate) fn set_position(&mut self, block: u32)
        ensures { self.new ≡ self.old }
    {
        self.position = block;
    }
}

/// Marks exactly the blocks that the primary blocks lead to, they included, whatever was marked before.
pub fn mark(pointers: &PointerTable, live: &LiveMap, primaries: u32, marks: &mut Marks)
    requires tables { AreTables pointers.now live.now }
    requires primaries { primaries ≡ pointers.now.geometry.primaries }
    requires size { length marks.old ≡ pointers.now.geometry.blocks }
    ensures size { length marks.new ≡ length marks.old }
    /// promise: Exactly the blocks are marked that the primary blocks lead to.
    ensures reached { (b : ℕ) → is_marked marks.new b ≡ has_number (reach (graph_of pointers.now live.now)) b }
{
    mark_reached(
        pointers,
        live,
        primaries,
        &mut marks.marked,
        &mut marks.waiting,
    );
}

/// Marks the primary blocks, and then the targets of each block that was marked.
fn mark_reached(
    pointers: &PointerTable,
    live: &LiveMap,
    primaries: u32,
    marked: &mut BitArray,
    waiting: &mut Work,
)
    requires tables { AreTables pointers.now live.now }
    requires primaries { primaries ≡ pointers.now.geometry.primaries }
    requires size { length marked.old ≡ pointers.now.geometry.blocks }
    requires room { waiting.old.room ≡ pointers.now.geometry.blocks }
    requires none { waiting.old.blocks ≡ [] }
    ensures size { length marked.new ≡ length marked.old }
    ensures room { waiting.new.room ≡ waiting.old.room }
    ensures none { waiting.new.blocks ≡ [] }
    ensures reached { (b : ℕ) → is_marked marked.new b ≡ has_number (reach (graph_of pointers.now live.now)) b }
{
    marked.clear();
    for block in 0..primaries {
        mark_one(marked, waiting, block);
    }
    while let Some(block) = waiting.pop() {
        mark_targets(pointers, live, block, marked, waiting);
    }
}

/// Marks the targets of a block.
fn mark_targets(
    pointers: &PointerTable,
    live: &LiveMap,
    block: u32,
    marked: &mut BitArray,
    waiting: &mut Work,
)
    requires tables { AreTables pointers.now live.now }
    requires size { length marked.old ≡ pointers.now.geometry.blocks }
    requires room { waiting.old.room ≡ pointers.now.geometry.blocks }
    requires marked { IsTrue (is_marked marked.old block) }
    requires marks { AreMarksAt (graph_of pointers.now live.now) marked.old waiting.old.blocks
        pointers.now.geometry.primaries block 0 }
    ensures size { length marked.new ≡ length marked.old }
    ensures room { waiting.new.room ≡ waiting.old.room }
    ensures marks { AreMarks (graph_of pointers.now live.now) marked.new waiting.new.blocks
        pointers.now.geometry.primaries }
    ensures balance { count_marked marked.new + length waiting.old.blocks ≡ count_marked marked.old + length
        waiting.new.blocks }
{
    let mut from = 0;
    while let Some(target) = pointers.next_target(block, from) {
        mark_one(marked, waiting, target);
        from = target + 1;
    }
}

/// Marks a block, which then waits; one that was marked already stays as it is.
fn mark_one(marked: &mut BitArray, waiting: &mut Work, block: u32)
    requires inside { block < length marked.old }
    requires room { waiting.old.room ≡ length marked.old }
    requires waits { (b : ℕ) → IsTrue (has_number waiting.old.blocks b) → IsTrue (is_marked marked.old b) }
    ensures size { length marked.new ≡ length marked.old }
    ensures room { waiting.new.room ≡ waiting.old.room }
    ensures marked { (b : ℕ) → is_marked marked.new b ≡ (is_marked marked.old b || (b == block)) }
    ensures waiting { (b : ℕ) → has_number waiting.new.blocks b
        ≡ (has_number waiting.old.blocks b || ((b == block) && not (is_marked marked.old block))) }
    ensures balance { count_marked marked.new + length waiting.old.blocks ≡ count_marked marked.old + length
        waiting.new.blocks }
{
    if !marked.get(block) {
        marked.set(block, true);
        waiting.push(block);
    }
}
