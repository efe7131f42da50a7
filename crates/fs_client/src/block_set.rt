//! Sets of blocks of a disk.

ghost use Rattle.std.specs.Prelude.{◌≡◌, ◌≤◌, ◌||◌, ◌==◌, ℕ, false, not, length};
ghost use Rattle.std.specs.Prelude.{slice_index_or, IfOk};

use bit_array::BitArray;
use std::alloc::Global;
use tsd_model::NoMemory;

/// How many blocks the longest disk has.
const BLOCKS_MOST: u32 = 1_048_576;

/// A set of blocks of a disk, however long.
#[derive(Drop)]
pub struct BlockSet {
    marks: BitArray,
    ghost fits: { 1048576 ≤ length marks },
}

/// So many marks, none of them set.
fn unmarked(alloc: Global, len: u32) -> Result<BitArray, NoMemory>
    ensures long { IfOk result (λ bits. length bits ≡ len) }
    ensures none { IfOk result (λ bits. (b : ℕ) → slice_index_or bits b false ≡ false) }
{
    match BitArray::new(alloc, len) {
        Ok(bits) => Ok(bits),
        Err(error) => Err(error),
    }
}

impl BlockSet {
    ghost use Rattle.fs_client.specs.Marked.{has_block, HasNone, Gains};

    /// Room for blocks, of which there are none.
    pub fn new(alloc: Global) -> Result<BlockSet, NoMemory>
        ensures { IfOk result HasNone }
    {
        let marks = unmarked(alloc, BLOCKS_MOST)?;
        Ok(BlockSet { marks })
    }

    /// Takes all blocks out.
    pub fn clear(&mut self)
        ensures { HasNone self.new }
    {
        self.marks.clear();
    }

    /// Whether a block is in it.
    pub fn contains(&self, block: u32) -> bool
        ensures { result ≡ has_block self.now block }
    {
        self.marks.get(block)
    }

    /// Puts a block in. Whether it wasn't there before.
    pub fn insert(&mut self, block: u32) -> bool
        ensures new { result ≡ not (has_block self.old block) }
        ensures gains { Gains self.old self.new block }
    {
        let is_new = !self.marks.get(block);
        self.marks.set(block, true);
        is_new
    }
}
