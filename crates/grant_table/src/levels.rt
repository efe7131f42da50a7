//! Levels of blocks, two bits a block.

ghost use Rattle.std.specs.Prelude.{◌≡◌, ℕ, ◌<◌, ◌≤◌, cond, length, replicate, slice_index_or, slice_set, IfOk};
ghost use Rattle.tsd_model.specs.Sessions.{raised_level};
ghost use Rattle.tsd_model.specs.declared.requests.Level.TheVariants as level;

use bit_array::BitArray;
use std::alloc::Global;
use std::marker::Model;
use tsd_model::{Level, NoMemory};

/// The level at each block, of one session and from one origin.
#[derive(Drop)]
pub struct LevelBits {
    /// Whether the block may be read, as far as this bit says: one may be written whatever it says.
    reads: BitArray,

    /// Whether the block may be written.
    writes: BitArray,
}

impl Model for LevelBits {
    ghost use Rattle.std.specs.Prelude.{List, ◌≡◌, length};
    ghost use Rattle.tsd_model.specs.declared.requests.Level.{Level};
    ghost use Rattle.grant_table.specs.Levels.{levels_of_bits};

    ghost Value = { List Level };

    ghost view = { λ t. levels_of_bits t.reads t.writes };

    ghost invariant = { λ t. length t.writes ≡ length t.reads };
}

impl LevelBits {
    /// Nothing, at so many blocks.
    pub fn bare(alloc: Global, blocks: u32) -> Result<LevelBits, NoMemory>
        ensures { IfOk result (λ t. t ≡ replicate blocks level.Bare) }
    {
        Ok(LevelBits {
            reads: BitArray::new(alloc, blocks)?,
            writes: BitArray::new(alloc, blocks)?,
        })
    }

    /// The level at a block; past the last block nothing.
    pub fn level(&self, block: u32) -> Level
        ensures { result ≡ slice_index_or self.now block level.Bare }
    {
        if self.writes.get(block) {
            Level::Write
        } else if self.reads.get(block) {
            Level::Read
        } else {
            Level::Bare
        }
    }

    /// Up to which block, from `start` on and at most up to `end`, nothing is held.
    pub fn bare_until(&self, start: u32, end: u32) -> u32
        requires { start ≤ end }
        ensures on { (start ≤ result) × (result ≤ end) }
        ensures bare { (b : ℕ) → start ≤ b → b < result → slice_index_or self.now b level.Bare ≡ level.Bare }
    {
        let end = self.writes.next_set(start, end);
        self.reads.next_set(start, end)
    }

    /// The level at a block becomes the greater of itself and this one.
    pub fn raise(&mut self, block: u32, to: Level)
        ensures { self.new ≡ raised_level block to self.old }
    {
        match to {
            Level::Bare => {}
            Level::Read => self.reads.set(block, true),
            Level::Write => self.writes.set(block, true),
        }
    }

    /// Nothing is held at a block any more.
    pub fn drop_at(&mut self, block: u32)
        ensures { self.new ≡ slice_set self.old block level.Bare }
    {
        self.reads.set(block, false);
        self.writes.set(block, false);
    }

    /// Nothing is held at any block any more.
    pub fn clear(&mut self)
        ensures { self.new ≡ replicate (length self.old) level.Bare }
    {
        self.reads.clear();
        self.writes.clear();
    }
}
