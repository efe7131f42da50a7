//! What a verdict asks of the disk.

ghost use Rattle.std.specs.Prelude.{◌≡◌, ◌<◌, ◌≤◌, not, length};
ghost use Rattle.tsd_model.specs.Attained.{shown_level};
ghost use Rattle.tsd_model.specs.Next.{IsNextSource};
ghost use Rattle.tsd_model.specs.Pairs.{holds};
ghost use Rattle.tsd_model.specs.Placing.{runs};
ghost use Rattle.tsd_model.specs.Valid.{IsSized};
ghost use Rattle.tsd_model.specs.Verdict.{is_empty};
ghost use Rattle.tsd_model.specs.World.{World, is_live, free_count};

use tsd_model::{Geometry, Level, Shown};

/// What can be asked of a disk. It tells a world, and each call answers by it.
pub trait DiskFacts {
    /// The world that it tells.
    ghost world: { Self → World };

    /// How large the disk is.
    fn geometry(&self) -> Geometry
        ensures value { result ≡ (world self.now).geometry }
        ensures sized { IsSized (world self.now) };

    /// Whether a block is live.
    fn live(&self, block: u32) -> bool
        requires { block < (world self.now).geometry.blocks }
        ensures { result ≡ is_live (world self.now) block };

    /// What a shown capability attains at a primary block.
    fn shown_level(&self, block: u32, shown: &Shown) -> Level
        requires { block < (world self.now).geometry.primaries }
        ensures { result ≡ shown_level (world self.now) block shown.now };

    /// The least source of the pairs to a block that is not below `start`, None exactly where there is none.
    fn next_source(&self, target: u32, start: u32) -> Option<u32>
        requires { target < (world self.now).geometry.blocks }
        ensures { IsNextSource (world self.now).pairs target start result };

    /// Whether a pointer is held.
    fn has(&self, source: u32, target: u32) -> bool
        requires ends { (source < (world self.now).geometry.blocks) × (target < (world self.now).geometry.blocks) }
        ensures { result ≡ holds (world self.now).pairs source target };

    /// How many blocks are free.
    fn free(&self) -> u32
        ensures { result ≡ free_count (world self.now) };

    /// Whether so many free blocks stand in a row somewhere; of a count from 1 to 32.
    fn has_run(&self, count: u32) -> bool
        requires { (1 ≤ count) × (count ≤ 32) }
        ensures { result ≡ not (is_empty (runs (world self.now) count)) };

    /// How many pointers are held.
    fn pointers(&self) -> u32
        ensures { result ≡ length (world self.now).pairs };
}
