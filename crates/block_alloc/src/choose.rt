//! Which free blocks are taken.

ghost use Rattle.std.specs.Prelude.{◌≡◌, ℕ, ◌+◌, ◌*◌, ◌^◌, ◌≤◌, ◌<◌, Some, true, false, not, length, filter};
ghost use Rattle.std.specs.Prelude.{IfOk, IfErr, OnOk};
ghost use Rattle.tsd_model.specs.Rank.{rank_of};
ghost use Rattle.tsd_model.specs.Verdict.{is_empty};
ghost use Rattle.block_alloc.specs.LiveMap.{IsTable, free_count};
ghost use Rattle.block_alloc.specs.Least.{least_of};
ghost use Rattle.block_alloc.specs.Choosing.{all_blocks, free_blocks, chosen, is_free_run, runs, chosen_run};
ghost use Rattle.block_alloc.specs.Choosing.{IsShort, IsRunRefusal};
ghost use Rattle.block_alloc.specs.Groups.{is_run_within, IsKeptFrom};

use crate::groups::{
    GROUP_BLOCKS, REGION_BLOCKS, REGION_STRETCHES, STRETCH_BLOCKS, STRETCH_GROUPS, best_of,
    floor_of, group_at, is_within, start_of, turns,
};
use crate::least::{Least, Ranked};
use crate::map::LiveMap;
use place_policy::Placement;
use tsd_model::ranks::rank;
use tsd_model::{BlockList, PlaceKind};

/// Fewer blocks are free than are wanted.
#[derive(Clone, Copy, Debug, PartialEq, Eq)]
pub struct Short {
    /// How many blocks are free.
    pub free: u32,

    /// How many are wanted.
    pub wanted: u32,
}

/// Why no run of free blocks was found.
#[derive(Clone, Copy, Debug, PartialEq, Eq)]
pub enum RunRefusal {
    /// Fewer blocks are free than are wanted.
    Short {
        /// How many blocks are free.
        free: u32,

        /// How many are wanted.
        wanted: u32,
    },

    /// Enough blocks are free, but so many do not stand in a row.
    NoRun {
        /// How many blocks are free.
        free: u32,

        /// How many are wanted.
        wanted: u32,
    },
}

/// What a search for blocks found so far.
#[derive(Drop)]
struct Found {
    /// How many are still to be found.
    left: u32,

    /// The greatest rank of those that were found.
    ceiling: u64,
}

impl LiveMap {
    /// Whether so many free blocks stand in a row somewhere.
    pub fn has_run(&self, count: u32) -> bool
        requires { (1 ≤ count) × (count ≤ 32) }
        ensures value { result ≡ not (is_empty (runs self.now.unhidden count)) }
        ensures table { IsTable self.now }
    {
        for group in (0..self.groups()).rev() {
            if self.begins_in(group, count) {
                return true;
            }
        }
        false
    }

    /// So many free blocks, those of least rank, in the order of their ranks. The placement is asked for the rank of
    /// every free block in a group of 256 that may hold one of them (tested). `Short` comes exactly where fewer are
    /// free.
    pub fn choose(&self, placement: &Placement, hint: u32, count: u32) -> Result<BlockList, Short>
        requires { (1 ≤ count) × (count ≤ 32) }
        /// promise (with counted): Exactly the free blocks of least rank, as many as are wanted, in the order of their
        /// ranks.
        ensures chosen { IfOk result (λ blocks. blocks ≡ chosen placement.now.kind self.now.unhidden hint count) }
        ensures counted { IfOk result (λ blocks. length blocks ≡ count) }
        /// promise (with refused): `Short` comes exactly where fewer blocks are free than are wanted, with both
        /// numbers.
        ensures enough { OnOk result (count ≤ free_count self.now.unhidden) }
        ensures refused { IfErr result (λ s. IsShort self.now.unhidden count s.free s.wanted) }
        ensures table { IsTable self.now }
    {
        let free = self.free_count();
        if free < count {
            return Err(Short {
                free,
                wanted: count,
            });
        }
        Ok(self.least_free(placement, hint, count).blocks())
    }

    /// The first block of a run of so many free blocks: of all such runs, the one whose first block has the least rank.
    /// The placement is asked for the rank of each one's first block in a group that may hold it (tested). `Short`
    /// comes exactly where fewer blocks are free, `NoRun` exactly where enough are and no run is that long.
    pub fn choose_run(
        &self,
        placement: &Placement,
        hint: u32,
        count: u32,
    ) -> Result<u32, RunRefusal>
        requires { (1 ≤ count) × (count ≤ 32) }
        /// promise: The run whose first block has the least rank.
        ensures chosen { IfOk result (λ first. chosen_run placement.now.kind self.now.unhidden hint count
            ≡ Some first) }
        /// promise (with refused): `Short` comes exactly where fewer blocks are free than are wanted, `NoRun` exactly
        /// where enough are and no run is that long, each with both numbers.
        ensures enough { OnOk result (count ≤ free_count self.now.unhidden) }
        ensures refused { IfErr result (IsRunRefusal self.now.unhidden count) }
        ensures table { IsTable self.now }
    {
        let free = self.free_count();
        if free < count {
            return Err(RunRefusal::Short {
                free,
                wanted: count,
            });
        }
        match self.least_run(placement, hint, count).first() {
            Some(first) => Ok(first),
            None => Err(RunRefusal::NoRun {
                free,
                wanted: count,
            }),
        }
    }

    /// So many free blocks of least rank, or all where there are fewer.
    fn least_free(&self, placement: &Placement, hint: u32, count: u32) -> Least
        requires { count ≤ 32 }
        ensures { result.kept.items ≡ least_of (rank_of placement.now.kind hint) count (free_blocks self.now.unhidden) }
    {
        self.least_starts(placement, hint, 1, count)
    }

    /// Where the run of so many free blocks begins whose first block has the least rank.
    fn least_run(&self, placement: &Placement, hint: u32, count: u32) -> Least
        requires { (1 ≤ count) × (count ≤ 32) }
        ensures { result.kept.items ≡ least_of (rank_of placement.now.kind hint) 1 (runs self.now.unhidden count) }
    {
        self.least_starts(placement, hint, count, 1)
    }

    /// Of the blocks where a run of so many free ones begins, so many of least rank, or all where there are fewer. A
    /// ceiling is guessed first, and where enough stand below it, groups whose least rank is above it are passed by.
    fn least_starts(&self, placement: &Placement, hint: u32, run: u32, wanted: u32) -> Least
        requires run { (1 ≤ run) × (run ≤ 32) }
        requires wanted { wanted ≤ 32 }
        ensures { result.kept.items ≡ least_of (rank_of placement.now.kind hint) wanted (runs self.now.unhidden run) }
    {
        let Some(ceiling) = self.ceiling(placement.kind(), hint, run, wanted) else {
            return self.least_within(placement, hint, run, wanted, None);
        };
        let least = self.least_within(placement, hint, run, wanted, Some(ceiling));
        if least.is_full() {
            least
        } else {
            self.least_within(placement, hint, run, wanted, None)
        }
    }

    /// The same of those blocks alone whose rank is at most a ceiling.
    fn least_within(
        &self,
        placement: &Placement,
        hint: u32,
        run: u32,
        wanted: u32,
        ceiling: Option<u64>,
    ) -> Least
        requires run { (1 ≤ run) × (run ≤ 32) }
        requires wanted { wanted ≤ 32 }
        ensures wanted { result.wanted ≡ wanted }
        ensures kept { let rank = rank_of placement.now.kind hint in result.kept.items ≡ least_of rank wanted
            (filter (is_run_within rank self.now.unhidden run ceiling) (all_blocks self.now.unhidden)) }
    {
        let regions = self.stretches().div_ceil(REGION_STRETCHES);
        let mut least = Least::new(wanted as usize);
        for region in (0..regions).rev() {
            let first = REGION_BLOCKS * region;
            let last = first + (REGION_BLOCKS - 1);
            if is_within(ceiling, floor_of(placement.kind(), hint, first, last)) {
                self.offer_region(placement, hint, run, ceiling, region, &mut least);
            }
        }
        least
    }

    /// Offers the blocks of a region where a run of so many free ones begins, if their rank is at most a ceiling.
    fn offer_region(
        &self,
        placement: &Placement,
        hint: u32,
        run: u32,
        ceiling: Option<u64>,
        region: u32,
        least: &mut Least,
    )
        requires run { (1 ≤ run) × (run ≤ 32) }
        requires region { 65536 * region < self.now.geometry.blocks }
        requires few { region < 2 ^ 16 }
        ensures wanted { least.new.wanted ≡ least.old.wanted }
        ensures kept { let rank = rank_of placement.now.kind hint in
            IsKeptFrom rank self.now.unhidden run ceiling least.old.wanted (65536 * (region + 1)) least.old.kept.items
            → IsKeptFrom rank self.now.unhidden run ceiling least.old.wanted (65536 * region) least.new.kept.items }
    {
        let start = REGION_STRETCHES * region;
        let end = self.stretches().min(start + REGION_STRETCHES);
        for stretch in (start..end).rev() {
            let first = STRETCH_BLOCKS * stretch;
            let last = first + (STRETCH_BLOCKS - 1);
            if is_within(ceiling, floor_of(placement.kind(), hint, first, last)) {
                self.offer_stretch(placement, hint, run, ceiling, stretch, least);
            }
        }
    }

    /// Offers the blocks of a stretch where a run of so many free ones begins, if their rank is at most a ceiling.
    fn offer_stretch(
        &self,
        placement: &Placement,
        hint: u32,
        run: u32,
        ceiling: Option<u64>,
        stretch: u32,
        least: &mut Least,
    )
        requires run { (1 ≤ run) × (run ≤ 32) }
        requires stretch { 4096 * stretch < self.now.geometry.blocks }
        requires few { stretch < 2 ^ 20 }
        ensures wanted { least.new.wanted ≡ least.old.wanted }
        ensures kept { let rank = rank_of placement.now.kind hint in
            IsKeptFrom rank self.now.unhidden run ceiling least.old.wanted (4096 * (stretch + 1)) least.old.kept.items
            → IsKeptFrom rank self.now.unhidden run ceiling least.old.wanted (4096 * stretch) least.new.kept.items }
    {
        let first = STRETCH_GROUPS * stretch;
        let end = self.groups().min(first + STRETCH_GROUPS);
        for group in (first..end).rev() {
            if self.may_hold(placement.kind(), hint, run, ceiling, group) {
                self.offer_group(placement, hint, run, ceiling, group, least);
            }
        }
    }

    /// Whether a run of so many free blocks may begin in a group, at a block whose rank is at most a ceiling.
    fn may_hold(
        &self,
        kind: PlaceKind,
        hint: u32,
        run: u32,
        ceiling: Option<u64>,
        group: u32,
    ) -> bool
        requires run { run ≤ 32 }
        requires group { group < 2 ^ 24 }
        ensures { result ≡ false → (b : ℕ) → 256 * group ≤ b → b < 256 * group + 256
            → is_run_within (rank_of kind hint) self.now.unhidden run ceiling b ≡ false }
    {
        if self.lacks_run(group, run) {
            return false;
        }
        is_within(ceiling, rank(kind, hint, best_of(kind, hint, group)))
    }

    /// Offers the blocks of a group where a run of so many free ones begins, if their rank is at most a ceiling.
    fn offer_group(
        &self,
        placement: &Placement,
        hint: u32,
        run: u32,
        ceiling: Option<u64>,
        group: u32,
        least: &mut Least,
    )
        requires run { (1 ≤ run) × (run ≤ 32) }
        requires group { 256 * group < self.now.geometry.blocks }
        ensures wanted { least.new.wanted ≡ least.old.wanted }
        ensures kept { let rank = rank_of placement.now.kind hint in
            IsKeptFrom rank self.now.unhidden run ceiling least.old.wanted (256 * (group + 1)) least.old.kept.items
            → IsKeptFrom rank self.now.unhidden run ceiling least.old.wanted (256 * group) least.new.kept.items }
    {
        let blocks = self.geometry().blocks;
        let first = GROUP_BLOCKS * group;
        let end = blocks.min(first + GROUP_BLOCKS);
        for block in (first..end).rev() {
            if self.is_run(block, run) {
                let rank = placement.rank(hint, block);
                if is_within(ceiling, rank) {
                    least.offer(Ranked { rank, block });
                }
            }
        }
    }

    /// Whether a run of so many free blocks begins in a group.
    fn begins_in(&self, group: u32, run: u32) -> bool
        requires run { (1 ≤ run) × (run ≤ 32) }
        requires group { 256 * group < self.now.geometry.blocks }
        ensures found { result ≡ true → is_empty (runs self.now.unhidden run) ≡ false }
        ensures none { result ≡ false → (b : ℕ) → 256 * group ≤ b → b < 256 * group + 256
            → is_free_run self.now.unhidden run b ≡ false }
    {
        if self.lacks_run(group, run) {
            return false;
        }
        let blocks = self.geometry().blocks;
        let first = GROUP_BLOCKS * group;
        let end = blocks.min(first + GROUP_BLOCKS);
        for block in (first..end).rev() {
            if self.is_run(block, run) {
                return true;
            }
        }
        false
    }

    /// Whether so many blocks from a block on are free.
    fn is_run(&self, block: u32, run: u32) -> bool
        requires block { block < self.now.geometry.blocks }
        requires run { run ≤ 32 }
        ensures { result ≡ is_free_run self.now.unhidden run block }
    {
        let blocks = self.geometry().blocks;
        let end = block + run;
        if end > blocks {
            return false;
        }
        for next in (block..end).rev() {
            if self.is_live(next) {
                return false;
            }
        }
        true
    }

    /// How many groups the disk has, the last of them perhaps with fewer blocks.
    fn groups(&self) -> u32
        ensures few { result < 2 ^ 24 }
        ensures table { IsTable self.now }
        ensures last { self.now.geometry.blocks ≤ 256 * result }
        ensures within { (g : ℕ) → g < result → 256 * g < self.now.geometry.blocks }
    {
        self.geometry().blocks.div_ceil(GROUP_BLOCKS)
    }

    /// How many stretches the disk has, the last of them perhaps with fewer groups.
    fn stretches(&self) -> u32
        ensures few { result ≤ 2 ^ 20 }
        ensures table { IsTable self.now }
        ensures last { self.now.geometry.blocks ≤ 4096 * result }
        ensures within { (s : ℕ) → s < result → 4096 * s < self.now.geometry.blocks }
    {
        self.groups().div_ceil(STRETCH_GROUPS)
    }
}

impl LiveMap {
    /// A rank up to which so many blocks stand where a run of so many free ones begins: a guess, so a wrong one costs
    /// time alone. None where there are fewer.
    fn ceiling(&self, kind: PlaceKind, hint: u32, run: u32, wanted: u32) -> Option<u64>
        requires { run ≤ 32 }
    {
        let groups = self.groups();
        let mut found = Found {
            left: wanted,
            ceiling: 0,
        };
        for turn in 0..turns(kind, groups) {
            let group = group_at(kind, hint, groups, turn);
            if group < groups && !self.lacks_run(group, run) {
                self.find_in(kind, hint, run, group, &mut found);
            }
            if found.left == 0 {
                return Some(found.ceiling);
            }
        }
        None
    }

    /// Finds blocks of a group where a run of so many free ones begins, as many as are left to be found, from the one
    /// on at which a guess begins.
    fn find_in(&self, kind: PlaceKind, hint: u32, run: u32, group: u32, found: &mut Found)
        requires run { run ≤ 32 }
        requires group { 256 * group < self.now.geometry.blocks }
    {
        let blocks = self.geometry().blocks;
        let end = blocks.min(GROUP_BLOCKS * group + GROUP_BLOCKS);
        for block in start_of(kind, hint, group)..end {
            if found.left == 0 {
                return;
            }
            if self.is_run(block, run) {
                found.left -= 1;
                found.ceiling = found.ceiling.max(rank(kind, hint, block));
            }
        }
    }
}
