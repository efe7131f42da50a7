//! What a volume tells from memory, by the settled world: what is doomed counts as gone.

ghost use Rattle.std.specs.Prelude.{◌≡◌, ℕ, ◌<◌, ◌≤◌, not, true, length, Some, IfOk, IfErr, OnOk};
ghost use Rattle.tsd_model.specs.Next.{IsNextSource};
ghost use Rattle.tsd_model.specs.Pairs.{holds};
ghost use Rattle.tsd_model.specs.Placing.{runs, chosen, chosen_run};
ghost use Rattle.tsd_model.specs.Attained.{shown_level};
ghost use Rattle.tsd_model.specs.Step.{targets_from};
ghost use Rattle.tsd_model.specs.Valid.{IsSized};
ghost use Rattle.tsd_model.specs.Verdict.{is_empty};
ghost use Rattle.tsd_model.specs.World.{is_live, free_count};
ghost use Rattle.tsd_model.specs.declared.requests.Hint.TheVariants as hint_is;
ghost use Rattle.intent_journal.specs.Ring.{checkpoint_writes};
ghost use Rattle.volume_laws.specs.Volume.{IsVolumeReady, told_by};
ghost use Rattle.volume.specs.Refusals.{IsShort, IsRunRefusal};

use crate::volume::Volume;
use block_alloc::{RunRefusal, Short};
use place_policy::Placement;
use tsd_model::{BlockList, Geometry, Level, Shown};

impl Volume {
    /// How large the disk is.
    pub fn geometry(&self) -> Geometry
        ensures value { result ≡ self.now.tables.geometry }
        ensures told { (told_by self.now).geometry ≡ self.now.tables.geometry }
        ensures version { (told_by self.now).version ≡ self.now.tables.version }
        ensures sized { IsSized (told_by self.now) }
        ensures ends { (a b : ℕ) → holds (told_by self.now).pairs a b ≡ true
            → (is_live (told_by self.now) a ≡ true) × (is_live (told_by self.now) b ≡ true) }

        // So many writes at most put all records of the journal in place.
        ensures ring { checkpoint_writes self.now.ring ≤ 121 }
    {
        let _records = self.ring.records();
        self.header.geometry
    }

    /// The version of the image: 1 keeps capabilities, 2 digests of them.
    pub fn version(&self) -> u32
        ensures { result ≡ self.now.tables.version }
    {
        self.header.version
    }

    /// Whether a block is live.
    pub fn is_live(&self, block: u32) -> bool
        requires inside { block < self.now.tables.geometry.blocks }
        requires ready { IsVolumeReady self.now }
        ensures { result ≡ is_live (told_by self.now) block }
    {
        self.live.is_live(block)
    }

    /// Whether a pointer is held.
    pub fn has(&self, source: u32, target: u32) -> bool
        requires ends { (source < self.now.tables.geometry.blocks) × (target < self.now.tables.geometry.blocks) }
        requires ready { IsVolumeReady self.now }
        ensures { result ≡ holds (told_by self.now).pairs source target }
    {
        let is_held = self.pointers.has(source, target);
        let is_doomed = self.ahead.is_doomed(source);
        is_held && !is_doomed
    }

    /// The least 64 targets of a block's pointers that are not below `start`, ascending.
    pub fn targets_from(&self, source: u32, start: u32) -> BlockList
        requires inside { source < self.now.tables.geometry.blocks }
        requires ready { IsVolumeReady self.now }
        ensures { result ≡ targets_from (told_by self.now).pairs source start }
    {
        if self.ahead.is_doomed(source) {
            BlockList::new()
        } else {
            self.pointers.targets_from(source, start)
        }
    }

    /// The least source of the pointers to a block that is not below `start`.
    pub fn next_source(&self, target: u32, start: u32) -> Option<u32>
        requires inside { target < self.now.tables.geometry.blocks }
        requires ready { IsVolumeReady self.now }
        ensures { IsNextSource (told_by self.now).pairs target start result }
    {
        let mut from = start;
        while let Some(source) = self.pointers.next_source(target, from) {
            if !self.ahead.is_doomed(source) {
                return Some(source);
            }
            from = source + 1;
        }
        None
    }

    /// How many blocks are free.
    pub fn free_count(&self) -> u32
        requires ready { IsVolumeReady self.now }
        ensures { result ≡ free_count (told_by self.now) }
    {
        self.live.free_count()
    }

    /// How many pointers are held.
    pub fn pointers(&self) -> u32
        requires ready { IsVolumeReady self.now }
        ensures { result ≡ length (told_by self.now).pairs }
    {
        self.pointers.len() - self.ahead.doomed_pairs()
    }

    /// Whether so many free blocks stand in a row somewhere.
    pub fn has_run(&self, count: u32) -> bool
        requires count { (1 ≤ count) × (count ≤ 32) }
        requires ready { IsVolumeReady self.now }
        ensures { result ≡ not (is_empty (runs (told_by self.now) count)) }
    {
        self.live.has_run(count)
    }

    /// So many free blocks, those of least rank, in the order of their ranks. `Short` comes exactly where fewer are
    /// free.
    pub fn choose(&self, placement: &Placement, hint: u32, count: u32) -> Result<BlockList, Short>
        requires count { (1 ≤ count) × (count ≤ 32) }
        requires ready { IsVolumeReady self.now }
        ensures chosen { IfOk result (λ blocks. blocks ≡ chosen placement.now.kind (told_by self.now) (hint_is.At hint)
            count) }
        ensures counted { IfOk result (λ blocks. length blocks ≡ count) }
        ensures enough { OnOk result (count ≤ free_count (told_by self.now)) }
        ensures refused { IfErr result (λ s. IsShort (told_by self.now) count s.free s.wanted) }
    {
        self.live.choose(placement, hint, count)
    }

    /// The first block of a run of so many free blocks: of all such runs, the one whose first block has the least rank.
    /// `Short` comes exactly where fewer blocks are free, `NoRun` exactly where enough are and no run is that long.
    pub fn choose_run(
        &self,
        placement: &Placement,
        hint: u32,
        count: u32,
    ) -> Result<u32, RunRefusal>
        requires count { (1 ≤ count) × (count ≤ 32) }
        requires ready { IsVolumeReady self.now }
        ensures chosen { IfOk result (λ first. chosen_run placement.now.kind (told_by self.now) (hint_is.At hint) count
            ≡ Some first) }
        ensures enough { OnOk result (count ≤ free_count (told_by self.now)) }
        ensures refused { IfErr result (IsRunRefusal (told_by self.now) count) }
    {
        self.live.choose_run(placement, hint, count)
    }

    /// The level that a shown capability attains at a primary block.
    pub fn level_shown(&self, block: u32, shown: &Shown) -> Level
        requires primary { block < self.now.tables.geometry.primaries }
        ensures { result ≡ shown_level (told_by self.now) block shown.now }
    {
        self.caps.level_shown(block, shown)
    }
}
