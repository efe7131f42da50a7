//! New blocks.

ghost use Rattle.std.specs.Prelude.{◌≡◌, ◌⊎◌, ℕ, List, [], ◌+◌, ◌*◌, ◌<◌, ◌≤◌, true, false, length};
ghost use Rattle.std.specs.Prelude.{slice_get, Some, OnOk, OnErr};
ghost use Rattle.tsd_model.specs.Step.{with_new_blocks};
ghost use Rattle.tsd_model.specs.World.{is_live, is_free};
ghost use Rattle.image_device.specs.Calls.{Uses};
ghost use Rattle.image_device.specs.Counts.{CountsFault};
ghost use Rattle.intent_journal.specs.Ring.{checkpoint_writes};
ghost use Rattle.volume_laws.specs.Operations.{IsOperation, IsWithin};
ghost use Rattle.volume_laws.specs.Volume.{IsVolumeAt, IsVolumeReady, told_by, world_on};
ghost use Rattle.volume_laws.specs.Writes.{batch_cost, due, zeroed_cost};
ghost use Rattle.volume_laws.specs.Moments.{LeavesWorld, LeavesOwed};
ghost use Rattle.image_world.specs.Debt.{owed};
ghost use Rattle.volume_laws.specs.Growing.{AreFree};
ghost use Rattle.intent_journal.specs.Records.{JournalRecord, patches_of};
ghost use Rattle.volume_laws.specs.Data.{KeepsData};
ghost use Rattle.volume_laws.specs.Rings.{HasBatch, HasBatches, HasNewBlocks};
ghost use Rattle.volume_laws.specs.Zeroed.{IsZeroedAt, AreMissed};
ghost use Rattle.image_world.specs.Tables.{pairs_of};

use crate::volume::Volume;
use image_device::{Device, Failed};
use image_layout::Layout;
use tsd_model::BlockList;
use volume_changes::{holds_data, put_new, zero_blocks};

impl Volume {
    /// Makes free blocks live, with zeros in them and a pointer to each from a source. What is doomed is reclaimed
    /// first, so that nothing is doomed afterwards. `Failed` comes only where the device's count of faults rose; the
    /// volume is then spent.
    pub fn allocate<D: Device>(
        &mut self,
        dev: &mut D,
        source: u32,
        blocks: &BlockList,
    ) -> Result<(), Failed>
        requires source { is_live (told_by self.old) source ≡ true }
        requires count { (1 ≤ length blocks.now) × (length blocks.now ≤ 32) }
        requires free { (i b : ℕ) → slice_get blocks.now i ≡ Some b → is_free (told_by self.old) b ≡ true }
        requires apart { (i j b : ℕ) → slice_get blocks.now i ≡ Some b → slice_get blocks.now j ≡ Some b
            → i ≡ j }
        requires room { length (told_by self.old).pairs + length blocks.now ≤ self.old.tables.geometry.slots }
        requires ready { IsVolumeReady self.old }
        requires unspent { self.old.is_spent ≡ false }
        requires at { D.told → IsVolumeAt self.old (D.view dev.old) }
        /// promise (with cost): As for `write_block`; in the world afterwards these blocks are live, with zeros in them
        /// and a pointer to each from the source.
        ensures operation { IsOperation D.told blocks.now (λ w. with_new_blocks w source blocks.now) self.old self.new
            (D.view dev.old) (D.view dev.new) result }
        ensures cost { IsWithin D.told (owed self.old.tables) (zeroed_cost self.old.tables.geometry
            (length blocks.now)) (due self.old + zeroed_cost self.old.tables.geometry (length blocks.now)) self.old
            self.new (D.view dev.old) (D.view dev.new) result }

        // Behind the records of what was reclaimed comes one batch; the journal is emptied before it only where it
        // holds a sector of these blocks, or has no room.
        /// promise: One batch comes after the records of what was reclaimed; the journal is emptied before it only
        /// where it holds a sector of the new blocks, or has no room.
        ensures ring { OnOk result ((mid : List JournalRecord) × HasBatches (owed self.old.tables) 33 self.old.ring mid
            × HasNewBlocks self.old.tables.geometry blocks.now mid self.new.ring) }

        ensures version { self.new.tables.version ≡ self.old.tables.version }
        ensures told { OnOk result (told_by self.new ≡ with_new_blocks (told_by self.old) source blocks.now) }
        /// promise: What is doomed is reclaimed first: nothing is doomed afterwards.
        ensures settled { OnOk result (owed self.new.tables ≡ 0) }
        ensures ready { OnOk result (IsVolumeReady self.new) }
    {
        self.settle_all(dev)?;
        self.grow(dev, source, blocks.as_slice())
    }
}

impl Volume {
    /// Makes free blocks live whose sectors have zeros, with a pointer to each from a source, where nothing is doomed.
    fn add_blocks<D: Device>(
        &mut self,
        dev: &mut D,
        source: u32,
        blocks: &[u32],
    ) -> Result<(), Failed>
        requires source { is_live (told_by self.old) source ≡ true }
        requires most { length blocks.now ≤ 32 }
        requires free { AreFree self.old.tables.live self.old.tables.geometry.blocks blocks.now }
        requires room { length (pairs_of self.old.tables) + length blocks.now ≤ self.old.tables.geometry.slots }
        requires settled { owed self.old.tables ≡ 0 }
        requires ready { IsVolumeReady self.old }
        requires at { D.told → IsZeroedAt self.old (D.view dev.old) blocks.now }
        ensures operation { IsOperation D.told blocks.now (λ w. with_new_blocks w source blocks.now) self.old self.new
            (D.view dev.old) (D.view dev.new) result }
        ensures cost { IsWithin D.told (owed self.old.tables) (batch_cost (3 * length blocks.now)) (checkpoint_writes
            self.old.ring + batch_cost (3 * length blocks.now)) self.old self.new (D.view dev.old)
            (D.view dev.new) result }
        ensures ring { OnOk result (HasBatch (3 * length blocks.now) self.old.ring self.new.ring) }
        ensures version { self.new.tables.version ≡ self.old.tables.version }
        ensures told { OnOk result (told_by self.new ≡ with_new_blocks (told_by self.old) source blocks.now) }
        ensures settled { OnOk result (owed self.new.tables ≡ 0) }
        ensures ready { OnOk result (IsVolumeReady self.new) }
    {
        self.batch.clear();
        put_new(
            &mut self.batch,
            &mut self.pointers,
            &mut self.counts,
            &mut self.live,
            source,
            blocks,
        );
        self.ahead.raise_all(blocks);
        let outcome = self.ring.commit(dev, &self.batch);
        self.is_spent = outcome.is_err();
        outcome
    }
}

impl Volume {
    /// Empties the journal where it holds a data sector of these blocks: an older body could be replayed over what is
    /// written.
    fn make_way<D: Device>(&mut self, dev: &mut D, blocks: &[u32]) -> Result<(), Failed>
        requires free { AreFree self.old.tables.live self.old.tables.geometry.blocks blocks.now }
        requires unspent { self.old.is_spent ≡ false }
        requires at { D.told → IsVolumeAt self.old (D.view dev.old) }
        ensures operation { IsOperation D.told [] (λ w. w) self.old self.new (D.view dev.old) (D.view dev.new) result }
        ensures cost { IsWithin D.told (owed self.old.tables) 0 (checkpoint_writes self.old.ring) self.old self.new
            (D.view dev.old) (D.view dev.new) result }
        ensures way { OnOk result ((self.new.ring ≡ self.old.ring) ⊎ ((self.new.ring ≡ [])
            × ¬ AreMissed self.old.tables.geometry (patches_of self.old.ring) blocks.now)) }
        ensures version { self.new.tables.version ≡ self.old.tables.version }
        ensures same { OnOk result (self.new ≡ record self.old { ring = self.new.ring }) }
        ensures missed { OnOk result (AreMissed self.old.tables.geometry (patches_of self.new.ring) blocks.now) }
    {
        if holds_data(&self.ring, &Layout::of(&self.header.geometry), blocks) {
            self.empty_ring(dev)
        } else {
            Ok(())
        }
    }

    /// Writes zeros to the data sectors of free blocks that the journal doesn't hold. What they hold doesn't matter
    /// yet.
    fn zero_new<D: Device>(&mut self, dev: &mut D, blocks: &[u32]) -> Result<(), Failed>
        requires free { AreFree self.old.tables.live self.old.tables.geometry.blocks blocks.now }
        requires missed { AreMissed self.old.tables.geometry (patches_of self.old.ring) blocks.now }
        requires unspent { self.old.is_spent ≡ false }
        requires at { D.told → IsVolumeAt self.old (D.view dev.old) }
        ensures zeroed { D.told → OnOk result (IsZeroedAt self.new (D.view dev.new) blocks.now) }
        ensures done { D.told → OnOk result (world_on (D.view dev.new) ≡ world_on (D.view dev.old)) }
        ensures same { OnOk result (self.new ≡ self.old) }
        ensures spent { OnErr result (self.new.is_spent ≡ true) }
        ensures size { (self.new.tables.geometry ≡ self.old.tables.geometry)
            × (self.new.tables.version ≡ self.old.tables.version) }
        ensures sent { D.told → (D.view dev.new).sent ≡ (D.view dev.old).sent }
        ensures data_kept { D.told → KeepsData self.old.tables.geometry blocks.now (D.view dev.old) (D.view dev.new)
            result }
        ensures any_moment { D.told → LeavesWorld (D.view dev.old) (D.view dev.new) }
        ensures any_owed { D.told → LeavesOwed (D.view dev.old) (D.view dev.new) (owed self.old.tables) }
        ensures uses { Uses (self.old.tables.geometry.sectors * length blocks.now) (D.view dev.old) (D.view dev.new) }
        ensures faults { CountsFault result (D.view dev.old).faults (D.view dev.new).faults }
    {
        let outcome = zero_blocks(dev, &Layout::of(&self.header.geometry), blocks);
        self.is_spent = outcome.is_err();
        outcome
    }

    /// Makes free blocks live, with zeros in them and a pointer to each from a source, where nothing is doomed.
    fn grow<D: Device>(&mut self, dev: &mut D, source: u32, blocks: &[u32]) -> Result<(), Failed>
        requires source { is_live (told_by self.old) source ≡ true }
        requires most { length blocks.now ≤ 32 }
        requires free { AreFree self.old.tables.live self.old.tables.geometry.blocks blocks.now }
        requires room { length (pairs_of self.old.tables) + length blocks.now ≤ self.old.tables.geometry.slots }
        requires settled { owed self.old.tables ≡ 0 }
        requires ready { IsVolumeReady self.old }
        requires unspent { self.old.is_spent ≡ false }
        requires at { D.told → IsVolumeAt self.old (D.view dev.old) }
        ensures operation { IsOperation D.told blocks.now (λ w. with_new_blocks w source blocks.now) self.old self.new
            (D.view dev.old) (D.view dev.new) result }
        ensures cost { IsWithin D.told (owed self.old.tables) (zeroed_cost self.old.tables.geometry
            (length blocks.now)) (checkpoint_writes self.old.ring + zeroed_cost self.old.tables.geometry
            (length blocks.now)) self.old self.new (D.view dev.old) (D.view dev.new) result }
        ensures ring { OnOk result (HasNewBlocks self.old.tables.geometry blocks.now self.old.ring self.new.ring) }
        ensures version { self.new.tables.version ≡ self.old.tables.version }
        ensures told { OnOk result (told_by self.new ≡ with_new_blocks (told_by self.old) source blocks.now) }
        ensures settled { OnOk result (owed self.new.tables ≡ 0) }
        ensures ready { OnOk result (IsVolumeReady self.new) }
    {
        self.make_way(dev, blocks)?;
        self.zero_new(dev, blocks)?;
        self.add_blocks(dev, source, blocks)
    }
}
