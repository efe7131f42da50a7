//! Reclaiming the unreached blocks, to which no primary block leads.

ghost use Rattle.std.specs.Prelude.{◌≡◌, [], ◌+◌, ◌-◌, ◌*◌, ◌<◌, ◌≤◌, true, false, OnOk, IfOk};
ghost use Rattle.tsd_model.specs.Reach.{swept};
ghost use Rattle.tsd_model.specs.World.{World, free_count};
ghost use Rattle.graph_laws.specs.Graph.{HasGraphOf};
ghost use Rattle.image_device.specs.Calls.{Uses};
ghost use Rattle.intent_journal.specs.Ring.{checkpoint_writes};
ghost use Rattle.volume.specs.Sweeping.{sweep_cost, swept_size, taken_cost, unswept};
ghost use Rattle.image_world.specs.Debt.{graph_in, owed};
ghost use Rattle.volume_laws.specs.Operations.{IsOperation};
ghost use Rattle.volume_laws.specs.Volume.{IsVolumeAt, IsVolumeReady, told_by};
ghost use Rattle.volume_laws.specs.Writes.{batch_cost, due, IsPaid};

use crate::volume::Volume;
use cycle_sweep::{mark, next_sweep_step};
use image_device::{Device, Failed};
use image_layout::gate_bytes;
use image_layout::sectors::SWEEP_FLAG;
use reclaim::OutStep;
use volume_changes::put_step;

impl Volume {
    /// Reclaims the blocks that aren't reached from a primary block, and tells how many became free. What is doomed is
    /// reclaimed first. `Failed` comes only where the device's count of faults rose; the volume is then spent.
    pub fn sweep<D: Device>(&mut self, dev: &mut D) -> Result<u32, Failed>
        requires ready { IsVolumeReady self.old }
        requires unspent { self.old.is_spent ≡ false }
        requires at { D.told → IsVolumeAt self.old (D.view dev.old) }
        /// promise: As for `write_block`; the world afterwards is the swept one, and every image on the way stands for
        /// the one or the other.
        ensures operation { IsOperation D.told [] swept self.old self.new (D.view dev.old) (D.view dev.new) result }
        ensures version { self.new.tables.version ≡ self.old.tables.version }
        ensures told { OnOk result (told_by self.new ≡ swept (told_by self.old)) }
        ensures count { IfOk result (λ count. count ≡ free_count (told_by self.new) - free_count (told_by self.old)) }
        ensures settled { OnOk result (owed self.new.tables ≡ 0) }
        ensures ready { OnOk result (IsVolumeReady self.new) }

        // At most 7 writes for each block and pair that it takes away, and 10 for its flag, beside what was due.
        /// promise (with uses): At most 7 writes for each block and pair that it takes away and 10 for its flag, beside
        /// what was due.
        ensures paid { OnOk result (IsPaid (sweep_cost (told_by self.old)) self.old (D.view dev.old) self.new
            (D.view dev.new)) }
        ensures uses { Uses (due self.old + sweep_cost (told_by self.old)) (D.view dev.old) (D.view dev.new) }
    {
        self.settle_doomed(dev)?;
        let before = self.raw_free_count();
        self.begin_sweep(dev)?;
        self.end_open_sweep(dev)?;
        self.make_ready();
        Ok(self.raw_free_count() - before)
    }

    /// Opens the sweep flag. Nothing is doomed.
    fn begin_sweep<D: Device>(&mut self, dev: &mut D) -> Result<(), Failed>
        requires still { self.old.tables.is_sweeping ≡ false }
        requires none { owed self.old.tables ≡ 0 }
        requires at { D.told → IsVolumeAt self.old (D.view dev.old) }
        ensures operation { IsOperation D.told [] swept self.old self.new (D.view dev.old) (D.view dev.new) result }
        ensures version { self.new.tables.version ≡ self.old.tables.version }
        ensures told { OnOk result (told_by self.new ≡ swept (told_by self.old)) }
        ensures sweeping { self.new.tables.is_sweeping ≡ true }
        ensures unready { self.new.is_ready ≡ false }
        ensures left { OnOk result (unswept self.new.tables ≡ swept_size (told_by self.old)) }
        ensures paid { OnOk result ((D.view dev.new).writes + checkpoint_writes self.new.ring
            ≤ (D.view dev.old).writes + checkpoint_writes self.old.ring + batch_cost 1) }
        ensures uses { Uses (checkpoint_writes self.old.ring + batch_cost 1) (D.view dev.old) (D.view dev.new) }
    {
        self.is_ready = false;
        self.is_sweeping = true;
        self.batch.clear();
        let _ = self.batch.put(SWEEP_FLAG, &gate_bytes(true));
        let outcome = self.ring.commit(dev, &self.batch);
        self.is_spent = outcome.is_err();
        outcome
    }
}

impl Volume {
    /// Makes all steps of a sweep that are left, and closes the sweep flag.
    pub(crate) fn end_open_sweep<D: Device>(&mut self, dev: &mut D) -> Result<(), Failed>
        requires sweeping { self.old.tables.is_sweeping ≡ true }
        requires unready { self.old.is_ready ≡ false }
        requires unspent { self.old.is_spent ≡ false }
        requires at { D.told → IsVolumeAt self.old (D.view dev.old) }
        ensures operation { IsOperation D.told [] (λ w. w) self.old self.new (D.view dev.old) (D.view dev.new) result }
        ensures version { self.new.tables.version ≡ self.old.tables.version }
        ensures told { OnOk result (told_by self.new ≡ told_by self.old) }
        ensures settled { OnOk result (owed self.new.tables ≡ 0) }
        ensures still { OnOk result (self.new.tables.is_sweeping ≡ false) }
        ensures unready { self.new.is_ready ≡ false }
        ensures paid { OnOk result ((D.view dev.new).writes + due self.new ≤ (D.view dev.old).writes
            + (checkpoint_writes self.old.ring + taken_cost * unswept self.old.tables + batch_cost 1)) }
        ensures uses { Uses (checkpoint_writes self.old.ring + taken_cost * unswept self.old.tables + batch_cost 1)
            (D.view dev.old) (D.view dev.new) }
    {
        self.make_sweep_steps(dev)?;
        self.close_flag(dev)?;
        Ok(())
    }

    /// Closes the sweep flag. Each live block is reached.
    fn close_flag<D: Device>(&mut self, dev: &mut D) -> Result<(), Failed>
        requires sweeping { self.old.tables.is_sweeping ≡ true }
        requires whole { (r : World) → HasGraphOf (graph_in self.old.tables) r → swept r ≡ r }
        requires unready { self.old.is_ready ≡ false }
        requires at { D.told → IsVolumeAt self.old (D.view dev.old) }
        ensures operation { IsOperation D.told [] (λ w. w) self.old self.new (D.view dev.old) (D.view dev.new) result }
        ensures version { self.new.tables.version ≡ self.old.tables.version }
        ensures told { OnOk result (told_by self.new ≡ told_by self.old) }
        ensures settled { OnOk result (owed self.new.tables ≡ 0) }
        ensures still { OnOk result (self.new.tables.is_sweeping ≡ false) }
        ensures unready { self.new.is_ready ≡ false }
        ensures paid { OnOk result ((D.view dev.new).writes + due self.new
            ≤ (D.view dev.old).writes + checkpoint_writes self.old.ring + batch_cost 1) }
        ensures uses { Uses (checkpoint_writes self.old.ring + batch_cost 1) (D.view dev.old) (D.view dev.new) }
    {
        self.is_sweeping = false;
        self.batch.clear();
        let _ = self.batch.put(SWEEP_FLAG, &gate_bytes(false));
        let outcome = self.ring.commit(dev, &self.batch);
        self.is_spent = outcome.is_err();
        outcome
    }

    /// Makes all steps of a sweep that are left, each in one batch. What is reached stays the same through them, so it
    /// is marked once.
    fn make_sweep_steps<D: Device>(&mut self, dev: &mut D) -> Result<(), Failed>
        requires sweeping { self.old.tables.is_sweeping ≡ true }
        requires unready { self.old.is_ready ≡ false }
        requires unspent { self.old.is_spent ≡ false }
        requires at { D.told → IsVolumeAt self.old (D.view dev.old) }
        ensures operation { IsOperation D.told [] (λ w. w) self.old self.new (D.view dev.old) (D.view dev.new) result }
        ensures version { self.new.tables.version ≡ self.old.tables.version }
        ensures told { OnOk result (told_by self.new ≡ told_by self.old) }
        ensures whole { OnOk result ((r : World) → HasGraphOf (graph_in self.new.tables) r → swept r ≡ r) }
        ensures sweeping { OnOk result (self.new.tables.is_sweeping ≡ true) }
        ensures unready { self.new.is_ready ≡ false }
        ensures paid { OnOk result ((D.view dev.new).writes + checkpoint_writes self.new.ring
            ≤ (D.view dev.old).writes + (checkpoint_writes self.old.ring + taken_cost * unswept self.old.tables)) }
        ensures uses { Uses (checkpoint_writes self.old.ring + taken_cost * unswept self.old.tables) (D.view dev.old)
            (D.view dev.new) }
    {
        let primaries = self.header.geometry.primaries;
        mark(&self.pointers, &self.live, primaries, &mut self.marks);
        while let Some(step) = next_sweep_step(
            &self.pointers,
            &self.counts,
            &self.live,
            &mut self.marks,
        ) {
            self.batch.clear();
            put_step(
                &mut self.batch,
                &mut self.pointers,
                &mut self.counts,
                &mut self.live,
                &step,
            );
            let outcome = self.ring.commit(dev, &self.batch);
            self.is_spent = outcome.is_err();
            outcome?;
        }
        Ok(())
    }
}
