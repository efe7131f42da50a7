//! Reclaiming what is doomed.

ghost use Rattle.std.specs.Prelude.{◌≡◌, [], length, ◌⊎◌, ◌↔◌, ◌+◌, ◌-◌, ◌≤◌, ◌<◌, ◌*◌};
ghost use Rattle.std.specs.Prelude.{true, false, OnOk, IfOk, IfSome, IsTrue, IsNone};
ghost use Rattle.image_device.specs.Calls.{Uses};
ghost use Rattle.intent_journal.specs.Ring.{checkpoint_writes};
ghost use Rattle.volume_laws.specs.Operations.{IsOperation, IsWithin};
ghost use Rattle.volume_laws.specs.Rings.{HasBatch, HasBatches};
ghost use Rattle.volume_laws.specs.Volume.{IsVolumeAt, IsVolumeReady, told_by};
ghost use Rattle.volume_laws.specs.Writes.{batch_cost, due};
ghost use Rattle.tsd_model.specs.Doomed.{doomed};
ghost use Rattle.image_world.specs.Debt.{graph_in, owed};
ghost use Rattle.volume_laws.specs.Graphs.{IsStepNext};

use crate::volume::Volume;
use image_device::{Device, Failed};
use reclaim::{OutStep, find_step};
use volume_changes::{note_step, put_step};

/// How many steps of reclamation one call of `settle_some` makes at most.
const STEPS: u32 = 4;

impl Volume {
    /// Makes four steps of reclamation, or as many as are left. Answers whether doomed blocks remain. `Failed` comes
    /// only where the device's count of faults rose; the volume is then spent.
    pub fn settle_some<D: Device>(&mut self, dev: &mut D) -> Result<bool, Failed>
        requires ready { IsVolumeReady self.old }
        requires unspent { self.old.is_spent ≡ false }
        requires at { D.told → IsVolumeAt self.old (D.view dev.old) }
        /// promise (with told): The world stays.
        ensures operation { IsOperation D.told [] (λ w. w) self.old self.new (D.view dev.old) (D.view dev.new) result }
        ensures cost { IsWithin D.told (owed self.old.tables) 0 (due self.old) self.old self.new (D.view dev.old)
            (D.view dev.new) result }
        ensures version { self.new.tables.version ≡ self.old.tables.version }
        ensures told { OnOk result (told_by self.new ≡ told_by self.old) }
        /// promise (with few_blocks, few, ring): Four steps are made, or as many as are left, and no more: at most four
        /// blocks, 64 pairs from them, and four batches.
        ensures steps { OnOk result ((owed self.new.tables + 4 ≤ owed self.old.tables)
            ⊎ (owed self.new.tables ≡ 0)) }
        ensures few { OnOk result (owed self.old.tables ≤ owed self.new.tables + 68) }
        ensures few_blocks { OnOk result (length (doomed (graph_in self.old.tables))
            ≤ length (doomed (graph_in self.new.tables)) + 4) }
        ensures ring { OnOk result (HasBatches 4 33 self.old.ring self.new.ring) }
        /// promise: Whether steps are left.
        ensures more { IfOk result (λ more. IsTrue more ↔ (0 < owed self.new.tables)) }
        ensures ready { OnOk result (IsVolumeReady self.new) }
        ensures uses { Uses (checkpoint_writes self.old.ring + 4 * batch_cost 33) (D.view dev.old) (D.view dev.new) }
    {
        for _step in 0..STEPS {
            if !self.settle_step(dev)? {
                return Ok(false);
            }
        }
        Ok(self.is_owed())
    }

    /// Makes one step of reclamation, if one is left; whether it did. It commits one batch of at most 33 homes.
    /// `Failed` comes only where the device's count of faults rose; the volume is then spent.
    pub fn settle_one<D: Device>(&mut self, dev: &mut D) -> Result<bool, Failed>
        requires ready { IsVolumeReady self.old }
        requires unspent { self.old.is_spent ≡ false }
        requires at { D.told → IsVolumeAt self.old (D.view dev.old) }
        /// promise (with ring, lowered, none): One step of reclamation in one batch, if one is left; the world stays.
        ensures operation { IsOperation D.told [] (λ w. w) self.old self.new (D.view dev.old) (D.view dev.new) result }
        ensures cost { IsWithin D.told (owed self.old.tables) 0 (due self.old) self.old self.new (D.view dev.old)
            (D.view dev.new) result }
        ensures version { self.new.tables.version ≡ self.old.tables.version }
        ensures told { OnOk result (told_by self.new ≡ told_by self.old) }
        ensures ring { OnOk result (HasBatch 33 self.old.ring self.new.ring) }
        ensures lowered { IfOk result (λ some. some ≡ true → owed self.new.tables < owed self.old.tables) }
        ensures none { IfOk result (λ some. some ≡ false → owed self.new.tables ≡ 0) }
        ensures ready { OnOk result (IsVolumeReady self.new) }
        ensures used { OnOk result ((D.view dev.new).writes + checkpoint_writes self.new.ring
            ≤ (D.view dev.old).writes + checkpoint_writes self.old.ring + batch_cost 33) }
        ensures uses { Uses (checkpoint_writes self.old.ring + batch_cost 33) (D.view dev.old) (D.view dev.new) }
    {
        self.settle_step(dev)
    }

    /// Makes all steps of reclamation that are left. `Failed` comes only where the device's count of faults rose; the
    /// volume is then spent.
    pub fn settle_all<D: Device>(&mut self, dev: &mut D) -> Result<(), Failed>
        requires ready { IsVolumeReady self.old }
        requires unspent { self.old.is_spent ≡ false }
        requires at { D.told → IsVolumeAt self.old (D.view dev.old) }
        /// promise (with settled): All steps that are left; the world stays, and nothing is doomed afterwards.
        ensures operation { IsOperation D.told [] (λ w. w) self.old self.new (D.view dev.old) (D.view dev.new) result }
        ensures cost { IsWithin D.told (owed self.old.tables) 0 (due self.old) self.old self.new (D.view dev.old)
            (D.view dev.new) result }
        ensures version { self.new.tables.version ≡ self.old.tables.version }
        ensures told { OnOk result (told_by self.new ≡ told_by self.old) }
        ensures ring { OnOk result (HasBatches (owed self.old.tables) 33 self.old.ring self.new.ring) }
        ensures settled { OnOk result (owed self.new.tables ≡ 0) }
        ensures ready { OnOk result (IsVolumeReady self.new) }
    {
        self.settle_doomed(dev)
    }
}

impl Volume {
    /// Makes a step of reclamation, in one batch.
    fn make_step<D: Device>(&mut self, dev: &mut D, step: &OutStep) -> Result<(), Failed>
        requires next { IsStepNext self.old.tables step.now }
        requires still { self.old.tables.is_sweeping ≡ false }
        requires at { D.told → IsVolumeAt self.old (D.view dev.old) }
        ensures operation { IsOperation D.told [] (λ w. w) self.old self.new (D.view dev.old) (D.view dev.new) result }
        ensures cost { IsWithin D.told (owed self.old.tables) 0 (due self.old) self.old self.new (D.view dev.old)
            (D.view dev.new) result }
        ensures ring { OnOk result (HasBatch 33 self.old.ring self.new.ring) }
        ensures few { OnOk result (owed self.old.tables ≤ owed self.new.tables + 17) }
        ensures few_blocks { OnOk result (length (doomed (graph_in self.old.tables))
            ≤ length (doomed (graph_in self.new.tables)) + 1) }
        ensures version { self.new.tables.version ≡ self.old.tables.version }
        ensures told { OnOk result (told_by self.new ≡ told_by self.old) }
        ensures lowered { OnOk result (owed self.new.tables < owed self.old.tables) }
        ensures still { OnOk result (self.new.tables.is_sweeping ≡ false) }
        ensures same_ready { self.new.is_ready ≡ self.old.is_ready }
        ensures used { OnOk result ((D.view dev.new).writes + checkpoint_writes self.new.ring
            ≤ (D.view dev.old).writes + checkpoint_writes self.old.ring + batch_cost 33) }
        ensures uses { Uses (checkpoint_writes self.old.ring + batch_cost 33) (D.view dev.old) (D.view dev.new) }
    {
        self.batch.clear();
        put_step(
            &mut self.batch,
            &mut self.pointers,
            &mut self.counts,
            &mut self.live,
            step,
        );
        note_step(&mut self.ahead, self.is_ready, step);
        self.guesses
            .push_uncounted(&self.counts, step.targets.as_slice());
        let outcome = self.ring.commit(dev, &self.batch);
        self.is_spent = outcome.is_err();
        outcome
    }
}

impl Volume {
    /// Makes a step of reclamation, if one is left. Answers whether there was one.
    fn settle_step<D: Device>(&mut self, dev: &mut D) -> Result<bool, Failed>
        requires still { self.old.tables.is_sweeping ≡ false }
        requires unspent { self.old.is_spent ≡ false }
        requires at { D.told → IsVolumeAt self.old (D.view dev.old) }
        ensures operation { IsOperation D.told [] (λ w. w) self.old self.new (D.view dev.old) (D.view dev.new) result }
        ensures cost { IsWithin D.told (owed self.old.tables) 0 (due self.old) self.old self.new (D.view dev.old)
            (D.view dev.new) result }
        ensures ring { OnOk result (HasBatch 33 self.old.ring self.new.ring) }
        ensures idle { IfOk result (λ some. some ≡ false → self.new.ring ≡ self.old.ring) }
        ensures few { OnOk result (owed self.old.tables ≤ owed self.new.tables + 17) }
        ensures few_blocks { OnOk result (length (doomed (graph_in self.old.tables))
            ≤ length (doomed (graph_in self.new.tables)) + 1) }
        ensures version { self.new.tables.version ≡ self.old.tables.version }
        ensures told { OnOk result (told_by self.new ≡ told_by self.old) }
        ensures lowered { IfOk result (λ some. some ≡ true → owed self.new.tables < owed self.old.tables) }
        ensures none { IfOk result (λ some. some ≡ false → owed self.new.tables ≡ 0) }
        ensures still { OnOk result (self.new.tables.is_sweeping ≡ false) }
        ensures same_ready { self.new.is_ready ≡ self.old.is_ready }
        ensures used { OnOk result ((D.view dev.new).writes + checkpoint_writes self.new.ring
            ≤ (D.view dev.old).writes + checkpoint_writes self.old.ring + batch_cost 33) }
        ensures uses { Uses (checkpoint_writes self.old.ring + batch_cost 33) (D.view dev.old) (D.view dev.new) }
    {
        match self.next() {
            Some(step) => {
                self.make_step(dev, &step)?;
                Ok(true)
            }
            None => Ok(false),
        }
    }

    /// Makes all steps of reclamation that are left, whether the volume is ready or not.
    pub(crate) fn settle_doomed<D: Device>(&mut self, dev: &mut D) -> Result<(), Failed>
        requires still { self.old.tables.is_sweeping ≡ false }
        requires unspent { self.old.is_spent ≡ false }
        requires at { D.told → IsVolumeAt self.old (D.view dev.old) }
        ensures operation { IsOperation D.told [] (λ w. w) self.old self.new (D.view dev.old) (D.view dev.new) result }
        ensures cost { IsWithin D.told (owed self.old.tables) 0 (due self.old) self.old self.new (D.view dev.old)
            (D.view dev.new) result }
        ensures version { self.new.tables.version ≡ self.old.tables.version }
        ensures told { OnOk result (told_by self.new ≡ told_by self.old) }
        ensures ring { OnOk result (HasBatches (owed self.old.tables) 33 self.old.ring self.new.ring) }
        ensures settled { OnOk result (owed self.new.tables ≡ 0) }
        ensures still { OnOk result (self.new.tables.is_sweeping ≡ false) }
        ensures same_ready { self.new.is_ready ≡ self.old.is_ready }
    {
        while self.settle_step(dev)? {}
        Ok(())
    }

    /// The next step, if one is left.
    fn next(&mut self) -> Option<OutStep>
        ensures same { self.new ≡ self.old }
        ensures next { IfSome result (λ s. IsStepNext self.old.tables s) }
        ensures none { IsNone result ↔ (owed self.old.tables ≡ 0) }
    {
        if self.is_settled() {
            return None;
        }
        find_step(&self.pointers, &self.counts, &self.live, &mut self.guesses)
    }

    /// Whether a step of reclamation is left.
    pub fn is_owed(&self) -> bool
        requires { IsVolumeReady self.now }
        ensures { IsTrue result ↔ (0 < owed self.now.tables) }
    {
        self.doomed_count() > 0
    }

    /// Whether it is known that no step is left.
    fn is_settled(&self) -> bool
        ensures { result ≡ true → owed self.now.tables ≡ 0 }
    {
        self.is_ready && self.ahead.doomed() == 0
    }
}
