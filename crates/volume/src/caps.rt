//! Capabilities.

ghost use Rattle.std.specs.Prelude.{◌≡◌, [], ◌+◌, ◌<◌, false, OnOk};
ghost use Rattle.tsd_model.specs.Records.{kept};
ghost use Rattle.tsd_model.specs.Step.{with_caps};
ghost use Rattle.intent_journal.specs.Ring.{checkpoint_writes};
ghost use Rattle.volume_laws.specs.Operations.{IsOperation, IsWithin};
ghost use Rattle.volume_laws.specs.Rings.{CommitsOnce};
ghost use Rattle.volume_laws.specs.Volume.{IsVolumeAt, IsVolumeReady, told_by};
ghost use Rattle.volume_laws.specs.Writes.{batch_cost};
ghost use Rattle.image_world.specs.Debt.{owed};

use crate::volume::Volume;
use image_device::{Device, Failed};
use tsd_model::CapPair;

impl Volume {
    /// A primary block has these capabilities from now on. `Failed` comes only where the device's count of faults rose;
    /// the volume is then spent.
    pub fn set_caps<D: Device>(
        &mut self,
        dev: &mut D,
        block: u32,
        caps: &CapPair,
    ) -> Result<(), Failed>
        requires primary { block < self.old.tables.geometry.primaries }
        requires ready { IsVolumeReady self.old }
        requires unspent { self.old.is_spent ≡ false }
        requires at { D.told → IsVolumeAt self.old (D.view dev.old) }
        /// promise (with cost, once): As for `write_block`; the world afterwards has the new pair.
        ensures operation { IsOperation D.told [] (λ w. with_caps w block (kept self.old.tables.version caps.now))
            self.old self.new (D.view dev.old) (D.view dev.new) result }
        ensures cost { IsWithin D.told (owed self.old.tables) (batch_cost 1) (checkpoint_writes
            self.old.ring + batch_cost 1) self.old self.new (D.view dev.old) (D.view dev.new) result }
        ensures once { CommitsOnce 1 self.old self.new (D.view dev.old) (D.view dev.new) result }
        ensures owes { owed self.new.tables ≡ owed self.old.tables }
        ensures version { self.new.tables.version ≡ self.old.tables.version }
        ensures told { OnOk result (told_by self.new ≡ with_caps (told_by self.old) block
            (kept self.old.tables.version caps.now)) }
        ensures ready { OnOk result (IsVolumeReady self.new) }
    {
        self.caps.set(block, caps);
        let patch = self.caps.patch(block);
        self.batch.clear();
        let _ = self.batch.put(patch.sector, &patch.bytes);
        let outcome = self.ring.commit(dev, &self.batch);
        self.is_spent = outcome.is_err();
        outcome
    }
}
