//! Emptying the journal.

ghost use Rattle.std.specs.Prelude.{◌≡◌, [], false, OnOk};
ghost use Rattle.intent_journal.specs.Records.{AreClosed};
ghost use Rattle.intent_journal.specs.Home.{AgreeBut, home, is_journal};
ghost use Rattle.intent_journal.specs.Ring.{checkpoint_writes};
ghost use Rattle.volume_laws.specs.Operations.{IsOperation, IsWithin};
ghost use Rattle.volume_laws.specs.Volume.{IsVolumeAt};
ghost use Rattle.image_world.specs.Debt.{owed};

use crate::volume::Volume;
use image_device::{Device, Failed};

impl Volume {
    /// Puts all records of the journal in place and closes its gates. `Failed` comes only where the device's count of
    /// faults rose; the volume is then spent.
    pub fn empty_ring<D: Device>(&mut self, dev: &mut D) -> Result<(), Failed>
        requires unspent { self.old.is_spent ≡ false }
        requires at { D.told → IsVolumeAt self.old (D.view dev.old) }
        /// promise (with placed, same, closed): All records are in place and all gates of the journal closed; nothing
        /// else of the volume or of the sectors changes.
        ensures operation { IsOperation D.told [] (λ w. w) self.old self.new (D.view dev.old) (D.view dev.new) result }
        ensures cost { IsWithin D.told (owed self.old.tables) 0 (checkpoint_writes self.old.ring) self.old self.new
            (D.view dev.old) (D.view dev.new) result }
        ensures version { self.new.tables.version ≡ self.old.tables.version }
        ensures same { OnOk result (self.new ≡ record self.old { ring = [] }) }
        ensures placed { D.told → OnOk result (AgreeBut is_journal (home (D.view dev.old).reads)
            (D.view dev.new).reads) }
        ensures closed { D.told → OnOk result (AreClosed (D.view dev.new).reads) }
    {
        let outcome = self.ring.checkpoint(dev);
        self.is_spent = outcome.is_err();
        outcome
    }
}
