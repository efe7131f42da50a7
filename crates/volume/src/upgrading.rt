//! Upgrading to digests.

ghost use Rattle.std.specs.Prelude.{◌≡◌, ℕ, ◌+◌, ◌≤◌, [], false, OnOk};
ghost use Rattle.tsd_model.specs.Records.{upgraded};
ghost use Rattle.image_device.specs.Image.{zeros};
ghost use Rattle.intent_journal.specs.Records.{AreClosed};
ghost use Rattle.image_device.specs.Runs.{IsConfined};
ghost use Rattle.intent_journal.specs.Home.{AgreeBut, home, is_journal};
ghost use Rattle.intent_journal.specs.Ring.{checkpoint_writes};
ghost use Rattle.volume_laws.specs.Erased.{is_body, HasOnlyDigests};
ghost use Rattle.volume_laws.specs.Operations.{IsOperation, IsWithin};
ghost use Rattle.volume_laws.specs.Rings.{CommitsOnce};
ghost use Rattle.volume_laws.specs.Volume.{IsVolumeAt, IsVolumeReady, told_by};
ghost use Rattle.volume_laws.specs.Writes.{batch_cost};
ghost use Rattle.image_world.specs.Debt.{owed};

use crate::volume::Volume;
use image_device::{Device, Failed};
use image_layout::header::DIGEST_VERSION;
use volume_changes::{erase_bodies, put_upgrade};

impl Volume {
    /// Keeps of each capability only its digest from now on, and erases what the journal held of earlier ones: its
    /// gates are closed, and its bodies read as zeros. A volume of version 2 makes no batch and does the rest. `Failed`
    /// comes only where the device's count of faults rose; the volume is then spent.
    pub fn upgrade<D: Device>(&mut self, dev: &mut D) -> Result<(), Failed>
        requires ready { IsVolumeReady self.old }
        requires unspent { self.old.is_spent ≡ false }
        requires at { D.told → IsVolumeAt self.old (D.view dev.old) }
        /// promise: As for `write_block`; the world afterwards has digests in place of capabilities.
        ensures operation { IsOperation D.told [] upgraded self.old self.new (D.view dev.old) (D.view dev.new) result }
        ensures cost { IsWithin D.told (owed self.old.tables) (batch_cost 3 + 113) (checkpoint_writes
            self.old.ring + batch_cost 3 + 113) self.old self.new (D.view dev.old) (D.view dev.new) result }
        ensures none { self.old.tables.version ≡ 2
            → (D.view dev.new).writes ≤ (D.view dev.old).writes + checkpoint_writes self.old.ring + 113 }
        ensures told { OnOk result (told_by self.new ≡ upgraded (told_by self.old)) }
        /// promise (with stays): Where it was of version 1, the sectors of records then hold the digests and zeros
        /// alone, so that no byte of an earlier capability is left there. Of version 2 all but the journal stays.
        ensures digests { D.told → self.old.tables.version ≡ 1
            → OnOk result (HasOnlyDigests self.new.tables.records (D.view dev.new).reads) }
        ensures stays { D.told → self.old.tables.version ≡ 2
            → OnOk result (AgreeBut is_journal (home (D.view dev.old).reads) (D.view dev.new).reads) }
        /// promise (with closed, erased, none): Afterwards the ring is empty, its gates are closed and its bodies read
        /// as zeros; of version 2 no more is written than that takes.
        ensures ring { OnOk result (self.new.ring ≡ []) }
        ensures closed { D.told → OnOk result (AreClosed (D.view dev.new).reads) }
        ensures erased { D.told → OnOk result ((n : ℕ) → 4 ≤ n → n ≤ 116 → (D.view dev.new).reads n
            ≡ zeros) }
        ensures ready { OnOk result (IsVolumeReady self.new) }
    {
        self.change_version(dev)?;
        self.empty_ring(dev)?;
        self.erase(dev)
    }

    /// Keeps of each capability only its digest from now on, in one batch.
    fn change_version<D: Device>(&mut self, dev: &mut D) -> Result<(), Failed>
        requires ready { IsVolumeReady self.old }
        requires at { D.told → IsVolumeAt self.old (D.view dev.old) }
        ensures operation { IsOperation D.told [] upgraded self.old self.new (D.view dev.old) (D.view dev.new) result }
        ensures cost { IsWithin D.told (owed self.old.tables) (batch_cost 3) (checkpoint_writes
            self.old.ring + batch_cost 3) self.old self.new (D.view dev.old) (D.view dev.new) result }
        ensures none { self.old.tables.version ≡ 2 → CommitsOnce 0 self.old self.new (D.view dev.old) (D.view dev.new)
            result }
        ensures told { OnOk result (told_by self.new ≡ upgraded (told_by self.old)) }
        ensures digests { D.told → self.old.tables.version ≡ 1
            → OnOk result (HasOnlyDigests self.new.tables.records (home (D.view dev.new).reads)) }
        ensures stays { D.told → self.old.tables.version ≡ 2
            → OnOk result (AgreeBut is_journal (home (D.view dev.old).reads) (home (D.view dev.new).reads)) }
        ensures ready { OnOk result (IsVolumeReady self.new) }
        ensures owes { owed self.new.tables ≡ owed self.old.tables }
    {
        let was = self.header.version;
        self.caps.upgrade();
        self.header.version = DIGEST_VERSION;
        self.batch.clear();
        put_upgrade(&mut self.batch, was, &self.header, &self.caps);
        let outcome = self.ring.commit(dev, &self.batch);
        self.is_spent = outcome.is_err();
        outcome
    }

    /// Writes zeros over what the journal held, once its gates are closed.
    fn erase<D: Device>(&mut self, dev: &mut D) -> Result<(), Failed>
        requires emptied { self.old.ring ≡ [] }
        requires at { D.told → IsVolumeAt self.old (D.view dev.old) }
        ensures operation { IsOperation D.told [] (λ w. w) self.old self.new (D.view dev.old) (D.view dev.new) result }
        ensures cost { IsWithin D.told (owed self.old.tables) 113 113 self.old self.new (D.view dev.old)
            (D.view dev.new) result }
        ensures version { self.new.tables.version ≡ self.old.tables.version }
        ensures same { OnOk result (self.new ≡ record self.old { is_spent = false }) }
        ensures confined { D.told → IsConfined is_body (D.view dev.old) (D.view dev.new) }
        ensures closed { D.told → OnOk result (AreClosed (D.view dev.new).reads) }
        ensures erased { D.told → OnOk result ((n : ℕ) → 4 ≤ n → n ≤ 116 → (D.view dev.new).reads n
            ≡ zeros) }
    {
        let outcome = erase_bodies(dev);
        self.is_spent = outcome.is_err();
        outcome
    }
}
