//! Pointers.

ghost use Rattle.std.specs.Prelude.{◌≡◌, ◌≢◌, [], ◌+◌, ◌-◌, ◌<◌, ◌≤◌, ◌*◌, true, false, length};
ghost use Rattle.std.specs.Prelude.{OnOk, IfOk};
ghost use Rattle.tsd_model.specs.Doomed.{settle};
ghost use Rattle.tsd_model.specs.Pairs.{holds};
ghost use Rattle.tsd_model.specs.Step.{with_pointer, without_pointer};
ghost use Rattle.tsd_model.specs.World.{is_live, free_count};
ghost use Rattle.image_device.specs.Calls.{Uses};
ghost use Rattle.intent_journal.specs.Ring.{checkpoint_writes};
ghost use Rattle.volume_laws.specs.Operations.{IsOperation, IsWithin};
ghost use Rattle.volume_laws.specs.Rings.{CommitsOnce};
ghost use Rattle.volume_laws.specs.Volume.{IsVolumeAt, IsVolumeReady, told_by};
ghost use Rattle.volume_laws.specs.Writes.{batch_cost, due};
ghost use Rattle.volume_laws.specs.Moments.{made};
ghost use Rattle.image_world.specs.Debt.{owed, graph_in};
ghost use Rattle.volume_laws.specs.Writes.{lost_cost};
ghost use Rattle.image_world.specs.Tables.{pairs_of};
ghost use Rattle.tsd_model.specs.Doomed.{doomed};

use crate::volume::Volume;
use image_device::{Device, Failed};

impl Volume {
    /// Holds a pointer that isn't held. What is doomed is reclaimed first exactly where the pairs on the disk, those
    /// from doomed blocks included, take all slots. `Failed` comes only where the device's count of faults rose; the
    /// volume is then spent.
    pub fn add_pointer<D: Device>(
        &mut self,
        dev: &mut D,
        source: u32,
        target: u32,
    ) -> Result<(), Failed>
        requires source { is_live (told_by self.old) source ≡ true }
        requires target { is_live (told_by self.old) target ≡ true }
        requires apart { self.old.tables.geometry.primaries ≤ target }
        requires absent { holds (told_by self.old).pairs source target ≡ false }
        requires room { length (told_by self.old).pairs < self.old.tables.geometry.slots }
        requires ready { IsVolumeReady self.old }
        requires unspent { self.old.is_spent ≡ false }
        requires at { D.told → IsVolumeAt self.old (D.view dev.old) }
        /// promise (with cost, once): As for `write_block`; the world afterwards has the pointer.
        ensures operation { IsOperation D.told [] (λ w. with_pointer w source target) self.old self.new (D.view dev.old)
            (D.view dev.new) result }
        ensures cost { IsWithin D.told (owed self.old.tables) (batch_cost 2) (due self.old + batch_cost 2) self.old
            self.new (D.view dev.old) (D.view dev.new) result }
        ensures once { length (pairs_of self.old.tables) ≢ self.old.tables.geometry.slots
            → CommitsOnce 2 self.old self.new (D.view dev.old) (D.view dev.new) result }
        ensures version { self.new.tables.version ≡ self.old.tables.version }
        ensures told { OnOk result (told_by self.new ≡ with_pointer (told_by self.old) source target) }
        ensures ready { OnOk result (IsVolumeReady self.new) }
        /// promise (with unsettled, uses_few): What is doomed is reclaimed first exactly where the pairs on the disk
        /// take all slots.
        ensures settled { length (pairs_of self.old.tables) ≡ self.old.tables.geometry.slots
            → OnOk result (owed self.new.tables ≡ 0) }
        ensures unsettled { length (pairs_of self.old.tables) ≢ self.old.tables.geometry.slots
            → OnOk result (owed self.new.tables ≡ owed self.old.tables) }
        ensures uses_few { length (pairs_of self.old.tables) < self.old.tables.geometry.slots
            → Uses (checkpoint_writes self.old.ring + batch_cost 2) (D.view dev.old) (D.view dev.new) }
    {
        if self.pointers.len() == self.header.geometry.slots {
            // Doomed blocks have pairs in some of the slots.
            self.settle_all(dev)?;
        }
        self.add_pair(dev, source, target)
    }

    /// Takes a pointer away, in one batch, and tells how many blocks are doomed by it. They are free from now on; their
    /// reclamation follows later. `Failed` comes only where the device's count of faults rose; the volume is then
    /// spent.
    pub fn drop_pointer<D: Device>(
        &mut self,
        dev: &mut D,
        source: u32,
        target: u32,
    ) -> Result<u32, Failed>
        requires held { holds (told_by self.old).pairs source target ≡ true }
        requires ready { IsVolumeReady self.old }
        requires unspent { self.old.is_spent ≡ false }
        requires at { D.told → IsVolumeAt self.old (D.view dev.old) }
        /// promise (with cost, once): As for `write_block`; the world afterwards is without the pointer and without
        /// what hung on it. It is one batch, so a deletion is answered before anything is reclaimed.
        ensures operation { IsOperation D.told [] (λ w. settle (without_pointer w source target)) self.old self.new
            (D.view dev.old) (D.view dev.new) result }
        ensures cost { let gone = made (told_by self.old) source target in IsWithin D.told (owed
            self.old.tables + gone) (batch_cost 2 + lost_cost * gone) (checkpoint_writes
            self.old.ring + batch_cost 2) self.old self.new (D.view dev.old) (D.view dev.new) result }
        ensures once { CommitsOnce 2 self.old self.new (D.view dev.old) (D.view dev.new) result }
        ensures version { self.new.tables.version ≡ self.old.tables.version }
        ensures told { OnOk result (told_by self.new ≡ settle (without_pointer (told_by self.old) source target)) }
        /// promise: The answer is how many blocks the deletion doomed.
        ensures lost { IfOk result (λ count. count ≡ free_count (told_by self.new) - free_count (told_by self.old)) }
        ensures ready { OnOk result (IsVolumeReady self.new) }
        ensures owed { OnOk result (owed self.new.tables + 1 ≡ owed self.old.tables + made (told_by self.old) source
            target) }
    {
        let before = self.doomed_count();
        self.drop_pair(dev, source, target)?;
        Ok(self.doomed_count() - before)
    }

    /// How many blocks are doomed.
    pub(crate) fn doomed_count(&self) -> u32
        requires { IsVolumeReady self.now }
        ensures { result ≡ length (doomed (graph_in self.now.tables)) }
    {
        self.ahead.doomed()
    }
}

impl Volume {
    /// Holds a pointer that isn't held, in an empty slot.
    fn add_pair<D: Device>(&mut self, dev: &mut D, source: u32, target: u32) -> Result<(), Failed>
        requires source { is_live (told_by self.old) source ≡ true }
        requires target { is_live (told_by self.old) target ≡ true }
        requires apart { self.old.tables.geometry.primaries ≤ target }
        requires absent { holds (told_by self.old).pairs source target ≡ false }
        requires room { length (pairs_of self.old.tables) < self.old.tables.geometry.slots }
        requires ready { IsVolumeReady self.old }
        requires at { D.told → IsVolumeAt self.old (D.view dev.old) }
        ensures operation { IsOperation D.told [] (λ w. with_pointer w source target) self.old self.new (D.view dev.old)
            (D.view dev.new) result }
        ensures cost { IsWithin D.told (owed self.old.tables) (batch_cost 2) (checkpoint_writes
            self.old.ring + batch_cost 2) self.old self.new (D.view dev.old) (D.view dev.new) result }
        ensures once { CommitsOnce 2 self.old self.new (D.view dev.old) (D.view dev.new) result }
        ensures version { self.new.tables.version ≡ self.old.tables.version }
        ensures told { OnOk result (told_by self.new ≡ with_pointer (told_by self.old) source target) }
        ensures ready { OnOk result (IsVolumeReady self.new) }
        ensures owes { owed self.new.tables ≡ owed self.old.tables }
    {
        self.batch.clear();
        let slot = self.pointers.add(source, target).unwrap();
        let _ = self.batch.put(slot.sector, &slot.bytes);
        self.counts.raise(target);
        let count = self.counts.patch(target);
        let _ = self.batch.put(count.sector, &count.bytes);
        self.ahead.raise(target);
        let outcome = self.ring.commit(dev, &self.batch);
        self.is_spent = outcome.is_err();
        outcome
    }
}

impl Volume {
    /// Takes a pointer away, in one batch. What is doomed by it stays on the disk, and is hidden.
    fn drop_pair<D: Device>(&mut self, dev: &mut D, source: u32, target: u32) -> Result<(), Failed>
        requires held { holds (told_by self.old).pairs source target ≡ true }
        requires ready { IsVolumeReady self.old }
        requires at { D.told → IsVolumeAt self.old (D.view dev.old) }
        ensures operation { IsOperation D.told [] (λ w. settle (without_pointer w source target)) self.old self.new
            (D.view dev.old) (D.view dev.new) result }
        ensures cost { let gone = made (told_by self.old) source target in IsWithin D.told (owed
            self.old.tables + gone) (batch_cost 2 + lost_cost * gone) (checkpoint_writes
            self.old.ring + batch_cost 2) self.old self.new (D.view dev.old) (D.view dev.new) result }
        ensures once { CommitsOnce 2 self.old self.new (D.view dev.old) (D.view dev.new) result }
        ensures version { self.new.tables.version ≡ self.old.tables.version }
        ensures told { OnOk result (told_by self.new ≡ settle (without_pointer (told_by self.old) source target)) }
        ensures ready { OnOk result (IsVolumeReady self.new) }
        ensures counted { OnOk result ((length (doomed (graph_in self.new.tables)) + free_count (told_by self.old)
            ≡ length (doomed (graph_in self.old.tables)) + free_count (told_by self.new))
            × (length (doomed (graph_in self.old.tables)) ≤ length (doomed (graph_in self.new.tables)))) }
        ensures owed { OnOk result (owed self.new.tables + 1 ≡ owed self.old.tables + made (told_by self.old) source
            target) }
    {
        self.batch.clear();
        let slot = self.pointers.remove(source, target).unwrap();
        let _ = self.batch.put(slot.sector, &slot.bytes);
        self.counts.lower(target);
        let count = self.counts.patch(target);
        let _ = self.batch.put(count.sector, &count.bytes);
        self.ahead.lower(&self.pointers, &mut self.live, target);
        self.guesses.push_uncounted(&self.counts, &[target]);
        let outcome = self.ring.commit(dev, &self.batch);
        self.is_spent = outcome.is_err();
        outcome
    }
}
