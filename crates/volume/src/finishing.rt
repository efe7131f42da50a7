//! Ending what an image holds of a sweep and a cascade.

ghost use Rattle.std.specs.Prelude.{◌≡◌, [], ◌+◌, ◌-◌, ◌≤◌, true, false, OnOk, IfOk};
ghost use Rattle.block_alloc.specs.LiveMap.{free_count as free_in};
ghost use Rattle.image_device.specs.Calls.{Uses};
ghost use Rattle.image_world.specs.Raw.{world_with, zeros_of};
ghost use Rattle.tsd_model.specs.World.{free_count};
ghost use Rattle.volume.specs.Sweeping.{left_due};
ghost use Rattle.image_world.specs.Debt.{owed};
ghost use Rattle.volume_laws.specs.Operations.{IsOperation, IsWithin};
ghost use Rattle.volume_laws.specs.Volume.{IsVolumeAt, IsVolumeReady, told_by};
ghost use Rattle.volume_laws.specs.Writes.{due};

use crate::volume::Volume;
use block_alloc::LiveMap;
use image_device::{Device, Failed};

/// How many blocks are free in the bitmap.
fn count_free(live: &LiveMap) -> u32
    ensures { result ≡ free_in live.now.live }
{
    let mut free = 0;
    for block in 0..live.geometry().blocks {
        if !live.raw_live(block) {
            free += 1;
        }
    }
    free
}

impl Volume {
    /// Ends a sweep and a cascade that the image holds, and tells how many blocks were reclaimed. `Failed` comes only
    /// where the device's count of faults rose; the volume is then spent.
    pub fn finish<D: Device>(&mut self, dev: &mut D) -> Result<u32, Failed>
        requires unspent { self.old.is_spent ≡ false }
        requires at { D.told → IsVolumeAt self.old (D.view dev.old) }
        /// promise (with settled): A sweep and a reclamation that the image holds are ended; the world stays, and
        /// nothing is doomed afterwards.
        ensures operation { IsOperation D.told [] (λ w. w) self.old self.new (D.view dev.old) (D.view dev.new) result }
        ensures cost { self.old.tables.is_sweeping ≡ false → IsWithin D.told (owed self.old.tables) 0 (due self.old)
            self.old self.new (D.view dev.old) (D.view dev.new) result }
        ensures version { self.new.tables.version ≡ self.old.tables.version }
        ensures told { OnOk result (told_by self.new ≡ told_by self.old) }
        ensures count { IfOk result (λ count. count ≡ free_count (told_by self.old) - free_count
            (world_with self.old.tables (zeros_of self.old.tables))) }
        ensures settled { OnOk result (owed self.new.tables ≡ 0) }
        ensures ready { OnOk result (IsVolumeReady self.new) }

        // Whether a sweep is open or not: at most what the image has left to be written.
        /// promise (with uses, cost): At most what the tables leave to be written: 5 for each pair and block that is
        /// doomed or, where a sweep is open, 7 for each that it still takes away and 5 for its flag.
        ensures paid { OnOk result ((D.view dev.new).writes + due self.new
            ≤ (D.view dev.old).writes + left_due self.old) }
        ensures uses { Uses (left_due self.old) (D.view dev.old) (D.view dev.new) }
    {
        let before = self.raw_free_count();
        self.end_sweep(dev)?;
        self.settle_doomed(dev)?;
        self.make_ready();
        Ok(self.raw_free_count() - before)
    }

    /// Ends a sweep that has begun, where one has.
    fn end_sweep<D: Device>(&mut self, dev: &mut D) -> Result<(), Failed>
        requires unspent { self.old.is_spent ≡ false }
        requires at { D.told → IsVolumeAt self.old (D.view dev.old) }
        ensures operation { IsOperation D.told [] (λ w. w) self.old self.new (D.view dev.old) (D.view dev.new) result }
        ensures cost { self.old.tables.is_sweeping ≡ false → IsWithin D.told (owed self.old.tables) 0 0 self.old
            self.new (D.view dev.old) (D.view dev.new) result }
        ensures version { self.new.tables.version ≡ self.old.tables.version }
        ensures told { OnOk result (told_by self.new ≡ told_by self.old) }
        ensures still { OnOk result (self.new.tables.is_sweeping ≡ false) }
        ensures less { self.old.tables.is_sweeping ≡ false
            → OnOk result (owed self.new.tables ≤ owed self.old.tables) }
        ensures same_ready { self.new.is_ready ≡ self.old.is_ready }
        ensures paid { OnOk result ((D.view dev.new).writes + due self.new
            ≤ (D.view dev.old).writes + left_due self.old) }
        ensures uses { Uses (left_due self.old) (D.view dev.old) (D.view dev.new) }
    {
        if self.is_sweeping {
            self.end_open_sweep(dev)
        } else {
            Ok(())
        }
    }

    /// Where nothing is doomed and no sweep is open, what is kept ahead of reclamation is right from now on.
    pub(crate) fn make_ready(&mut self)
        requires settled { owed self.old.tables ≡ 0 }
        requires still { self.old.tables.is_sweeping ≡ false }
        ensures { self.new ≡ record self.old { is_ready = true } }
    {
        self.ahead.reset(&self.counts);
        self.is_ready = true;
    }

    /// How many blocks are free on the disk as it is: what is doomed and not reclaimed yet counts as live.
    pub(crate) fn raw_free_count(&self) -> u32
        ensures { result ≡ free_count (world_with self.now.tables (zeros_of self.now.tables)) }
    {
        count_free(&self.live)
    }
}
