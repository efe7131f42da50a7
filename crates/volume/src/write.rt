//! Writing a block.

ghost use Rattle.std.specs.Prelude.{◌≡◌, ◌∷◌, [], ◌+◌, ◌≤◌, true, false, length, OnOk};
ghost use Rattle.tsd_model.specs.Geometry.{block_len};
ghost use Rattle.tsd_model.specs.World.{is_live};
ghost use Rattle.intent_journal.specs.Ring.{checkpoint_writes};
ghost use Rattle.volume_laws.specs.Operations.{IsOperation, IsWithin};
ghost use Rattle.volume_laws.specs.Rings.{CommitsOnce};
ghost use Rattle.volume_laws.specs.Volume.{IsVolumeAt, IsVolumeReady, told_by};
ghost use Rattle.tsd_model.specs.Step.{written};
ghost use Rattle.image_world.specs.Debt.{owed};
ghost use Rattle.volume_laws.specs.Writes.{batch_cost};

use crate::volume::Volume;
use image_device::{Device, Failed};
use image_layout::Layout;
use tsd_model::Data;
use volume_changes::put_block;

impl Volume {
    /// Gives a live block these bytes, and zeros behind them. `Failed` comes only where the device's count of faults
    /// rose; the volume is then spent.
    pub fn write_block<D: Device>(
        &mut self,
        dev: &mut D,
        block: u32,
        bytes: &Data,
    ) -> Result<(), Failed>
        requires live { is_live (told_by self.old) block ≡ true }
        requires size { length bytes.now ≤ block_len self.old.tables.geometry }
        requires ready { IsVolumeReady self.old }
        requires unspent { self.old.is_spent ≡ false }
        requires at { D.told → IsVolumeAt self.old (D.view dev.old) }
        /// promise: **Whole or absent.** After Ok the device stands for exactly the world with these bytes; every image
        /// that a crash at any moment may leave, also inside a call that then fails, stands for the world before or the
        /// world after; nothing is sent; and the data of all other blocks, and what lies after the image, stays in each
        /// of them. `Failed` comes only where the device's count of faults rose, and then the volume is spent.
        ensures operation { IsOperation D.told (block ∷ []) (λ w. written w block bytes.now) self.old self.new
            (D.view dev.old) (D.view dev.new) result }
        /// promise: Each such image has at most so much still to be reclaimed as there was; and the writes of the call,
        /// and what is to be written later for it, have a bound, so that the bound of a whole run follows by addition.
        ensures cost { IsWithin D.told (owed self.old.tables) (batch_cost self.old.tables.geometry.sectors)
            (checkpoint_writes self.old.ring + batch_cost self.old.tables.geometry.sectors) self.old self.new
            (D.view dev.old) (D.view dev.new) result }
        /// promise: At most one batch is committed after the records that stay; these are put in place first only where
        /// they leave no room for it, and nothing else is written.
        ensures once { CommitsOnce self.old.tables.geometry.sectors self.old self.new (D.view dev.old)
            (D.view dev.new) result }
        ensures version { self.new.tables.version ≡ self.old.tables.version }
        ensures same { OnOk result (self.new ≡ record self.old { ring = self.new.ring }) }

    // A crash at any moment leaves the world before or the world with these bytes.

    {
        self.batch.clear();
        put_block(
            &mut self.batch,
            &Layout::of(&self.header.geometry),
            block,
            bytes.as_slice(),
        );
        let outcome = self.ring.commit(dev, &self.batch);
        self.is_spent = outcome.is_err();
        outcome
    }
}
