//! Reading a block.

ghost use Rattle.std.specs.Prelude.{◌≡◌, [], true, false, length, Some, OnOk};
ghost use Rattle.tsd_model.specs.Geometry.{block_len};
ghost use Rattle.tsd_model.specs.World.{is_live, contents};
ghost use Rattle.image_device.specs.Calls.{Rests};
ghost use Rattle.volume_laws.specs.Operations.{IsOperation, IsWithin};
ghost use Rattle.volume_laws.specs.Volume.{IsVolumeAt, IsVolumeReady, told_by, world_on};
ghost use Rattle.image_world.specs.Debt.{owed};

use crate::volume::Volume;
use image_device::{Device, Failed};
use image_layout::Layout;
use tsd_model::Data;
use volume_changes::read_parts;

impl Volume {
    /// Reads a live block. `Failed` comes only where the device's count of faults rose; the volume is then spent.
    pub fn read_block<D: Device>(
        &mut self,
        dev: &mut D,
        block: u32,
        into: &mut Data,
    ) -> Result<(), Failed>
        requires live { is_live (told_by self.old) block ≡ true }
        requires ready { IsVolumeReady self.old }
        requires unspent { self.old.is_spent ≡ false }
        requires at { D.told → IsVolumeAt self.old (D.view dev.old) }
        ensures operation { IsOperation D.told [] (λ w. w) self.old self.new (D.view dev.old) (D.view dev.new) result }
        /// promise (with rests): Nothing is written.
        ensures cost { IsWithin D.told (owed self.old.tables) 0 0 self.old self.new (D.view dev.old)
            (D.view dev.new) result }
        ensures rests { D.told → Rests (D.view dev.old) (D.view dev.new) }
        ensures version { self.new.tables.version ≡ self.old.tables.version }
        ensures same { OnOk result (self.new ≡ self.old) }
        /// promise (with operation): The bytes of the block in the world for which the device stands, which stays.
        ensures bytes { D.told → OnOk result (contents (world_on (D.view dev.old)) block ≡ Some into.new) }
        ensures full { OnOk result (length into.new ≡ block_len self.old.tables.geometry) }
    {
        let outcome = read_parts(
            dev,
            &self.ring,
            &Layout::of(&self.header.geometry),
            block,
            into,
        );
        self.is_spent = outcome.is_err();
        outcome
    }
}
