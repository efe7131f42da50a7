//! Reading and writing blocks, and their capabilities. Each call but a read puts a reply into its room first, so that
//! the room is written on each of its ways.

ghost use Rattle.std.specs.Prelude.{◌≡◌, ℕ, ◌+◌, ◌<◌, ◌≤◌, true, length};
ghost use Rattle.tsd_model.specs.Geometry.{block_len};
ghost use Rattle.tsd_model.specs.World.{is_live};
ghost use Rattle.tsd_model.specs.declared.caps.Shown.{Shown as AnyShown};
ghost use Rattle.tsd_model.specs.declared.requests.PlaceKind.{PlaceKind};
ghost use Rattle.tsd_model.specs.declared.requests.Request.TheVariants as ask;
ghost use Rattle.tsd_core.specs.Core.{IsCoreReady, IsCoreAt, told_world};
ghost use Rattle.tsd_core.specs.Carrying.{IsKnown, IsCarriedOut, left_in};

use crate::disk::Core;
use crate::outcome::bytes;
use image_device::{Device, Failed};
use tsd_model::{CapPair, Data, Reply};

impl Core {
    /// Reads a block.
    #[inline(never)]
    pub(crate) fn read<D: Device>(
        &mut self,
        dev: &mut D,
        block: u32,
        into: &mut Reply,
    ) -> Result<(), Failed>
        requires live { is_live (told_world self.old) block ≡ true }
        requires known { IsKnown self.old.volume }
        requires ready { IsCoreReady self.old }
        requires at { D.told → IsCoreAt self.old (D.view dev.old) }
        ensures { (kind : PlaceKind) (session : ℕ) (shown : AnyShown)
            → IsCarriedOut D.told kind (ask.Read session block shown) self.old self.new (D.view dev.old)
            (D.view dev.new) (left_in result into.new) }
    {
        let mut data = Data::new();
        let outcome = self.volume.read_block(dev, block, &mut data);
        bytes(outcome, data, into)
    }

    /// Gives a block these bytes, and zeros behind them.
    #[inline(never)]
    pub(crate) fn write<D: Device>(
        &mut self,
        dev: &mut D,
        block: u32,
        bytes: &Data,
        into: &mut Reply,
    ) -> Result<(), Failed>
        requires live { is_live (told_world self.old) block ≡ true }
        requires size { length bytes.now ≤ block_len (told_world self.old).geometry }
        requires known { IsKnown self.old.volume }
        requires ready { IsCoreReady self.old }
        requires at { D.told → IsCoreAt self.old (D.view dev.old) }
        ensures { (kind : PlaceKind) (session : ℕ) (shown : AnyShown)
            → IsCarriedOut D.told kind (ask.Write session block shown bytes.now) self.old self.new (D.view dev.old)
            (D.view dev.new) (left_in result into.new) }
    {
        *into = Reply::Done;
        self.volume.write_block(dev, block, bytes)
    }

    /// Gives a primary block these capabilities, and ends what was held from it.
    #[inline(never)]
    pub(crate) fn set_caps<D: Device>(
        &mut self,
        dev: &mut D,
        block: u32,
        caps: &CapPair,
        into: &mut Reply,
    ) -> Result<(), Failed>
        requires primary { block < (told_world self.old).geometry.primaries }
        requires known { IsKnown self.old.volume }
        requires ready { IsCoreReady self.old }
        requires at { D.told → IsCoreAt self.old (D.view dev.old) }
        ensures { (kind : PlaceKind) (session : ℕ) (shown : AnyShown)
            → IsCarriedOut D.told kind (ask.SetCap session block shown caps.now) self.old self.new (D.view dev.old)
            (D.view dev.new) (left_in result into.new) }
    {
        *into = Reply::Done;
        self.grants.drop_from(block);
        self.volume.set_caps(dev, block, caps)
    }
}
