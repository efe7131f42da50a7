//! Pointers, and what hangs on them. Each call puts a reply into its room first, so that the room is written on each of
//! its ways.

ghost use Rattle.std.specs.Prelude.{◌≡◌, ℕ, ◌+◌, ◌<◌, ◌≤◌, true, false, length};
ghost use Rattle.tsd_model.specs.Pairs.{holds};
ghost use Rattle.tsd_model.specs.World.{is_live};
ghost use Rattle.tsd_model.specs.declared.caps.Shown.{Shown as AnyShown};
ghost use Rattle.tsd_model.specs.declared.requests.PlaceKind.{PlaceKind};
ghost use Rattle.tsd_model.specs.declared.requests.Request.TheVariants as ask;
ghost use Rattle.tsd_core.specs.Core.{IsCoreReady, IsCoreAt, told_world};
ghost use Rattle.tsd_core.specs.Carrying.{IsKnown, IsCarriedOut, left_in};

use crate::disk::Core;
use crate::outcome::gone;
use image_device::{Device, Failed};
use tsd_model::Reply;

impl Core {
    /// Adds a pointer.
    #[inline(never)]
    pub(crate) fn create<D: Device>(
        &mut self,
        dev: &mut D,
        source: u32,
        target: u32,
        into: &mut Reply,
    ) -> Result<(), Failed>
        requires source { is_live (told_world self.old) source ≡ true }
        requires target { is_live (told_world self.old) target ≡ true }
        requires apart { (told_world self.old).geometry.primaries ≤ target }
        requires absent { holds (told_world self.old).pairs source target ≡ false }
        requires room { length (told_world self.old).pairs < (told_world self.old).geometry.slots }
        requires known { IsKnown self.old.volume }
        requires ready { IsCoreReady self.old }
        requires at { D.told → IsCoreAt self.old (D.view dev.old) }
        ensures { (kind : PlaceKind) (session : ℕ) (shown : AnyShown)
            → IsCarriedOut D.told kind (ask.Create session source shown target) self.old self.new (D.view dev.old)
            (D.view dev.new) (left_in result into.new) }
    {
        *into = Reply::Done;
        self.volume.add_pointer(dev, source, target)
    }

    /// Deletes a pointer. The blocks that nothing leads to any more are free from now on.
    #[inline(never)]
    pub(crate) fn delete<D: Device>(
        &mut self,
        dev: &mut D,
        source: u32,
        target: u32,
        into: &mut Reply,
    ) -> Result<(), Failed>
        requires held { holds (told_world self.old).pairs source target ≡ true }
        requires known { IsKnown self.old.volume }
        requires ready { IsCoreReady self.old }
        requires at { D.told → IsCoreAt self.old (D.view dev.old) }
        ensures { (kind : PlaceKind) (session : ℕ) (shown : AnyShown)
            → IsCarriedOut D.told kind (ask.Delete session source shown target) self.old self.new (D.view dev.old)
            (D.view dev.new) (left_in result into.new) }
    {
        *into = Reply::Done;
        gone(self.volume.drop_pointer(dev, source, target), into)
    }

    /// Reclaims all blocks that no primary block leads to.
    #[inline(never)]
    pub(crate) fn sweep<D: Device>(&mut self, dev: &mut D, into: &mut Reply) -> Result<(), Failed>
        requires known { IsKnown self.old.volume }
        requires ready { IsCoreReady self.old }
        requires at { D.told → IsCoreAt self.old (D.view dev.old) }
        ensures { (kind : PlaceKind) (session : ℕ) (shown : AnyShown)
            → IsCarriedOut D.told kind (ask.Sweep session shown) self.old self.new (D.view dev.old) (D.view dev.new)
            (left_in result into.new) }
    {
        *into = Reply::Done;
        gone(self.volume.sweep(dev), into)
    }
}
