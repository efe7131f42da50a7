//! The core beside its placement.

ghost use Rattle.std.specs.Prelude.{◌≡◌, true};
ghost use Rattle.image_world.specs.Behind.{behind};
ghost use Rattle.tsd_core.specs.Core.{IsCoreReady, FitsReads};
ghost use Rattle.volume_laws.specs.Quiet.{IsQuiet};
ghost use Rattle.volume_laws.specs.Writes.{due};
ghost use Rattle.image_runs.specs.Server.{disk_rules, disk_work, placed_on};
ghost use Rattle.image_runs.specs.StandsLaws.{stands_here};

use image_device::{Device, Failed};
use place_policy::Placement;
use serving::Handler;
use tsd_core::Core;
use tsd_model::{Reply, Request};

/// A core with the placement by which it takes free blocks.
#[derive(Drop)]
pub struct CoreServer<'a> {
    /// The disk.
    pub core: &'a mut Core,

    /// In which order free blocks are taken.
    pub placement: &'a Placement,
}

impl<'a> Handler for CoreServer<'a> {
    ghost rules = { disk_rules };

    ghost work = { disk_work };

    ghost is_ready = { λ h. IsCoreReady h.core.now };

    ghost is_spent = { λ h. h.core.now.volume.is_spent ≡ true };

    ghost holds = { λ h x. FitsReads h.core.now x };

    ghost state = { λ h x. placed_on h.placement.now.kind h.core.now x };

    ghost due = { λ h x. due h.core.now.volume };

    ghost is_closed = { IsQuiet };

    ghost aside = { λ h. behind h.core.now.volume.tables.geometry };

    ghost lender = { λ h. h.core.ghost_name };

    ghost stands_now = { λ h x held. stands_here h.core.now x held };

    ghost given_form = { λ s q r t given. given.1 };

    fn apply<D: Device>(
        &mut self,
        dev: &mut D,
        request: &Request,
        into: &mut Reply,
    ) -> Result<(), Failed> {
        self.core.apply_into(dev, self.placement, request, into)
    }

    fn settle_some<D: Device>(&mut self, dev: &mut D) -> Result<bool, Failed> {
        self.core.settle_some(dev)
    }

    fn close<D: Device>(&mut self, dev: &mut D) -> Result<(), Failed> {
        self.core.close(dev)
    }
}
