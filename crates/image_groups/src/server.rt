//! The core beside its placement, as a loop over groups serves it.

ghost use Rattle.std.specs.Prelude.{◌≡◌, true};
ghost use Rattle.image_world.specs.Behind.{behind};
ghost use Rattle.tsd_core.specs.Core.{IsCoreReady, FitsReads};
ghost use Rattle.volume_laws.specs.Quiet.{IsQuiet};
ghost use Rattle.volume_laws.specs.Writes.{due};
ghost use Rattle.image_runs.specs.Server.{disk_rules, disk_work, placed_on};
ghost use Rattle.image_runs.specs.StandsLaws.{stands_here};
ghost use Rattle.image_groups.specs.Carried.{behind_alike, core_carried, worlds_alike};
ghost use Rattle.image_groups.specs.Owing.{core_due_none, core_owed_alike, core_owes, owed_by};
ghost use Rattle.image_groups.specs.Waiting.{MayWait};

use gathering_runs::GroupHandler;
use image_device::{Device, Failed};
use place_policy::Placement;
use serving::Handler;
use tsd_core::Core;
use tsd_model::{Reply, Request};

/// More homes than a batch ever has.
const NEVER_FITS: usize = 1000;

/// More homes than any other request has.
const FEW_HOMES: usize = 40;

/// How many sectors a block has at most, which are all that a write of it changes.
const BLOCK_HOMES: usize = 8;

/// A core with the placement by which it takes free blocks.
#[derive(Drop)]
pub(crate) struct GroupServer<'a> {
    pub(crate) core: &'a mut Core,
    pub(crate) placement: &'a Placement,
    /// Whether a step of reclamation may be left. It decides only when a group ends.
    pub(crate) owes: bool,
}

impl<'a> Handler for GroupServer<'a> {
    ghost rules = { disk_rules };

    ghost work = { disk_work };

    ghost is_ready = { λ h. IsCoreReady h.core.now };

    ghost is_spent = { λ h. h.core.now.volume.is_spent ≡ true };

    ghost holds = { λ h x. FitsReads h.core.now x };

    ghost state = { λ h x. placed_on h.placement.now.kind h.core.now x };

    ghost due = { λ h x. due h.core.now.volume };

    ghost is_closed = { IsQuiet };

    ghost aside = { λ h. behind h.core.now.volume.tables.geometry };

    ghost lender = { λ h. h.core.ghost_name };

    ghost stands_now = { λ h x held. stands_here h.core.now x held };

    ghost given_form = { λ s q r t given. given.1 };

    fn apply<D: Device>(
        &mut self,
        dev: &mut D,
        request: &Request,
        into: &mut Reply,
    ) -> Result<(), Failed> {
        self.owes = true;
        self.core.apply_into(dev, self.placement, request, into)
    }

    fn settle_some<D: Device>(&mut self, dev: &mut D) -> Result<bool, Failed> {
        let more = self.core.settle_some(dev);
        match more {
            Ok(some) => self.owes = some,
            Err(_) => {}
        }
        more
    }

    fn close<D: Device>(&mut self, dev: &mut D) -> Result<(), Failed> {
        self.core.close(dev)
    }
}

impl<'a> GroupHandler for GroupServer<'a> {
    ghost owed = { λ h. owed_by h.core.now };

    ghost may_wait = { MayWait };

    ghost owes = { λ h x held. core_owes h.core.now x held };

    ghost owed_alike = { λ h x y held home. core_owed_alike h.core.now x y held home };

    ghost due_none = { λ h x held closed none. core_due_none h.core.now x held closed none };

    ghost carried = { λ h x y held closed shut agrees.
        core_carried h.placement.now.kind h.core.now x y held closed shut agrees };

    ghost alike = { λ s x y home stands. worlds_alike s x y home stands };

    ghost aside_alike = { λ h x y home. behind_alike h.core.now.volume.tables.geometry x y home };

    /// New blocks and new pointers may have to wait for all steps that are left, so they never fit before those are
    /// made; nor does a sweep.
    fn homes(&self, request: &Request) -> usize {
        match request {
            Request::Sweep { .. } => NEVER_FITS,
            Request::Alloc { .. } | Request::Contig { .. } | Request::Create { .. } if self.owes =>
                NEVER_FITS,
            Request::Alloc { count, .. } | Request::Contig { count, .. } => blocks_homes(*count),
            Request::Create { .. } | Request::Delete { .. } | Request::SetCap { .. } => FEW_HOMES,
            Request::Write { .. } => BLOCK_HOMES,
            _ => 0,
        }
    }

    fn is_owed(&self) -> bool {
        self.core.is_owed()
    }

    fn settle_one<D: Device>(&mut self, dev: &mut D) -> Result<bool, Failed> {
        let done = self.core.settle_one(dev);
        match done {
            Ok(_) => self.owes = self.core.is_owed(),
            Err(_) => {}
        }
        done
    }

    fn empty_ring<D: Device>(&mut self, dev: &mut D) -> Result<(), Failed> {
        self.core.empty_ring(dev)
    }
}

/// How many homes so many new blocks have at most: eight sectors each, and their tables.
fn blocks_homes(count: u32) -> usize {
    (count as usize).saturating_mul(11).saturating_add(10)
}
