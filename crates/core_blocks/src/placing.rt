//! Requests carried out with free blocks taken in some order.

ghost use Rattle.std.specs.Prelude.{◌≡◌, ◌≤◌, ◌+◌, ◌||◌, true, false, OnOk, OnErr, IfOk};
ghost use Rattle.image_device.specs.Counts.{CountsFault};
ghost use Rattle.image_device.specs.Runs.{LeavesPart};
ghost use Rattle.image_world.specs.Behind.{behind};
ghost use Rattle.tsd_model.specs.declared.requests.PlaceKind.{PlaceKind};
ghost use Rattle.tsd_model.specs.Run.{IsAnswer};
ghost use Rattle.volume_laws.specs.Moments.{LeavesEither};
ghost use Rattle.volume_laws.specs.Rings.{CommitsOnce};
ghost use Rattle.volume_laws.specs.Writes.{due, zeroed_cost, Works};
ghost use Rattle.image_world.specs.Debt.{owed};
ghost use Rattle.tsd_core.specs.Core.{IsCoreReady, IsCoreAt, state_on};
ghost use Rattle.disk_laws.specs.Reclaiming.{is_sweep};
ghost use Rattle.tsd_model.specs.ReplyForm.{is_refusal};
ghost use Rattle.tsd_core.specs.Journal.{waits, most_homes, owed_then, makes_blocks, count_of};
ghost use Rattle.tsd_core.specs.Work.{SameSize, write_limit};
ghost use Rattle.tsd_core.specs.Applying.{IsToldAnswer, asks_nothing, next_world};

use image_device::{Device, Failed};
use place_policy::Placement;
use tsd_core::Core;
use tsd_model::{Reply, Request};

/// In which order free blocks are taken. A type with a fact about its device can't stand beside stored closures, so it
/// knows them by this trait alone.
pub trait Placing {
    /// The kind of placement.
    ghost kind: { Self → PlaceKind };

    /// Applies a request to a core, as `Core::apply` does.
    fn apply<D: Device>(
        &self,
        core: &mut Core,
        dev: &mut D,
        request: &Request,
    ) -> Result<Reply, Failed>
        requires ready { IsCoreReady core.old }
        requires at { D.told → IsCoreAt core.old (D.view dev.old) }
        ensures ready { OnOk result (IsCoreReady core.new) }
        ensures at { D.told → OnOk result (IsCoreAt core.new (D.view dev.new)) }
        ensures given { D.told → IfOk result (λ r. IsAnswer (kind self.now) (state_on core.old (D.view dev.old).reads)
            request.now r (state_on core.new (D.view dev.new).reads)) }
        ensures told { IfOk result (λ r. IsToldAnswer (kind self.now) core.old request.now r core.new) }
        ensures size { SameSize core.old core.new }
        ensures spent { OnErr result (core.new.volume.is_spent ≡ true) }
        ensures sent { D.told → (D.view dev.new).sent ≡ (D.view dev.old).sent }
        ensures any_moment { D.told → LeavesEither (D.view dev.old) (D.view dev.new) (next_world (kind self.now)
            (state_on core.old (D.view dev.old).reads) request.now) }
        // Also where it failed, a crash at any moment leaves what lies behind the image as it was.
        ensures behind { D.told → LeavesPart (behind core.old.volume.tables.geometry) (D.view dev.old)
            (D.view dev.new) }
        // What is refused makes no call, nor what is answered from memory; and a request writes so much at most.
        /// promise: A request that is refused makes no call of the device, nor do `Begin`, `End`, `GetFree` and `List`.
        ensures asks_nothing { IfOk result (λ r. (is_refusal r || asks_nothing request.now) ≡ true
            → dev.new ≡ dev.old) }
        /// promise: At most so many writes for one request as `Core::apply` has.
        ensures limit { is_sweep request.now ≡ false → (D.view dev.new).writes ≤ (D.view dev.old).writes
            + write_limit core.old.volume request.now }
        // What it commits and what is owed then, and what new blocks cost, as `Core::apply` has it.
        /// promise (with owes, new_paid, new_most): What a request commits and leaves to be reclaimed, and what new
        /// blocks cost, is as `Core::apply` has it.
        ensures once { waits core.old.volume request.now ≡ false → CommitsOnce
            (most_homes core.old.volume.tables.geometry request.now) core.old.volume core.new.volume (D.view dev.old)
            (D.view dev.new) result }
        ensures owes { IfOk result (λ r. is_refusal r ≡ false → owed core.new.volume.tables ≡ owed_then
            core.old.volume request.now) }
        ensures new_paid { makes_blocks request.now ≡ true
            → OnOk result ((D.view dev.new).writes + due core.new.volume ≤ (D.view dev.old).writes + due
            core.old.volume + zeroed_cost core.old.volume.tables.geometry (count_of request.now)) }
        ensures new_most { makes_blocks request.now ≡ true → (D.view dev.new).writes ≤ (D.view dev.old).writes
            + due core.old.volume + zeroed_cost core.old.volume.tables.geometry (count_of request.now) }
        ensures works { Works (D.view dev.old) (D.view dev.new) }
        ensures faults { CountsFault result (D.view dev.old).faults (D.view dev.new).faults };
}

impl Placing for Placement {
    ghost kind = { λ p. p.kind };

    fn apply<D: Device>(
        &self,
        core: &mut Core,
        dev: &mut D,
        request: &Request,
    ) -> Result<Reply, Failed> {
        core.apply(dev, self, request)
    }
}
