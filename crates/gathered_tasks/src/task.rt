// What is done to a core in one go.
ghost use Rattle.std.specs.Prelude.{◌≡◌, ◌+◌, ◌≤◌, [], ℕ, true, OnOk, OnErr, IfOk};
ghost use Rattle.image_device.specs.Counts.{CountsFault};
ghost use Rattle.image_device.specs.Runs.{LeavesPart};
ghost use Rattle.intent_journal.specs.Records.{AreClosed};
ghost use Rattle.image_world.specs.Behind.{behind};
ghost use Rattle.tsd_model.specs.Run.{IsAnswer};
ghost use Rattle.tsd_model.specs.Step.{State};
ghost use Rattle.tsd_model.specs.World.{World};
ghost use Rattle.tsd_model.specs.declared.replies.Reply.{Reply as Answered};
ghost use Rattle.volume_laws.specs.Moments.{LeavesEither};
ghost use Rattle.volume_laws.specs.Volume.{Volume};
ghost use Rattle.volume_laws.specs.Writes.{Works};
ghost use Rattle.tsd_core.specs.Applying.{IsToldAnswer, next_world};
ghost use Rattle.tsd_core.specs.Core.{Core as CoreValue, IsCoreReady, IsCoreAt, state_on, told_state};
ghost use Rattle.tsd_core.specs.Work.{SameSize};
ghost use Rattle.gathered_tasks.specs.Bounds.{IsBound, step_cost};

use core_blocks::Placing;
use image_device::{Device, Failed};
use tsd_core::Core;
use tsd_model::{Reply, Request};

/// What is done to a core whose journal is empty, on some device, and leaves the journal empty.
pub trait Task {
    /// The reply and the state after, where the device tells.
    ghost given: { Self → State → Answered → State → Type 0 };

    /// The same as far as memory tells it.
    ghost told_given: { Self → CoreValue → Answered → CoreValue → Type 0 };

    /// The world that a crash may leave beside the one before.
    ghost next: { Self → State → World };

    /// It writes at most so often.
    ghost is_bound: { Self → Volume → ℕ → Type 0 };

    /// Does it.
    fn run<D: Device>(&self, core: &mut Core, dev: &mut D) -> Result<Reply, Failed>
        requires ready { IsCoreReady core.old }
        requires at { D.told → IsCoreAt core.old (D.view dev.old) }
        requires empty { core.old.volume.ring ≡ [] }
        ensures ready { OnOk result (IsCoreReady core.new) }
        ensures at { D.told → OnOk result (IsCoreAt core.new (D.view dev.new)) }
        ensures empty { OnOk result (core.new.volume.ring ≡ []) }
        ensures closed { D.told → OnOk result (AreClosed (D.view dev.new).reads) }
        ensures given { D.told → IfOk result (λ r. given self.now (state_on core.old (D.view dev.old).reads) r
            (state_on core.new (D.view dev.new).reads)) }
        ensures told { IfOk result (λ r. told_given self.now core.old r core.new) }
        ensures size { SameSize core.old core.new }
        ensures spent { OnErr result (core.new.volume.is_spent ≡ true) }
        ensures sent { D.told → (D.view dev.new).sent ≡ (D.view dev.old).sent }
        ensures any_moment { D.told → LeavesEither (D.view dev.old) (D.view dev.new) (next self.now
            (state_on core.old (D.view dev.old).reads)) }
        ensures behind { D.told → LeavesPart (behind core.old.volume.tables.geometry) (D.view dev.old)
            (D.view dev.new) }
        ensures most { (most : ℕ) → is_bound self.now core.old.volume most
            → (D.view dev.new).writes ≤ (D.view dev.old).writes + most }
        ensures works { Works (D.view dev.old) (D.view dev.new) }
        ensures faults { CountsFault result (D.view dev.old).faults (D.view dev.new).faults };
}

/// A request, with free blocks taken in some order.
#[derive(Drop)]
pub struct Asking<'a, L: Placing> {
    /// In which order.
    pub placement: &'a L,
    /// The request.
    pub request: &'a Request,
}

impl<'a, L: Placing> Task for Asking<'a, L> {
    ghost given = { λ t s r now. IsAnswer (L.kind t.placement.now) s t.request.now r now };

    ghost told_given = { λ t c r d. IsToldAnswer (L.kind t.placement.now) c t.request.now r d };

    ghost next = { λ t s. next_world (L.kind t.placement.now) s t.request.now };

    ghost is_bound = { λ t v most. IsBound v t.request.now most };

    fn run<D: Device>(&self, core: &mut Core, dev: &mut D) -> Result<Reply, Failed> {
        let reply = self.placement.apply(core, dev, self.request)?;
        core.empty_ring(dev)?;
        Ok(reply)
    }
}

/// One step of reclamation, if one is left.
#[derive(Drop)]
pub struct Stepping;

impl Task for Stepping {
    ghost given = { λ t s r now. now ≡ s };

    ghost told_given = { λ t c r d. told_state d ≡ told_state c };

    ghost next = { λ t s. s.world };

    ghost is_bound = { λ t v most. step_cost ≤ most };

    fn run<D: Device>(&self, core: &mut Core, dev: &mut D) -> Result<Reply, Failed> {
        let _made = core.settle_one(dev)?;
        core.empty_ring(dev)?;
        Ok(Reply::Done)
    }
}
