//! What carries out requests.

ghost use Rattle.std.specs.Prelude.{◌≡◌, ◌↔◌, ◌<◌, ◌≤◌, ◌+◌, ◌-◌, ℕ, OnOk, OnErr, IfOk};
ghost use Rattle.std.specs.Prelude.{IsTrue, true};
ghost use Rattle.image_device.specs.Counts.{CountsFault};
ghost use Rattle.image_device.specs.Image.{Image};
ghost use Rattle.image_device.specs.Runs.{LeavesOnly, LeavesPart};
ghost use Rattle.tsd_model.specs.ReplyForm.{HasForm, is_refusal};
ghost use Rattle.tsd_model.specs.declared.requests.Request.{Request as Asked};
ghost use Rattle.tsd_model.specs.declared.replies.Reply.{Reply as Answered};
ghost use Rattle.serving.specs.Handling.{DiskRules, FitsDevice, StandsBeforeOrAfter, CountsRise};
ghost use Rattle.serving.specs.Work.{WorkCount, used};

use image_device::{Device, Failed};
use tsd_model::{Reply, Request};

/// Carries out requests on a disk. What is said of contents, of the state and of writes is said where the disk tells.
pub trait Handler {
    /// The disk by its rules.
    ghost rules: { DiskRules };

    /// How its work is counted.
    ghost work: { WorkCount Asked rules.States };

    /// It may be used.
    ghost is_ready: { Self → Type 0 };

    /// It is spent: a call on its disk failed.
    ghost is_spent: { Self → Type 0 };

    /// What it holds in memory fits a disk that reads so.
    ghost holds: { Self → Image → Type 0 };

    /// The state, where the disk reads so.
    ghost state: { Self → Image → rules.States };

    /// How many writes are still due, where the disk reads so.
    ghost due: { Self → Image → ℕ };

    /// Nothing is left to be done on a disk that reads so.
    ghost is_closed: { Image → Type 0 };

    /// What of an image no request touches.
    ghost aside: { Self → Image → Image };

    /// The name of the reference through which it holds its disk, where it borrows that.
    ghost lender: { Self → ℕ };

    /// Carries out a request, and puts its reply into the room for it. A crash at any moment leaves the state before or
    /// the one after. `Failed` comes only where `faults` rose, and it is spent then; else they are as they were.
    fn apply<D: Device>(
        &mut self,
        dev: &mut D,
        request: &Request,
        into: &mut Reply,
    ) -> Result<(), Failed>
        requires ready { is_ready self.old }
        requires at { D.told → FitsDevice (holds self.old) (D.view dev.old) }
        ensures lender { lender self.new ≡ lender self.old }
        ensures aside { aside self.new ≡ aside self.old }
        ensures ready { OnOk result (is_ready self.new) }
        ensures at { D.told → OnOk result (FitsDevice (holds self.new) (D.view dev.new)) }
        ensures spent { OnErr result (is_spent self.new) }
        ensures form { OnOk result (HasForm into.new) }
        /// promise: The reply and the state after are those of the rules.
        ensures given { D.told → OnOk result (rules.gives (state self.old (D.view dev.old).reads) request.now into.new
            (state self.new (D.view dev.new).reads)) }
        ensures sent { D.told → (D.view dev.new).sent ≡ (D.view dev.old).sent }
        /// promise (with sent): A crash at any moment leaves the state before or the one after; nothing is sent.
        ensures any_moment { D.told → LeavesOnly (D.view dev.old) (D.view dev.new) (λ x f. StandsBeforeOrAfter rules
            (state self.old (D.view dev.old).reads) request.now x × (f ≡ (D.view dev.old).sent)) }
        ensures debt { D.told → work.bounded request.now → LeavesOnly (D.view dev.old) (D.view dev.new)
            (λ x f. (work.debt x ≤ work.debt (D.view dev.old).reads + work.made
            (state self.old (D.view dev.old).reads) request.now) × (f ≡ (D.view dev.old).sent)) }
        ensures paid { D.told → work.bounded request.now
            → OnOk result (used (due self.new (D.view dev.new).reads) (D.view dev.new)
            ≤ used (due self.old (D.view dev.old).reads) (D.view dev.old) + work.cost
            (state self.old (D.view dev.old).reads) request.now) }
        ensures most { D.told → work.bounded request.now → (D.view dev.new).writes
            ≤ used (due self.old (D.view dev.old).reads) (D.view dev.old) + work.cost
            (state self.old (D.view dev.old).reads) request.now }
        /// promise (with refused): What is written before the reply can be sent has a bound; a refusal makes no call of
        /// the device.
        ensures before { D.told → work.bounded request.now → OnOk result ((D.view dev.new).writes
            ≤ (D.view dev.old).writes + work.before_answer (state self.old (D.view dev.old).reads)
            (work.debt (D.view dev.old).reads) request.now) }
        ensures refused { OnOk result (is_refusal into.new ≡ true → dev.new ≡ dev.old) }
        // Also where it failed, a crash at any moment leaves what no request touches as it was.
        ensures aside_kept { D.told → LeavesPart (aside self.old) (D.view dev.old) (D.view dev.new) }
        ensures works { CountsRise (D.view dev.old) (D.view dev.new) }
        ensures faults { CountsFault result (D.view dev.old).faults (D.view dev.new).faults };

    /// Does some of what is left to be done; true where more is left, where the disk tells. The state stays. `Failed`
    /// comes only where `faults` rose, and it is spent then; else they are as they were.
    fn settle_some<D: Device>(&mut self, dev: &mut D) -> Result<bool, Failed>
        requires ready { is_ready self.old }
        requires at { D.told → FitsDevice (holds self.old) (D.view dev.old) }
        ensures lender { lender self.new ≡ lender self.old }
        ensures aside { aside self.new ≡ aside self.old }
        ensures ready { OnOk result (is_ready self.new) }
        ensures at { D.told → OnOk result (FitsDevice (holds self.new) (D.view dev.new)) }
        ensures spent { OnErr result (is_spent self.new) }
        ensures state { D.told → OnOk result (state self.new (D.view dev.new).reads ≡ state self.old
            (D.view dev.old).reads) }
        ensures sent { D.told → (D.view dev.new).sent ≡ (D.view dev.old).sent }
        ensures any_moment { D.told → LeavesOnly (D.view dev.old) (D.view dev.new)
            (λ x f. rules.stands (state self.old (D.view dev.old).reads) x × (f ≡ (D.view dev.old).sent)) }
        ensures debt { D.told → LeavesOnly (D.view dev.old) (D.view dev.new)
            (λ x f. (work.debt x ≤ work.debt (D.view dev.old).reads) × (f ≡ (D.view dev.old).sent)) }
        ensures more { D.told → IfOk result (λ more. IsTrue more ↔ (0 < work.debt (D.view dev.new).reads)) }
        // It does four, or all that is left.
        ensures less { D.told → OnOk result (work.debt (D.view dev.new).reads ≤ work.debt (D.view dev.old).reads -
            4) }
        ensures paid { D.told → OnOk result (used (due self.new (D.view dev.new).reads) (D.view dev.new)
            ≤ used (due self.old (D.view dev.old).reads) (D.view dev.old)) }
        ensures most { D.told → (D.view dev.new).writes ≤ used (due self.old (D.view dev.old).reads)
            (D.view dev.old) }
        ensures behind { (D.view dev.new).writes ≤ (D.view dev.old).writes + work.behind_answer }
        // Also where it failed, a crash at any moment leaves what no request touches as it was.
        ensures aside_kept { D.told → LeavesPart (aside self.old) (D.view dev.old) (D.view dev.new) }
        ensures works { CountsRise (D.view dev.old) (D.view dev.new) }
        ensures faults { CountsFault result (D.view dev.old).faults (D.view dev.new).faults };

    /// Does all that is left to be done. The state stays. `Failed` comes only where `faults` rose, and it is spent
    /// then; else they are as they were.
    fn close<D: Device>(&mut self, dev: &mut D) -> Result<(), Failed>
        requires ready { is_ready self.old }
        requires at { D.told → FitsDevice (holds self.old) (D.view dev.old) }
        ensures lender { lender self.new ≡ lender self.old }
        ensures aside { aside self.new ≡ aside self.old }
        ensures ready { OnOk result (is_ready self.new) }
        ensures at { D.told → OnOk result (FitsDevice (holds self.new) (D.view dev.new)) }
        ensures spent { OnErr result (is_spent self.new) }
        ensures state { D.told → OnOk result (state self.new (D.view dev.new).reads ≡ state self.old
            (D.view dev.old).reads) }
        ensures closed { D.told → OnOk result (is_closed (D.view dev.new).reads) }
        ensures sent { D.told → (D.view dev.new).sent ≡ (D.view dev.old).sent }
        ensures any_moment { D.told → LeavesOnly (D.view dev.old) (D.view dev.new)
            (λ x f. rules.stands (state self.old (D.view dev.old).reads) x × (f ≡ (D.view dev.old).sent)) }
        ensures debt { D.told → LeavesOnly (D.view dev.old) (D.view dev.new)
            (λ x f. (work.debt x ≤ work.debt (D.view dev.old).reads) × (f ≡ (D.view dev.old).sent)) }
        ensures paid { D.told → OnOk result (used (due self.new (D.view dev.new).reads) (D.view dev.new)
            ≤ used (due self.old (D.view dev.old).reads) (D.view dev.old)) }
        ensures most { D.told → (D.view dev.new).writes ≤ used (due self.old (D.view dev.old).reads)
            (D.view dev.old) }
        // Also where it failed, a crash at any moment leaves what no request touches as it was.
        ensures aside_kept { D.told → LeavesPart (aside self.old) (D.view dev.old) (D.view dev.new) }
        ensures works { CountsRise (D.view dev.old) (D.view dev.new) }
        ensures faults { CountsFault result (D.view dev.old).faults (D.view dev.new).faults };

    /// A disk stands for the state that it is in.
    ghost stands_now: { (h : Self) (x : Image) → holds h x → rules.stands (state h x) x };

    /// Only replies of a form that can be sent are given.
    ghost given_form: { (s : rules.States) (q : Asked) (r : Answered) (t : rules.States) → rules.gives s q r t
        → HasForm r };
}
