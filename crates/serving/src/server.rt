//! What answers requests.

ghost use Rattle.std.specs.Prelude.{◌≡◌, ◌≢◌, ◌≤◌, ◌+◌, ◌-◌, ◌++◌, ◌⊎◌, ℕ, List};
ghost use Rattle.std.specs.Prelude.{Err, OnOk, OnErr, IfErr};
ghost use Rattle.image_device.specs.Counts.{CountsFault, CountsFaultOf};
ghost use Rattle.image_device.specs.Image.{Image};
ghost use Rattle.image_device.specs.Runs.{LeavesOnly, LeavesPart};
ghost use Rattle.serving.specs.Handling.{FitsDevice, CountsRise};
ghost use Rattle.serving.specs.Prompt.{EndsBySending, IsOfPort, IsPrompt, mark};
ghost use Rattle.serving.specs.Service.{Service, IsCounted, IsInAnswer, LeftBy};
ghost use Rattle.serving.specs.Work.{WorkCount, used};

use crate::protocol::Protocol;
use image_device::{Device, Failed, Port};
use tsd_words::Status;

/// Answers the requests of a protocol on a disk with a port beside it. What is said of contents, of the state, of what
/// was sent and of writes is said where the disk tells.
pub trait Server<R: Protocol> {
    /// What is served, by its rules.
    ghost service: { Service R.Request };

    /// How its work is counted.
    ghost work: { WorkCount R.Request service.States };

    /// It may be used.
    ghost is_ready: { Self → Type 0 };

    /// It is spent: a call on its disk failed.
    ghost is_spent: { Self → Type 0 };

    /// What it holds in memory fits a disk that reads so.
    ghost holds: { Self → Image → Type 0 };

    /// The state, where the disk reads so.
    ghost state: { Self → Image → service.States };

    /// How many writes are still due, where the disk reads so.
    ghost due: { Self → Image → ℕ };

    /// Nothing is left to be done on a disk that reads so.
    ghost is_closed: { Image → Type 0 };

    /// Nothing is done behind an answer.
    ghost ends_by_sending: { Type 0 };

    /// What of an image no request touches.
    ghost aside: { Self → Image → Image };

    /// The name of the reference through which it holds its disk, where it borrows that.
    ghost lender: { Self → ℕ };

    /// Carries out a request and sends its answer whole, and may then do some of what is left to be done. The status is
    /// DeviceFault where `faults` rose, and PutFault where `put_faults` rose; else both are as they were.
    fn answer<P: Port>(&mut self, port: &mut P, request: &R::Request) -> Result<(), Status>
        requires ready { is_ready self.old }
        requires at { P.told → FitsDevice (holds self.old) (P.view port.old) }
        ensures lender { lender self.new ≡ lender self.old }
        ensures aside { aside self.new ≡ aside self.old }
        // Unless the device failed, it may be used again, also where the answer couldn't be sent whole; else it is
        // spent.
        ensures ready { result ≢ Err Status.DeviceFault → is_ready self.new }
        ensures at { result ≢ Err Status.DeviceFault → P.told → FitsDevice (holds self.new) (P.view port.new) }
        ensures spent { result ≡ Err Status.DeviceFault → is_spent self.new }
        /// promise (with left): The whole answer is sent, which is one that the service gives. Where sending failed, a
        /// proper front of it, and the state is the one that it leads to; where the device failed, nothing of it, all
        /// of it or, of an answer that is sent in parts, a front.
        ensures answered { P.told → OnOk result ((answer : List ℕ)
            × service.gives (state self.old (P.view port.old).reads) request.now answer
            (state self.new (P.view port.new).reads) × ((P.view port.new).sent ≡ (P.view port.old).sent ++ answer)) }
        ensures left { P.told → IfErr result (λ why. LeftBy why service (state self.old (P.view port.old).reads)
            request.now (state self.new (P.view port.new).reads) (P.view port.old).sent (P.view port.new).sent) }
        /// promise: A crash at any moment leaves the state before, the state after, or what the service lets be between
        /// these, with a front of the answer sent; once all of it was sent, the state after.
        ensures any_moment { P.told → LeavesOnly (P.view port.old) (P.view port.new)
            (IsInAnswer service (state self.old (P.view port.old).reads) request.now (P.view port.old).sent) }
        ensures debt { P.told → work.bounded request.now → LeavesOnly (P.view port.old) (P.view port.new)
            (λ x f. work.debt x ≤ work.debt (P.view port.old).reads + work.made
            (state self.old (P.view port.old).reads) request.now) }
        // Four are done, or all that is left.
        ensures less { P.told → work.bounded request.now → OnOk result (work.debt (P.view port.new).reads
            ≤ work.debt (P.view port.old).reads + work.made (state self.old (P.view port.old).reads) request.now - 4) }
        ensures paid { P.told → work.bounded request.now
            → OnOk result (used (due self.new (P.view port.new).reads) (P.view port.new)
            ≤ used (due self.old (P.view port.old).reads) (P.view port.old) + work.cost
            (state self.old (P.view port.old).reads) request.now) }
        ensures most { P.told → work.bounded request.now → (P.view port.new).writes
            ≤ used (due self.old (P.view port.old).reads) (P.view port.old) + work.cost
            (state self.old (P.view port.old).reads) request.now }
        // What is done before the answer is sent has a bound, and what is done behind it.
        ensures prompt { P.told → OnOk result (IsPrompt service work (IsOfPort P.view)
            (state self.old (P.view port.old).reads) request.now (mark (P.view port.old)) (mark (P.view port.new))) }
        // Where nothing is done behind an answer, a crash leaves the disk as it reads in the end once all was sent.
        ensures still { P.told → ends_by_sending → OnOk result (EndsBySending (P.view port.old) (P.view port.new)) }
        // However it ended, a crash at any moment leaves what no request touches as it was.
        ensures aside_kept { P.told → LeavesPart (aside self.old) (P.view port.old) (P.view port.new) }
        ensures stops { IfErr result (λ why. (why ≡ Status.DeviceFault) ⊎ (why ≡ Status.PutFault)) }
        ensures faults { CountsFaultOf Status.DeviceFault result (P.view port.old).faults (P.view port.new).faults }
        ensures put_faults { CountsFaultOf Status.PutFault result (P.view port.old).put_faults
            (P.view port.new).put_faults };

    /// Does all that is left to be done. The state stays. `Failed` comes only where `faults` rose, and it is spent
    /// then; else they are as they were.
    fn close<D: Device>(&mut self, dev: &mut D) -> Result<(), Failed>
        requires ready { is_ready self.old }
        requires at { D.told → FitsDevice (holds self.old) (D.view dev.old) }
        ensures lender { lender self.new ≡ lender self.old }
        ensures aside { aside self.new ≡ aside self.old }
        ensures ready { OnOk result (is_ready self.new) }
        ensures at { D.told → OnOk result (FitsDevice (holds self.new) (D.view dev.new)) }
        ensures spent { OnErr result (is_spent self.new) }
        ensures state { D.told → OnOk result (state self.new (D.view dev.new).reads ≡ state self.old
            (D.view dev.old).reads) }
        ensures closed { D.told → OnOk result (is_closed (D.view dev.new).reads) }
        ensures sent { D.told → (D.view dev.new).sent ≡ (D.view dev.old).sent }
        ensures any_moment { D.told → LeavesOnly (D.view dev.old) (D.view dev.new)
            (λ x f. service.stands (state self.old (D.view dev.old).reads) x × (f ≡ (D.view dev.old).sent)) }
        ensures debt { D.told → LeavesOnly (D.view dev.old) (D.view dev.new)
            (λ x f. (work.debt x ≤ work.debt (D.view dev.old).reads) × (f ≡ (D.view dev.old).sent)) }
        ensures most { D.told → (D.view dev.new).writes ≤ used (due self.old (D.view dev.old).reads)
            (D.view dev.old) }
        // Also where it failed, a crash at any moment leaves what no request touches as it was.
        ensures aside_kept { D.told → LeavesPart (aside self.old) (D.view dev.old) (D.view dev.new) }
        ensures works { CountsRise (D.view dev.old) (D.view dev.new) }
        ensures faults { CountsFault result (D.view dev.old).faults (D.view dev.new).faults };

    /// A disk stands for the state that it is in.
    ghost stands_now: { (h : Self) (x : Image) → holds h x → service.stands (state h x) x };

    /// The state that it is in rests there.
    ghost rests_now: { (h : Self) (x : Image) → holds h x → service.rests (state h x) x };

    /// Answers part in one way.
    ghost counted: { IsCounted service };
}
