//! What carries out requests in groups.

ghost use Rattle.std.specs.Prelude.{◌≡◌, ◌<◌, ◌↔◌, ℕ, IsTrue, true, false, OnOk, IfOk};
ghost use Rattle.image_device.specs.Counts.{CountsFault};
ghost use Rattle.image_device.specs.Image.{Image};
ghost use Rattle.image_device.specs.Runs.{LeavesOnly, LeavesPart};
ghost use Rattle.intent_journal.specs.Home.{home, is_journal, AgreeBut};
ghost use Rattle.intent_journal.specs.Records.{AreClosed};
ghost use Rattle.gathering.specs.Left.{IsHomeOf};
ghost use Rattle.serving.specs.Handling.{FitsDevice, CountsRise};
ghost use Rattle.tsd_model.specs.declared.requests.Request.{Request as Asked};

use image_device::{Device, Failed};
use serving::Handler;
use tsd_model::Request;

/// A handler whose disk may be another one in the next group: one that stands for the same, its journal closed.
pub trait GroupHandler: Handler {
    /// How much is left to be done.
    ghost owed: { Self → ℕ };

    /// Which requests may have to wait for what is left to be done.
    ghost may_wait: { Asked → Type 0 };

    /// How many homes a request may have at most, with no step of reclamation behind it. It decides only when a group
    /// ends; only a request that may have to wait has more than a batch holds.
    fn homes(&self, request: &Request) -> usize
        ensures { 113 < result → Self.may_wait request.now };

    /// Whether something is left to be done.
    fn is_owed(&self) -> bool
        requires { Self.is_ready self.now }
        ensures { IsTrue result ↔ (0 < Self.owed self.now) };

    /// Does one step of what is left to be done, if one is left; whether it did. The state stays. `Failed` comes only
    /// where `faults` rose, and it is spent then; else they are as they were.
    fn settle_one<D: Device>(&mut self, dev: &mut D) -> Result<bool, Failed>
        requires ready { Self.is_ready self.old }
        requires at { D.told → FitsDevice (Self.holds self.old) (D.view dev.old) }
        ensures aside { Self.aside self.new ≡ Self.aside self.old }
        ensures ready { OnOk result (Self.is_ready self.new) }
        ensures at { D.told → OnOk result (FitsDevice (Self.holds self.new) (D.view dev.new)) }
        ensures state { D.told → OnOk result (Self.state self.new (D.view dev.new).reads ≡ Self.state self.old
            (D.view dev.old).reads) }
        ensures lowered { IfOk result (λ some. some ≡ true → Self.owed self.new < Self.owed self.old) }
        ensures none { IfOk result (λ some. some ≡ false → Self.owed self.new ≡ 0) }
        ensures sent { D.told → (D.view dev.new).sent ≡ (D.view dev.old).sent }
        ensures any_moment { D.told → LeavesOnly (D.view dev.old) (D.view dev.new)
            (λ x f. Self.rules.stands (Self.state self.old (D.view dev.old).reads) x × (f ≡ (D.view dev.old).sent)) }
        ensures aside_kept { D.told → LeavesPart (Self.aside self.old) (D.view dev.old) (D.view dev.new) }
        ensures works { CountsRise (D.view dev.old) (D.view dev.new) }
        ensures faults { CountsFault result (D.view dev.old).faults (D.view dev.new).faults };

    /// Puts all records of the journal in place and closes its gates. The state stays, and what is left to be done.
    /// `Failed` comes only where `faults` rose, and it is spent then; else they are as they were.
    fn empty_ring<D: Device>(&mut self, dev: &mut D) -> Result<(), Failed>
        requires ready { Self.is_ready self.old }
        requires at { D.told → FitsDevice (Self.holds self.old) (D.view dev.old) }
        ensures aside { Self.aside self.new ≡ Self.aside self.old }
        ensures ready { OnOk result (Self.is_ready self.new) }
        ensures at { D.told → OnOk result (FitsDevice (Self.holds self.new) (D.view dev.new)) }
        ensures closed { D.told → OnOk result (AreClosed (D.view dev.new).reads) }
        ensures state { D.told → OnOk result (Self.state self.new (D.view dev.new).reads ≡ Self.state self.old
            (D.view dev.old).reads) }
        ensures owes { OnOk result (Self.owed self.new ≡ Self.owed self.old) }
        ensures sent { D.told → (D.view dev.new).sent ≡ (D.view dev.old).sent }
        ensures any_moment { D.told → LeavesOnly (D.view dev.old) (D.view dev.new)
            (λ x f. Self.rules.stands (Self.state self.old (D.view dev.old).reads) x × (f ≡ (D.view dev.old).sent)) }
        ensures aside_kept { D.told → LeavesPart (Self.aside self.old) (D.view dev.old) (D.view dev.new) }
        ensures works { CountsRise (D.view dev.old) (D.view dev.new) }
        ensures faults { CountsFault result (D.view dev.old).faults (D.view dev.new).faults };

    /// What it holds in memory over one disk, its journal closed, fits another one that reads the same outside the
    /// journal, and the state is the same.
    ghost carried: { (h : Self) (x y : Image) → Self.holds h x → AreClosed x → AreClosed y → AgreeBut is_journal x y
        → Self.holds h y × (Self.state h y ≡ Self.state h x) };

    /// An image whose home is that of another one stands for the same states.
    ghost alike: { (s : Self.rules.States) (x y : Image) → IsHomeOf (home x) y → Self.rules.stands s x
        → Self.rules.stands s y };

    /// What no request touches of it is the same.
    ghost aside_alike: { (h : Self) (x y : Image) → IsHomeOf (home x) y → Self.aside h y ≡ Self.aside h x };

    /// What is left to be done is counted on a disk that it fits.
    ghost owes: { (h : Self) (x : Image) → Self.holds h x → Self.work.debt x ≡ Self.owed h };

    /// An image whose home is that of a disk that it fits has as much left to be done.
    ghost owed_alike: { (h : Self) (x y : Image) → Self.holds h x → IsHomeOf (home x) y
        → Self.work.debt y ≡ Self.work.debt x };

    /// Where nothing is left to be done and the journal is closed, no write is due.
    ghost due_none: { (h : Self) (x : Image) → Self.holds h x → AreClosed x → Self.owed h ≡ 0 → Self.due h x ≡ 0 };
}
