//! The disk as one call.

ghost use Rattle.std.specs.Prelude.{◌≡◌, true, false, OnOk, OnErr, IfOk};
ghost use Rattle.image_device.specs.Counts.{CountsFault};
ghost use Rattle.fs_port.specs.View.{DiskView, IsDiskSound};
ghost use Rattle.tsd_model.specs.Needs.{is_steady};
ghost use Rattle.fs_port.specs.Calls.{Counts, IsAskCarriedOut, IsEitherSide, LeavesWorldsOnly, Stays};

use image_device::{Failed, WorkDone};
use tsd_model::{Geometry, Reply, Request};

/// A disk of blocks, as its clients ask it. An ask that is answered leaves the count of faults as it was, so that no
/// failed call is tried again and forgotten.
pub trait Blocks {
    /// Whether it tells its world: a type tells or doesn't.
    ghost told: { Type 0 };

    /// What it is. The world, the bytes sent and what a crash leaves are said only where it is told.
    ghost view: { Self → DiskView };

    /// How large the disk is.
    fn geometry(&self) -> Geometry
        ensures { result ≡ (view self.now).geometry };

    /// Carries out a request: the answer is that of the rules of the disk, or NoMemory to an open that they don't
    /// refuse, with nothing changed. A crash inside leaves the world before or the one after. `Failed` comes only where
    /// `faults` rose, and then the disk is spent.
    fn ask(&mut self, request: &Request) -> Result<Reply, Failed>
        requires { (view self.old).spent ≡ false }
        /// promise: An answered ask is the step of the abstract disk, or no memory at an open.
        ensures step { told → IfOk result (λ reply. IsAskCarriedOut (view self.old) (view self.new) request.now reply) }
        /// promise: A crash leaves the world before or after it.
        ensures crash { told → LeavesWorldsOnly (view self.old) (view self.new)
            (IsEitherSide (view self.old) request.now) }
        ensures stays { is_steady request.now ≡ true → OnOk result (Stays (view self.old) (view self.new)) }
        ensures counts { Counts (view self.old) (view self.new) }
        /// promise: `Failed` comes only where the count of faults rose, and an answer leaves it.
        ensures faults { CountsFault result (view self.old).faults (view self.new).faults }
        ensures unspent { OnOk result ((view self.new).spent ≡ false) }
        ensures spent { OnErr result ((view self.new).spent ≡ true) };

    /// Whether an ask failed.
    fn is_spent(&self) -> bool
        ensures { result ≡ (view self.now).spent };

    /// Shows what long work has done by now, where somebody looks. It changes nothing, and a disk that shows nothing
    /// leaves it out.
    fn show_work_done(&self, done: WorkDone) {
        let _ = done;
    }

    /// What holds of it at each moment.
    ghost sound: { (d : Self) → told → (view d).spent ≡ false → IsDiskSound (view d) };
}
