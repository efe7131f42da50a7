// What a disk and a port mean.
ghost use Rattle.std.specs.Prelude.{◌≡◌, ◌<◌, ◌≤◌, ◌+◌, ◌++◌, ℕ, true, length, take, OnOk};
ghost use Rattle.std.specs.Prelude.{OnErr, IfOk};
ghost use Rattle.image_device.specs.Counts.{CountsFault};
ghost use Rattle.image_device.specs.View.{View, IsLeftInPut, IsSound};
ghost use Rattle.image_device.specs.Calls.{Appends, Includes, Puts, Rests, Settles, Touches, Uses};
ghost use Rattle.image_device.specs.Runs.{IsFirm};

use crate::WorkDone;

/// The call failed, and the count of its kind rose.
#[derive(Clone, Copy, Debug, PartialEq, Eq)]
pub struct Failed;

/// A disk of sectors of 512 bytes. A sector never written reads as zeros. A call that answers Ok
/// leaves the count of faults as it was, so that no failed call is tried again and forgotten.
pub trait Device {
    /// Whether it tells its contents: a type tells or doesn't, and so it does after a call as before.
    ghost told: { Type 0 };

    /// What it is. All but the counts and the clock is said only where it is told.
    ghost view: { Self → View };

    /// Reads a sector. `Failed` comes only where `faults` rose, and leaves `into` as it was.
    fn read(&mut self, sector: u32, into: &mut [u8; 512]) -> Result<(), Failed>
        /// promise (with rests): The bytes of the sector, and nothing changes.
        ensures bytes { told → OnOk result (into.new ≡ (view self.old).reads sector) }
        ensures kept { OnErr result (into.new ≡ into.old) }
        ensures rests { told → Rests (view self.old) (view self.new) }
        ensures uses { Uses 0 (view self.old) (view self.new) }
        /// promise: **No fault is swallowed.** `Failed` comes only where the device's count of faults rose in this
        /// call, and Ok leaves that count as it was: so of each call here, and in every crate above.
        ensures faults { CountsFault result (view self.old).faults (view self.new).faults };

    /// Writes a sector. Until the next sync a crash may leave any bytes in it, after a write that
    /// failed too. `Failed` comes only where `faults` rose.
    fn write(&mut self, sector: u32, from: &[u8; 512]) -> Result<(), Failed>
        /// promise (with loose): After Ok the sector reads as the new bytes, and is loose: a crash may leave any bytes
        /// in it.
        ensures written { told → OnOk result ((view self.new).reads sector ≡ from.now) }
        ensures loose { told → OnOk result ((view self.new).loose sector ≡ true) }
        /// promise: No other sector is touched, and inside the call a crash leaves no image but those in which this
        /// sector is loose too; so also after a failure.
        ensures touches { told → Touches sector (view self.old) (view self.new) }
        ensures uses { Uses 1 (view self.old) (view self.new) }
        ensures faults { CountsFault result (view self.old).faults (view self.new).faults };

    /// Waits until all that was written is on the disk. `Failed` comes only where `faults` rose.
    fn sync(&mut self) -> Result<(), Failed>
        /// promise: After Ok nothing is loose.
        ensures firm { told → OnOk result (IsFirm (view self.new)) }
        /// promise (with settles): After a failure what was loose stays so; a sync changes no byte that is read.
        ensures loose { told → OnErr result ((view self.new).loose ≡ (view self.old).loose) }
        ensures settles { told → Settles (view self.old) (view self.new) }
        ensures uses { Uses 0 (view self.old) (view self.new) }
        ensures faults { CountsFault result (view self.old).faults (view self.new).faults };

    /// Shows what long work has done by now, where somebody looks. It changes nothing, and a device that
    /// shows nothing leaves it out.
    fn show_work_done(&self, done: WorkDone) {
        let _ = done;
    }

    /// What holds of it at each moment.
    ghost sound: { (d : Self) → told → IsSound (view d) };
}

/// A disk with a port beside it, under one clock.
pub trait Port: Device {
    /// Sends a front of the piece and gives its length, which is at least 1. After `Failed` a
    /// shorter front than the piece may be sent. `Failed` comes only where `put_faults` rose.
    fn put(&mut self, piece: &[u8]) -> Result<usize, Failed>
        requires { 0 < length piece.now }
        /// promise (with sent, part): Sends a front of the piece, of at least one byte; after a failure some shorter
        /// front may have been sent.
        ensures some { IfOk result (λ count. (0 < count) × (count ≤ length piece.now)) }
        ensures sent { Self.told → IfOk result (λ count. (Self.view self.new).sent ≡ (Self.view self.old).sent
            ++ take count piece.now) }
        ensures part { Self.told → OnErr result ((count : ℕ) × (count < length piece.now)
            × ((Self.view self.new).sent ≡ (Self.view self.old).sent ++ take count piece.now)) }
        ensures appends { Self.told → Appends piece.now (Self.view self.old) (Self.view self.new) }
        ensures includes { Self.told → OnOk result (Includes (Self.view self.old) (Self.view self.new)
            (IsLeftInPut piece.now (Self.view self.old))) }
        ensures puts { Puts (Self.view self.old) (Self.view self.new) }
        ensures faults { CountsFault result (Self.view self.old).put_faults (Self.view self.new).put_faults };
}
