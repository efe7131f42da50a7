// What two images under one clock mean.
ghost use Rattle.std.specs.Prelude.{◌≡◌, ◌<◌, ◌≤◌, ◌+◌, ◌^◌, ◌++◌, ℕ, true, length, take};
ghost use Rattle.std.specs.Prelude.{OnOk, OnErr, IfOk};
ghost use Rattle.image_device.specs.Counts.{raised, CountsFault};
ghost use Rattle.image_device.specs.Image.{zeros};
ghost use Rattle.mirror_device.specs.SidesView.{side_of, SidesAreSound, SidesView};
ghost use Rattle.mirror_device.specs.SideCalls.{CountsWrite};
ghost use Rattle.mirror_device.specs.SideCalls.{IncludesPut, IsSideFirm, SideRests, SideSettles, SideSyncs};
ghost use Rattle.mirror_device.specs.SideCalls.{SidesAppend, SidesPut, SideTouches, SideUses};

use crate::side::{Side, SideCounts};
use image_device::{Failed, WorkDone};

/// Two disks of sectors of 512 bytes, with a port beside them, under one clock. A call on one side
/// leaves the other as it was. A call that answers Ok leaves the count of faults of its side as it
/// was, and a sync that answers Ok raises the side's count of syncs.
pub trait Sides {
    /// Whether they tell their contents.
    ghost told: { Type 0 };

    /// What they are. All but the counts and the clock is said only where it is told.
    ghost view: { Self → SidesView };

    /// Reads a sector of a side. `Failed` comes only where the side's `faults` rose, and leaves
    /// `into` as it was.
    fn read(&mut self, side: Side, sector: u32, into: &mut [u8; 512]) -> Result<(), Failed>
        ensures bytes { told → OnOk result (into.new ≡ (side_of side (view self.old)).reads sector) }
        ensures kept { OnErr result (into.new ≡ into.old) }
        ensures rests { told → SideRests side (view self.old) (view self.new) }
        ensures uses { SideUses side (view self.old) (view self.new) }
        ensures faults { CountsFault result (side_of side (view self.old)).faults
            (side_of side (view self.new)).faults };

    /// Writes a sector of a side. `Failed` comes only where the side's `faults` rose.
    fn write(&mut self, side: Side, sector: u32, from: &[u8; 512]) -> Result<(), Failed>
        ensures written { told → OnOk result ((side_of side (view self.new)).reads sector ≡ from.now) }
        ensures loose { told → OnOk result ((side_of side (view self.new)).loose sector ≡ true) }
        ensures counted { told → CountsWrite result (side_of side (view self.old)).writes
            (side_of side (view self.new)).writes }
        ensures touches { told → SideTouches side sector (view self.old) (view self.new) }
        ensures uses { SideUses side (view self.old) (view self.new) }
        ensures faults { CountsFault result (side_of side (view self.old)).faults
            (side_of side (view self.new)).faults };

    /// Waits until all that was written on a side is on its disk. Its `syncs` rise by one, and exactly
    /// where this answers Ok. `Failed` comes only where the side's `faults` rose.
    fn sync(&mut self, side: Side) -> Result<(), Failed>
        ensures firm { told → OnOk result (IsSideFirm side (view self.new)) }
        ensures loose { told → OnErr result ((side_of side (view self.new)).loose
            ≡ (side_of side (view self.old)).loose) }
        ensures settles { told → SideSettles side (view self.old) (view self.new) }
        ensures uses { SideSyncs side (view self.old) (view self.new) }
        ensures synced { OnOk result ((side_of side (view self.new)).syncs
            ≡ raised (side_of side (view self.old)).syncs) }
        ensures not_synced { OnErr result ((side_of side (view self.new)).syncs
            ≡ (side_of side (view self.old)).syncs) }
        ensures faults { CountsFault result (side_of side (view self.old)).faults
            (side_of side (view self.new)).faults };

    /// A number from which on every sector of a side reads as zeros. `Failed` comes only where the
    /// side's `faults` rose.
    fn end(&mut self, side: Side) -> Result<u64, Failed>
        ensures range { IfOk result (λ end. end ≤ 2 ^ 32) }
        ensures zeros { told → IfOk result (λ end. (n : ℕ) → end ≤ n → (side_of side (view self.old)).reads n
            ≡ zeros) }
        ensures rests { told → SideRests side (view self.old) (view self.new) }
        ensures uses { SideUses side (view self.old) (view self.new) }
        ensures faults { CountsFault result (side_of side (view self.old)).faults
            (side_of side (view self.new)).faults };

    /// Both counts of a side.
    fn seen(&self, side: Side) -> SideCounts
        ensures faults { result.faults ≡ (side_of side (view self.now)).faults }
        ensures syncs { result.syncs ≡ (side_of side (view self.now)).syncs };

    /// Sends a front of the piece and gives its length, which is at least 1. After `Failed` a
    /// shorter front than the piece may be sent. `Failed` comes only where `put_faults` rose.
    fn put(&mut self, piece: &[u8]) -> Result<usize, Failed>
        requires { 0 < length piece.now }
        ensures some { IfOk result (λ count. (0 < count) × (count ≤ length piece.now)) }
        ensures sent { told → IfOk result (λ count. (view self.new).sent ≡ (view self.old).sent
            ++ take count piece.now) }
        ensures part { told → OnErr result ((count : ℕ) × (count < length piece.now)
            × ((view self.new).sent ≡ (view self.old).sent ++ take count piece.now)) }
        ensures appends { told → SidesAppend piece.now (view self.old) (view self.new) }
        ensures includes { told → OnOk result (IncludesPut piece.now (view self.old) (view self.new)) }
        ensures puts { SidesPut (view self.old) (view self.new) }
        ensures faults { CountsFault result (view self.old).put_faults (view self.new).put_faults };

    /// Shows what long work has done by now, where somebody looks. It changes nothing, and sides that
    /// show nothing leave it out.
    fn show_work_done(&self, done: WorkDone) {
        let _ = done;
    }

    /// What holds of them at each moment.
    ghost sound: { (d : Self) → told → SidesAreSound (view d) };
}

impl<P: Sides> Sides for &mut P {
    ghost told = { P.told };

    ghost view = { λ s. P.view s.now };

    ghost sound = { λ s told. P.sound s.now told };

    fn read(&mut self, side: Side, sector: u32, into: &mut [u8; 512]) -> Result<(), Failed> {
        (**self).read(side, sector, into)
    }

    fn write(&mut self, side: Side, sector: u32, from: &[u8; 512]) -> Result<(), Failed> {
        (**self).write(side, sector, from)
    }

    fn sync(&mut self, side: Side) -> Result<(), Failed> {
        (**self).sync(side)
    }

    fn end(&mut self, side: Side) -> Result<u64, Failed> {
        (**self).end(side)
    }

    fn seen(&self, side: Side) -> SideCounts {
        (**self).seen(side)
    }

    fn put(&mut self, piece: &[u8]) -> Result<usize, Failed> {
        (**self).put(piece)
    }

    fn show_work_done(&self, done: WorkDone) {
        (**self).show_work_done(done);
    }
}
