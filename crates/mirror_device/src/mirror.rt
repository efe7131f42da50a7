// Two images as one device.
ghost use Rattle.std.specs.Prelude.{◌≡◌, ◌<◌};
ghost use Rattle.mirror_device.specs.Mirror.{SidesReadAlike, LeftIsSound, NoneIsSound, CountsAgree};

use crate::copy::{CopyingEnd, copy_all};
use crate::ready::{Began, Ready};
use crate::side::{Serving, Side};
use crate::sides::Sides;
use image_device::{Device, Failed, Port, WorkDone};
use std::marker::PhantomData;

/// Two sides served as one device. It owns them, so that what it keeps of them holds on through code
/// that knows it as a device alone; `into_sides` gives them back.
#[derive(Drop)]
pub struct Mirror<P: Sides, K: Began> {
    sides: Ready<P, K>,
    serving: Serving,
    /// How often it answered `Failed`, up to the greatest `u64`.
    faults: u64,
    /// How often a write was called, up to the greatest `u64`.
    writes: u64,
    ghost stands: { CountsAgree (P.view sides.sides) K.start serving },
    ghost alike: { P.told → SidesReadAlike (P.view sides.sides) serving },
    ghost failed: { 0 < faults → NoneIsSound (P.view sides.sides) K.start },
    ghost unfailed: { faults ≡ 0 → LeftIsSound (P.view sides.sides) K.start serving },
}

impl<P: Sides, K: Began> Mirror<P, K> {
    ghost use Rattle.mirror_device.specs.Mirror.{start_at, SidesReadAlike, IsSideLost, LeftIsSound, NoneIsSound};
    ghost use Rattle.mirror_device.specs.Mirror.{CountsAgree};
    ghost use Rattle.mirror_device.specs.Sending.{IsIdleSince, SendsLate, StartsAt};
    ghost use Rattle.mirror_device.specs.Copying.{CopyCounts, CopyWrites, Copying, IsBrokenOff, IsLeftOfFirst};
    ghost use Rattle.image_device.specs.Image.{Image};
    ghost use Rattle.image_device.specs.Runs.{IsFirm};
    ghost use Rattle.std.specs.Prelude.{◌≤◌, ◌↔◌, ℕ, List, IsTrue, IfOk, IfErr, MatchResult};

    /// Copies the first side to the second, and serves both as one. A fault of the second side before
    /// the copying is done makes it lost; so does a count of it that stands at the greatest `u64`.
    /// Where the first side fails, it gives the sides back.
    pub fn new(sides: P) -> Result<Mirror<P, K>, P>
        requires { K.start ≡ start_at (P.view sides) }
        /// promise (with firm, sent): The mirror begins with the second side a copy of the first: it reads as the first
        /// side did, nothing is loose and nothing was sent.
        ensures reads { P.told → IfOk result (λ m. (⟦<Mirror<P, K> as Device>⟧.view m).reads
            ≡ (P.view sides).first.reads) }
        ensures firm { P.told → IfOk result (λ m. IsFirm (⟦<Mirror<P, K> as Device>⟧.view m)) }
        ensures sent { P.told → IfOk result (λ m. (⟦<Mirror<P, K> as Device>⟧.view m).sent
            ≡ (P.view sides).sent) }

        // A crash inside leaves what a crash before it leaves of the first side.
        /// promise: A crash inside leaves what a crash before it left of the first side.
        ensures left { P.told → IfOk result (λ m. (x : Image) (f : List ℕ)
            → (⟦<Mirror<P, K> as Device>⟧.view m).left (P.view sides).clock x f
            → IsLeftOfFirst (P.view sides) x f) }

        ensures clock { IfOk result (λ m. (P.view sides).clock ≤ (⟦<Mirror<P, K> as Device>⟧.view m).clock) }
        ensures faults { IfOk result (λ m. (⟦<Mirror<P, K> as Device>⟧.view m).faults ≡ 0) }
        ensures writes { IfOk result (λ m. (⟦<Mirror<P, K> as Device>⟧.view m).writes ≡ 0) }
        ensures put_faults { IfOk result (λ m. (⟦<Mirror<P, K> as Device>⟧.view m).put_faults
            ≡ (P.view sides).put_faults) }

        // Whatever it answers, of the second side no more sectors are written than differ, and of the first none.
        /// promise: The copying writes no more sectors of the second side than differ, and none of the first.
        ensures differing { P.told → MatchResult result (λ m. CopyWrites (P.view sides) (P.view m.sides.sides))
            (λ rest. CopyWrites (P.view sides) (P.view rest)) }

        // Where it gives the sides back, the first one failed and is as it was, no sync of the second one was answered
        // Ok, and nothing was sent.
        /// promise (with counts, cause): The sides are given back, with the first one as it was and nothing sent, only
        /// where the first side's count of faults rose; then no call failed on the second side, and no sync of it
        /// answered Ok.
        ensures given_back { P.told → IfErr result (λ rest. Copying (P.view sides) (P.view rest)) }
        ensures counts { IfErr result (λ rest. CopyCounts (P.view sides) (P.view rest)) }
        ensures cause { IfErr result (λ rest. IsBrokenOff (P.view sides) (P.view rest)) }
    {
        Mirror::after_reads(sides)
    }

    /// The same where the first side was read since the start: the counts are those of the start, nothing was sent, and
    /// a crash since then leaves of the first side what one now leaves.
    pub fn after_reads(sides: P) -> Result<Mirror<P, K>, P>
        requires counts { StartsAt K.start (P.view sides) }
        requires idle { P.told → IsIdleSince K.start (P.view sides) }
        ensures reads { P.told → IfOk result (λ m. (⟦<Mirror<P, K> as Device>⟧.view m).reads
            ≡ (P.view sides).first.reads) }
        ensures firm { P.told → IfOk result (λ m. IsFirm (⟦<Mirror<P, K> as Device>⟧.view m)) }
        ensures sent { P.told → IfOk result (λ m. (⟦<Mirror<P, K> as Device>⟧.view m).sent
            ≡ (P.view sides).sent) }
        ensures left { P.told → IfOk result (λ m. (x : Image) (f : List ℕ)
            → (⟦<Mirror<P, K> as Device>⟧.view m).left K.start.clock x f → IsLeftOfFirst (P.view sides) x f) }
        ensures clock { IfOk result (λ m. (P.view sides).clock ≤ (⟦<Mirror<P, K> as Device>⟧.view m).clock) }
        ensures faults { IfOk result (λ m. (⟦<Mirror<P, K> as Device>⟧.view m).faults ≡ 0) }
        ensures writes { IfOk result (λ m. (⟦<Mirror<P, K> as Device>⟧.view m).writes ≡ 0) }
        ensures put_faults { IfOk result (λ m. (⟦<Mirror<P, K> as Device>⟧.view m).put_faults
            ≡ (P.view sides).put_faults) }
        ensures differing { P.told → MatchResult result (λ m. CopyWrites (P.view sides) (P.view m.sides.sides))
            (λ rest. CopyWrites (P.view sides) (P.view rest)) }
        ensures given_back { P.told → IfErr result (λ rest. Copying (P.view sides) (P.view rest)) }
        ensures counts { IfErr result (λ rest. CopyCounts (P.view sides) (P.view rest)) }
        ensures cause { IfErr result (λ rest. IsBrokenOff (P.view sides) (P.view rest)) }
    {
        let mut sides = sides;
        let first = sides.seen(Side::First);
        let second = sides.seen(Side::Second);
        if first.faults == u64::MAX {
            return Err(sides);
        }
        if second.faults == u64::MAX || second.syncs == u64::MAX {
            if sides.sync(Side::First).is_err() {
                return Err(sides);
            }
            return Ok(Mirror::begin(sides, Serving::First));
        }
        match copy_all(&mut sides) {
            CopyingEnd::FirstFailed => Err(sides),
            CopyingEnd::SecondFailed => Ok(Mirror::begin(sides, Serving::First)),
            CopyingEnd::Whole => Ok(Mirror::begin(sides, Serving::Both)),
        }
    }

    /// A mirror of these sides, which has answered nothing yet.
    fn begin(sides: P, serving: Serving) -> Mirror<P, K>
        requires stands { CountsAgree (P.view sides) K.start serving }
        requires alike { P.told → SidesReadAlike (P.view sides) serving }
        requires late { P.told → SendsLate (P.view sides) K.start }
        requires unfailed { LeftIsSound (P.view sides) K.start serving }
        ensures sides { result.sides.sides ≡ sides }
        ensures serving { result.serving ≡ serving }
        ensures faults { result.faults ≡ 0 }
        ensures writes { result.writes ≡ 0 }
    {
        Mirror {
            sides: Ready {
                sides,
                began: PhantomData,
            },
            serving,
            faults: 0,
            writes: 0,
        }
    }

    /// Gives the sides back.
    pub fn into_sides(self) -> P
        ensures sides { result ≡ self.sides.sides }
        /// promise: A call on the mirror has failed only where both sides have failed since it began, or the first one
        /// has and the copying was never done; then neither side is sound.
        ensures failed { 0 < (⟦<Mirror<P, K> as Device>⟧.view self).faults → NoneIsSound (P.view result) K.start }
        /// promise (with stands): As long as no call on the mirror has failed, the side that is left is sound, and the
        /// other one has failed exactly where `lost` says so.
        ensures unfailed { (⟦<Mirror<P, K> as Device>⟧.view self).faults ≡ 0
            → LeftIsSound (P.view result) K.start self.serving }
        ensures stands { CountsAgree (P.view result) K.start self.serving }
        /// promise: Bytes are sent only once the copying has ended or the second side has failed.
        ensures late { P.told → SendsLate (P.view result) K.start }
    {
        let Mirror {
            sides,
            serving: _,
            faults: _,
            writes: _,
        } = self;
        let Ready { sides, began: _ } = sides;
        sides
    }

    /// Whether a side is lost: a call on it failed while the other one was left, or it failed in the
    /// copying.
    pub fn lost(&self, side: Side) -> bool
        /// promise: Which side is a failed copy: a call on it failed while the other one was left, or it failed in the
        /// copying.
        ensures { IsTrue result ↔ IsSideLost side self.now.serving }
    {
        match side {
            Side::First => self.serving == Serving::Second,
            Side::Second => self.serving == Serving::First,
        }
    }
}

impl<P: Sides, K: Began> Device for Mirror<P, K> {
    ghost use Rattle.std.specs.Prelude.{true, OnErr, OnOk};
    ghost use Rattle.image_device.specs.Calls.{Rests, Settles, Touches, Uses};
    ghost use Rattle.image_device.specs.Counts.{CountsFault};
    ghost use Rattle.image_device.specs.Runs.{IsFirm};
    ghost use Rattle.mirror_device.specs.Mirror.{mirror_view, LostRest, OneCall};
    ghost use Rattle.mirror_device.specs.MirrorLaws.{mirror_sound};

    ghost told = { P.told };

    ghost view = { λ m. mirror_view (P.view m.sides.sides) K.start m.serving m.faults m.writes };

    ghost sound = { λ m told.
        mirror_sound (P.view m.sides.sides) K.start m.serving m.faults m.writes
        (P.sound m.sides.sides told) m.stands (m.alike told) };

    fn read(&mut self, sector: u32, into: &mut [u8; 512]) -> Result<(), Failed>
        ensures bytes { P.told → OnOk result (into.new ≡ (⟦<Mirror<P, K> as Device>⟧.view self.old).reads sector) }
        ensures kept { OnErr result (into.new ≡ into.old) }
        ensures rests { P.told → Rests (⟦<Mirror<P, K> as Device>⟧.view self.old)
            (⟦<Mirror<P, K> as Device>⟧.view self.new) }
        ensures uses { Uses 0 (⟦<Mirror<P, K> as Device>⟧.view self.old) (⟦<Mirror<P, K> as Device>⟧.view self.new) }
        ensures faults { CountsFault result (⟦<Mirror<P, K> as Device>⟧.view self.old).faults
            (⟦<Mirror<P, K> as Device>⟧.view self.new).faults }
        ensures one_call { OneCall result self.old.serving self.new.serving (P.view self.old.sides.sides)
            (P.view self.new.sides.sides) }
        // A side that is lost is written no more and synced no more, by the call that loses it neither.
        ensures lost_rest { P.told → LostRest self.new.serving (P.view self.old.sides.sides)
            (P.view self.new.sides.sides) }
    {
        match self.serving {
            Serving::Both => {
                if self.sides.read(Side::First, sector, into).is_ok() {
                    return Ok(());
                }
                self.serving = Serving::Second;
                if self.sides.read(Side::Second, sector, into).is_err() {
                    self.faults = self.faults.saturating_add(1);
                    return Err(Failed);
                }
                Ok(())
            }
            Serving::First => {
                if self.sides.read(Side::First, sector, into).is_err() {
                    self.faults = self.faults.saturating_add(1);
                    return Err(Failed);
                }
                Ok(())
            }
            Serving::Second => {
                if self.sides.read(Side::Second, sector, into).is_err() {
                    self.faults = self.faults.saturating_add(1);
                    return Err(Failed);
                }
                Ok(())
            }
        }
    }

    fn write(&mut self, sector: u32, from: &[u8; 512]) -> Result<(), Failed>
        ensures written { P.told → OnOk result ((⟦<Mirror<P, K> as Device>⟧.view self.new).reads sector ≡ from.now) }
        ensures loose { P.told → OnOk result ((⟦<Mirror<P, K> as Device>⟧.view self.new).loose sector ≡ true) }
        ensures touches { P.told → Touches sector (⟦<Mirror<P, K> as Device>⟧.view self.old)
            (⟦<Mirror<P, K> as Device>⟧.view self.new) }
        ensures uses { Uses 1 (⟦<Mirror<P, K> as Device>⟧.view self.old) (⟦<Mirror<P, K> as Device>⟧.view self.new) }
        ensures faults { CountsFault result (⟦<Mirror<P, K> as Device>⟧.view self.old).faults
            (⟦<Mirror<P, K> as Device>⟧.view self.new).faults }
        ensures one_call { OneCall result self.old.serving self.new.serving (P.view self.old.sides.sides)
            (P.view self.new.sides.sides) }
        // A side that is lost is written no more and synced no more, by the call that loses it neither.
        ensures lost_rest { P.told → LostRest self.new.serving (P.view self.old.sides.sides)
            (P.view self.new.sides.sides) }
    {
        self.writes = self.writes.saturating_add(1);
        match self.serving {
            Serving::Both => {
                if self.sides.write(Side::First, sector, from).is_err() {
                    self.serving = Serving::Second;
                    if self.sides.write(Side::Second, sector, from).is_err() {
                        self.faults = self.faults.saturating_add(1);
                        return Err(Failed);
                    }
                    return Ok(());
                }
                if self.sides.write(Side::Second, sector, from).is_err() {
                    self.serving = Serving::First;
                }
                Ok(())
            }
            Serving::First => {
                if self.sides.write(Side::First, sector, from).is_err() {
                    self.faults = self.faults.saturating_add(1);
                    return Err(Failed);
                }
                Ok(())
            }
            Serving::Second => {
                if self.sides.write(Side::Second, sector, from).is_err() {
                    self.faults = self.faults.saturating_add(1);
                    return Err(Failed);
                }
                Ok(())
            }
        }
    }

    fn sync(&mut self) -> Result<(), Failed>
        ensures firm { P.told → OnOk result (IsFirm (⟦<Mirror<P, K> as Device>⟧.view self.new)) }
        ensures loose { P.told → OnErr result ((⟦<Mirror<P, K> as Device>⟧.view self.new).loose
            ≡ (⟦<Mirror<P, K> as Device>⟧.view self.old).loose) }
        ensures settles { P.told → Settles (⟦<Mirror<P, K> as Device>⟧.view self.old)
            (⟦<Mirror<P, K> as Device>⟧.view self.new) }
        ensures uses { Uses 0 (⟦<Mirror<P, K> as Device>⟧.view self.old) (⟦<Mirror<P, K> as Device>⟧.view self.new) }
        ensures faults { CountsFault result (⟦<Mirror<P, K> as Device>⟧.view self.old).faults
            (⟦<Mirror<P, K> as Device>⟧.view self.new).faults }
        ensures one_call { OneCall result self.old.serving self.new.serving (P.view self.old.sides.sides)
            (P.view self.new.sides.sides) }
        // A side that is lost is written no more and synced no more, by the call that loses it neither.
        ensures lost_rest { P.told → LostRest self.new.serving (P.view self.old.sides.sides)
            (P.view self.new.sides.sides) }
    {
        match self.serving {
            Serving::Both => {
                if self.sides.sync(Side::First).is_err() {
                    self.serving = Serving::Second;
                    if self.sides.sync(Side::Second).is_err() {
                        self.faults = self.faults.saturating_add(1);
                        return Err(Failed);
                    }
                    return Ok(());
                }
                if self.sides.sync(Side::Second).is_err() {
                    self.serving = Serving::First;
                }
                Ok(())
            }
            Serving::First => {
                if self.sides.sync(Side::First).is_err() {
                    self.faults = self.faults.saturating_add(1);
                    return Err(Failed);
                }
                Ok(())
            }
            Serving::Second => {
                if self.sides.sync(Side::Second).is_err() {
                    self.faults = self.faults.saturating_add(1);
                    return Err(Failed);
                }
                Ok(())
            }
        }
    }

    fn show_work_done(&self, done: WorkDone) {
        self.sides.show_work_done(done);
    }
}

impl<P: Sides, K: Began> Port for Mirror<P, K> {
    fn put(&mut self, piece: &[u8]) -> Result<usize, Failed> {
        self.sides.put(piece)
    }
}
