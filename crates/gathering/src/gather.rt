// A disk in memory over a real one.
ghost use Rattle.std.specs.Prelude.{◌≡◌, ◌≤◌, ◌<◌, ◌+◌, ◌⊎◌, true, false, length};
ghost use Rattle.image_device.specs.Calls.{Uses};
ghost use Rattle.image_device.specs.Counts.{Rose};
ghost use Rattle.image_device.specs.View.{IsLeftNow};
ghost use Rattle.image_device.specs.Runs.{IsFirm, LeavesOnly};
ghost use Rattle.intent_journal.specs.Ring.{IsRingAt};
ghost use Rattle.gathering.specs.Gathered.{AreWhole};

use crate::began::Began;
use crate::flush::{FlushFault, flush_to};
use crate::group::{Group, is_of_journal};
use crate::room::Room;
use image_device::{Device, Failed, Port, WorkDone};
use intent_journal::Ring;
use std::marker::PhantomData;

/// A disk in memory that begins as a real one reads, its journal closed. What is written, synced and put stays in
/// memory, and the net change since the beginning is one batch.
#[derive(Drop)]
pub struct Gather<P: Port, K: Began> {
    inner: P,
    /// The records that are on the real disk and not in place yet.
    ring: Ring,
    group: Group,
    faults: u64,
    put_faults: u64,
    writes: u64,
    /// Whether a read of the real device failed.
    device_failed: bool,
    began: PhantomData<K>,
    ghost at: { P.told → IsRingAt ring K.start },
    ghost reads: { P.told → (P.view inner).reads ≡ K.start.reads },
    ghost loose: { P.told → (P.view inner).loose ≡ K.start.loose },
    ghost sent: { P.told → (P.view inner).sent ≡ K.start.sent },
    ghost leaves: { P.told → ∥ LeavesOnly K.start (P.view inner) (IsLeftNow K.start) ∥₁ },
    ghost firm: { P.told → IsFirm K.start },
    ghost counts: { Uses 0 K.start (P.view inner) },
    ghost failed: { device_failed ≡ true → Rose K.start.faults (P.view inner).faults },
    ghost unfailed: { device_failed ≡ false → (P.view inner).faults ≡ K.start.faults },
    ghost whole: { P.told → AreWhole K.start group.past.events },
}

/// What is left of a group: the device, its ring, the room for the next group, and how it ended.
#[derive(Drop)]
pub struct Flushed<P: Port> {
    pub inner: P,
    pub ring: Ring,
    pub room: Room,
    pub result: Result<(), FlushFault>,
}

impl<P: Port, K: Began> Gather<P, K> {
    ghost use Rattle.std.specs.Prelude.{[], OnOk};
    ghost use Rattle.image_layout.specs.Ring.{bodies};
    ghost use Rattle.intent_journal.specs.Home.{home, overlaid, is_journal, AgreeBut};
    ghost use Rattle.gathering.specs.Gathered.{cleared, HasRested};
    ghost use Rattle.gathering.specs.Left.{most_writes, moment_of, IsLeftAtStart, IsLeftByGroup, IsSentBetween};

    /// Begins a group over a device that has rested since the start that proofs pick.
    pub fn new(inner: P, ring: Ring, room: Room) -> Gather<P, K>
        requires rests { P.told → HasRested K.start (P.view inner) }
        requires firm { P.told → IsFirm K.start }
        requires counts { Uses 0 K.start (P.view inner) }
        requires faults { (P.view inner).faults ≡ K.start.faults }
        requires at { P.told → IsRingAt ring K.start }
        /// promise (with firm, at, sent): The disk in memory begins as what the real disk stands for outside the
        /// journal, with zeros inside it and nothing sent.
        ensures reads { (⟦<Gather<P, K> as Device>⟧.view result).reads ≡ cleared K.start.reads }
        ensures firm { IsFirm (⟦<Gather<P, K> as Device>⟧.view result) }
        ensures at { IsRingAt [] (⟦<Gather<P, K> as Device>⟧.view result) }
        ensures sent { (⟦<Gather<P, K> as Device>⟧.view result).sent ≡ K.start.sent }
        ensures clock { (⟦<Gather<P, K> as Device>⟧.view result).clock ≡ 0 }
        ensures faults { (⟦<Gather<P, K> as Device>⟧.view result).faults ≡ 0 }
        ensures put_faults { (⟦<Gather<P, K> as Device>⟧.view result).put_faults ≡ 0 }
        ensures writes { (⟦<Gather<P, K> as Device>⟧.view result).writes ≡ 0 }
    {
        Gather {
            inner,
            ring,
            group: Group::new(room),
            faults: 0,
            put_faults: 0,
            writes: 0,
            device_failed: false,
            began: PhantomData,
        }
    }

    /// How many sectors outside the journal were written, each counted once. There is room for 113.
    pub fn homes(&self) -> usize
        /// promise (with net, most): How many homes the batch of the group has, which does to the disk what the group's
        /// writes do; at most 113.
        ensures value { result ≡ length self.now.group.batch }
        ensures net { AgreeBut is_journal (overlaid self.now.group.batch (cleared K.start.reads))
            (⟦<Gather<P, K> as Device>⟧.view self.now).reads }
        ensures most { result ≤ bodies }
    {
        self.group.batch.len() as usize
    }

    /// How many bytes were put and wait.
    pub fn waiting(&self) -> usize
        ensures { length (⟦<Gather<P, K> as Device>⟧.view self.now).sent ≡ length K.start.sent + result }
    {
        self.group.waiting.len()
    }

    /// Ends the group: its net change is committed as one batch, and then the bytes that wait are sent. Where nothing
    /// was written there is no commit, and a group in which a call failed is given up.
    pub fn flush(self) -> Flushed<P>
        /// promise (with at, firm, sent): After Ok the real disk stands for what the disk in memory held, the ring is
        /// at it, nothing is loose, and all that waited is sent.
        ensures done { P.told → OnOk result.result (AgreeBut is_journal (⟦<Gather<P, K> as Device>⟧.view self).reads
            (home (P.view result.inner).reads)) }
        ensures at { P.told → OnOk result.result (IsRingAt result.ring (P.view result.inner)) }
        ensures firm { P.told → OnOk result.result (IsFirm (P.view result.inner)) }
        ensures sent { P.told → OnOk result.result ((P.view result.inner).sent
            ≡ (⟦<Gather<P, K> as Device>⟧.view self).sent) }

        // The group counts too where the port failed, and a front of its bytes may be sent.
        /// promise (with put_at, put_firm, put_sent): After the fault `Put` the real disk stands for what the disk in
        /// memory held, the ring is at it, nothing is loose, and a front of the waiting bytes is sent.
        ensures put_done { P.told → result.result ≡ Err FlushFault.Put → AgreeBut is_journal
            (⟦<Gather<P, K> as Device>⟧.view self).reads (home (P.view result.inner).reads) }
        ensures put_at { P.told → result.result ≡ Err FlushFault.Put → IsRingAt result.ring (P.view result.inner) }
        ensures put_firm { P.told → result.result ≡ Err FlushFault.Put → IsFirm (P.view result.inner) }
        ensures put_sent { P.told → result.result ≡ Err FlushFault.Put → IsSentBetween K.start.sent
            (⟦<Gather<P, K> as Device>⟧.view self).sent (P.view result.inner).sent }
        ensures unsent { P.told → (result.result ≡ Err FlushFault.Device) ⊎ (result.result ≡ Err FlushFault.Room)
            → (P.view result.inner).sent ≡ K.start.sent }

        // A crash at any moment of the group leaves what the device stood for at its start, with nothing more sent, or
        // what the disk in memory holds at its end, with a front of the waiting bytes sent.
        /// promise: **All that a group changes is one batch.** A crash at any moment of the group leaves an image with
        /// valid open records that stands for what the real disk stood for at the start, with nothing more sent, or for
        /// what the disk in memory holds at the end, with a front of the waiting bytes sent, the journal aside. (There
        /// is such a record of what is left; none is picked.)
        ensures any_moment { P.told → ∥ LeavesOnly K.start (P.view result.inner)
            (IsLeftByGroup (moment_of K.start) (moment_of (⟦<Gather<P, K> as Device>⟧.view self))) ∥₁ }

        // Where a call of the group failed, nothing of it counts at any moment.
        ensures given_up { P.told → (0 < (⟦<Gather<P, K> as Device>⟧.view self).faults)
            ⊎ (0 < (⟦<Gather<P, K> as Device>⟧.view self).put_faults)
            → ∥ LeavesOnly K.start (P.view result.inner) (IsLeftAtStart (moment_of K.start)) ∥₁ }

        // A count of the device rose only where the fault is that one's.
        /// promise (with given_up, unsent): Ok comes only where no call of the group failed. Where one failed, a crash
        /// at any moment leaves the start alone; after the faults `Device` and `Room` nothing was sent.
        ensures whole { OnOk result.result (((⟦<Gather<P, K> as Device>⟧.view self).faults ≡ 0)
            × ((⟦<Gather<P, K> as Device>⟧.view self).put_faults ≡ 0)) }
        /// promise (with put, room, no_device, no_put): `Device` comes only where the real disk's count of faults rose,
        /// `Put` only where the port's did, and each count is as it was where the fault isn't that one; `Room` comes
        /// only where a call of the disk in memory failed.
        ensures device { result.result ≡ Err FlushFault.Device → Rose K.start.faults (P.view result.inner).faults }
        ensures put { result.result ≡ Err FlushFault.Put → Rose K.start.put_faults (P.view result.inner).put_faults }
        ensures room { result.result ≡ Err FlushFault.Room → (0 < (⟦<Gather<P, K> as Device>⟧.view self).faults)
            ⊎ (0 < (⟦<Gather<P, K> as Device>⟧.view self).put_faults) }
        ensures no_device { (result.result ≡ Err FlushFault.Device → ⊥)
            → (P.view result.inner).faults ≡ K.start.faults }
        ensures no_put { (result.result ≡ Err FlushFault.Put → ⊥)
            → (P.view result.inner).put_faults ≡ K.start.put_faults }
        ensures later { K.start.clock ≤ (P.view result.inner).clock }
        /// promise (with bounded): The real disk isn't written where the group has no home, and else at most 123 times
        /// more than it has homes: at most 236 times.
        ensures most { (P.view result.inner).writes ≤ K.start.writes + most_writes (length self.group.batch) }
        ensures bounded { (P.view result.inner).writes ≤ K.start.writes + 236 }
    {
        let Gather {
            inner,
            ring,
            group,
            faults,
            put_faults,
            writes: _,
            device_failed,
            began: _,
        } = self;
        if device_failed {
            return Flushed {
                inner,
                ring,
                room: group.into_room(),
                result: Err(FlushFault::Device),
            };
        }
        if faults > 0 || put_faults > 0 {
            return Flushed {
                inner,
                ring,
                room: group.into_room(),
                result: Err(FlushFault::Room),
            };
        }
        let mut inner = inner;
        let mut ring = ring;
        let result = flush_to(
            &mut inner,
            &mut ring,
            &group.batch,
            group.waiting.as_slice(),
        );
        Flushed {
            inner,
            ring,
            room: group.into_room(),
            result,
        }
    }
}

impl<P: Port, K: Began> Device for Gather<P, K> {
    ghost use Rattle.gathering.specs.Gathered.{gathered_sound, gathered_view};

    ghost told = { P.told };

    ghost view = { λ m. gathered_view K.start m.group.past.events m.faults m.put_faults m.writes };

    ghost sound = { λ m told.
        gathered_sound K.start m.group.past.events m.faults m.put_faults m.writes (m.whole told) };

    fn read(&mut self, sector: u32, into: &mut [u8; 512]) -> Result<(), Failed> {
        if let Some(bytes) = self.group.last_write(sector) {
            *into = *bytes;
            return Ok(());
        }
        if is_of_journal(sector) {
            *into = [0; 512];
            return Ok(());
        }
        if self.ring.read(&mut self.inner, sector, into).is_err() {
            self.faults = self.faults.saturating_add(1);
            self.device_failed = true;
            return Err(Failed);
        }
        Ok(())
    }

    fn write(&mut self, sector: u32, from: &[u8; 512]) -> Result<(), Failed> {
        self.writes = self.writes.saturating_add(1);
        if self.group.write(sector, from).is_err() {
            self.faults = self.faults.saturating_add(1);
            return Err(Failed);
        }
        Ok(())
    }

    fn sync(&mut self) -> Result<(), Failed> {
        self.group.sync();
        Ok(())
    }

    fn show_work_done(&self, done: WorkDone) {
        self.inner.show_work_done(done);
    }
}

impl<P: Port, K: Began> Port for Gather<P, K> {
    fn put(&mut self, piece: &[u8]) -> Result<usize, Failed> {
        if self.group.put(piece).is_err() {
            self.put_faults = self.put_faults.saturating_add(1);
            return Err(Failed);
        }
        Ok(piece.len())
    }
}
