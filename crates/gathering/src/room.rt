// The memory of a group.
ghost use Rattle.std.specs.Prelude.{◌≡◌, ◌≤◌, [], None, length, replicate, IfOk, OnOk};
ghost use Rattle.image_device.specs.Calls.{Uses};
ghost use Rattle.image_device.specs.Counts.{CountsFault};
ghost use Rattle.image_device.specs.Runs.{IsFirm, LeavesOnly};
ghost use Rattle.intent_journal.specs.Crash.{IsBeforeOrAfter};
ghost use Rattle.intent_journal.specs.Home.{home, overlaid, is_journal, AgreeBut};
ghost use Rattle.intent_journal.specs.Ring.{IsRingAt};
ghost use Rattle.gathering.specs.Left.{most_writes};
ghost use Rattle.image_layout.specs.Ring.{bodies};
ghost use Rattle.gathering.specs.Gathered.{journal_size};

use crate::homes::Homes;
use crate::journal::JournalSectors;
use image_device::{Device, Failed};
use intent_journal::{Batch, Ring};
use std::alloc::Global;
use tsd_model::NoMemory;

/// How many bytes may wait before a put needs memory.
const WAITING_ROOM: usize = 128 * 1024;

/// The memory that a group needs, taken once. What the last group left in it is gone when the next one begins.
#[derive(Drop)]
pub struct Room {
    pub(crate) batch: Batch,
    pub(crate) homes: Homes,
    pub(crate) journal: JournalSectors,
    pub(crate) waiting: Vec<u8>,
    ghost same: { homes.patches.items ≡ batch },
}

impl Room {
    /// Room for 113 homes, the sectors of a journal, and 128 KiB that wait. This alone takes memory.
    pub fn new(alloc: Global) -> Result<Room, NoMemory>
        ensures batch { IfOk result (λ r. r.batch ≡ []) }
    {
        let batch = Batch::new(alloc)?;
        let homes = Homes::new(alloc)?;
        let journal = JournalSectors::new(alloc)?;
        match Vec::with_capacity(alloc, WAITING_ROOM) {
            Ok(waiting) => Ok(Room {
                batch,
                homes,
                journal,
                waiting,
            }),
            Err(_) => Err(NoMemory),
        }
    }

    /// How many homes the batch in it has, which the last group left. There is room for 113.
    pub fn homes(&self) -> usize
        /// promise (with most): How many homes the batch in the room has; at most 113.
        ensures value { result ≡ length self.now.batch }
        ensures most { result ≤ bodies }
    {
        self.batch.len() as usize
    }

    /// Commits the batch in it, unless it is empty, and has nothing in it then. `Failed` comes only where the device's
    /// count of faults rose.
    pub fn commit<D: Device>(&mut self, dev: &mut D, ring: &mut Ring) -> Result<(), Failed>
        requires at { D.told → IsRingAt ring.old (D.view dev.old) }
        requires firm { D.told → IsFirm (D.view dev.old) }
        /// promise (with at, firm, sent, empty): After Ok the device stands for what it did with the whole batch in
        /// place, the ring is at it, and the room is empty.
        ensures done { D.told → OnOk result (AgreeBut is_journal (overlaid self.old.batch (home (D.view dev.old).reads))
            (home (D.view dev.new).reads)) }
        ensures at { D.told → OnOk result (IsRingAt ring.new (D.view dev.new)) }
        ensures firm { D.told → OnOk result (IsFirm (D.view dev.new)) }
        ensures sent { D.told → (D.view dev.new).sent ≡ (D.view dev.old).sent }
        ensures empty { OnOk result (self.new.batch ≡ []) }
        /// promise: A crash at any moment leaves what the device stood for before, or that with the whole batch in
        /// place.
        ensures any_moment { D.told → LeavesOnly (D.view dev.old) (D.view dev.new)
            (λ x f. IsBeforeOrAfter self.old.batch (D.view dev.old) x × (f ≡ (D.view dev.old).sent)) }
        /// promise (with bounded): No write for an empty batch, and else at most 123 more than it has homes: at most
        /// 236.
        ensures uses { Uses (most_writes (length self.old.batch)) (D.view dev.old) (D.view dev.new) }
        ensures bounded { most_writes (length self.old.batch) ≤ 236 }
        ensures faults { CountsFault result (D.view dev.old).faults (D.view dev.new).faults }
    {
        commit_some(dev, ring, &self.batch)?;
        self.batch.clear();
        self.homes.clear();
        Ok(())
    }

    /// The same room, with nothing in it.
    pub(crate) fn cleared(self) -> Room
        ensures batch { result.batch ≡ [] }
        ensures homes { result.homes.patches.items ≡ [] }
        ensures journal { result.journal.last.items ≡ replicate journal_size None }
        ensures waiting { result.waiting.items ≡ [] }
    {
        let mut room = self;
        room.batch.clear();
        room.homes.clear();
        room.journal.clear();
        room.waiting.clear();
        room
    }

    /// The same room with its batch alone in it.
    pub(crate) fn with_batch_alone(self) -> Room
        ensures batch { result.batch ≡ self.batch }
        ensures journal { result.journal.last.items ≡ replicate journal_size None }
        ensures waiting { result.waiting.items ≡ [] }
    {
        let mut room = self;
        room.journal.clear();
        room.waiting.clear();
        room
    }
}

/// Commits a batch, unless it is empty.
pub(crate) fn commit_some<D: Device>(
    dev: &mut D,
    ring: &mut Ring,
    batch: &Batch,
) -> Result<(), Failed>
    requires at { D.told → IsRingAt ring.old (D.view dev.old) }
    requires firm { D.told → IsFirm (D.view dev.old) }
    ensures done { D.told → OnOk result (AgreeBut is_journal (overlaid batch.now (home (D.view dev.old).reads))
        (home (D.view dev.new).reads)) }
    ensures at { D.told → OnOk result (IsRingAt ring.new (D.view dev.new)) }
    ensures firm { D.told → OnOk result (IsFirm (D.view dev.new)) }
    ensures sent { D.told → (D.view dev.new).sent ≡ (D.view dev.old).sent }
    ensures any_moment { D.told → LeavesOnly (D.view dev.old) (D.view dev.new)
        (λ x f. IsBeforeOrAfter batch.now (D.view dev.old) x × (f ≡ (D.view dev.old).sent)) }
    ensures uses { Uses (most_writes (length batch.now)) (D.view dev.old) (D.view dev.new) }
    ensures fits { length batch.now ≤ bodies }
    ensures faults { CountsFault result (D.view dev.old).faults (D.view dev.new).faults }
{
    if batch.len() == 0 {
        return Ok(());
    }
    ring.commit(dev, batch)
}
