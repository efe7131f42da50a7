// A group in memory: what was done to a disk since the group began, and what it comes to.
ghost use Rattle.std.specs.Prelude.{◌≡◌, ◌⊎◌, ◌++◌, [], ◌∷◌, true, false, length, OnOk, OnErr, IfSome, IfNone};
ghost use Rattle.image_device.specs.declared.event.Event.TheVariants.{Put, Sync, Write};
ghost use Rattle.image_device.specs.History.{HistoryState, after};
ghost use Rattle.image_layout.specs.Ring.{bodies};
ghost use Rattle.intent_journal.specs.Batch.{has_home, with_patch, IsBatch};
ghost use Rattle.intent_journal.specs.Home.{is_journal};
ghost use Rattle.intent_journal.specs.Homes.{is_lawful_home};
ghost use Rattle.gathering.specs.Gathered.{ArePut, AreLastOfJournal, IsNet};

use crate::homes::Homes;
use crate::journal::JournalSectors;
use crate::past::Past;
use crate::room::Room;
use image_layout::ring::{RING_END, RING_START};
use intent_journal::{Batch, BatchFull, is_lawful_home};
use std::alloc::AllocError;

/// There was no memory for it, the batch is full, or the sector is none that a batch may hold.
#[derive(Drop)]
pub(crate) struct NotKept;

impl From<AllocError> for NotKept {
    fn from(_: AllocError) -> NotKept {
        NotKept
    }
}

impl From<BatchFull> for NotKept {
    fn from(_: BatchFull) -> NotKept {
        NotKept
    }
}

/// What was done to a disk in memory since a group began.
#[derive(Drop)]
pub(crate) struct Group {
    /// All of it, the oldest first.
    pub(crate) past: Past,
    /// The last bytes of each home that was written, so that a read needs no look at the batch.
    pub(crate) homes: Homes,
    /// The last bytes of each sector of the journal that was written.
    pub(crate) journal: JournalSectors,
    /// What the writes come to outside the journal.
    pub(crate) batch: Batch,
    /// The bytes that were put.
    pub(crate) waiting: Vec<u8>,
    ghost newest: { AreLastOfJournal past.events journal.last.items },
    ghost same: { homes.patches.items ≡ batch },
    ghost net: { IsNet past.events batch },
    ghost waits: { ArePut past.events waiting.items },
}

impl Group {
    /// Nothing was done yet. What an earlier group left in the room is gone.
    pub(crate) fn new(room: Room) -> Group
        ensures { result.past.events ≡ [] }
    {
        let Room {
            batch,
            homes,
            journal,
            waiting,
        } = room.cleared();
        Group {
            past: Past::of(&()),
            homes,
            journal,
            batch,
            waiting,
        }
    }

    /// The bytes that a sector has by the last write of it.
    pub(crate) fn last_write(&self, sector: u32) -> Option<&[u8; 512]>
        ensures none { IfNone result ((s : HistoryState) → (after self.now.past.events s).reads sector
            ≡ s.reads sector) }
        ensures some { IfSome result (λ b. (s : HistoryState) → (after self.now.past.events s).reads sector ≡ b.now) }
    {
        if is_of_journal(sector) {
            return self.journal.get(sector);
        }
        // The call tells that the homes are distinct.
        let _length = self.batch.len();
        self.homes.get(sector)
    }

    /// Keeps a write, or leaves all as it was. None fails for want of memory: one fails only outside the journal, at a
    /// sector that no batch may hold, or at a new home where the batch has 113.
    pub(crate) fn write(&mut self, sector: u32, from: &[u8; 512]) -> Result<(), NotKept>
        ensures kept { OnOk result ((bytes : _) × (bytes.value ≡ from.now)
            × (self.new.past.events ≡ self.old.past.events ++ Write sector bytes ∷ [])) }
        ensures same { OnErr result (self.new.past.events ≡ self.old.past.events) }
        ensures cause { OnErr result ((is_journal sector ≡ false) × ((is_lawful_home sector ≡ false)
            ⊎ ((has_home self.old.batch sector ≡ false) × (length self.old.batch ≡ bodies)))) }
    {
        if is_of_journal(sector) {
            self.write_journal(sector, from);
            return Ok(());
        }
        self.write_home(sector, from)
    }

    /// Keeps a write to the journal.
    fn write_journal(&mut self, sector: u32, from: &[u8; 512])
        requires { is_journal sector ≡ true }
        ensures { (bytes : _) × (bytes.value ≡ from.now)
            × (self.new.past.events ≡ self.old.past.events ++ Write sector bytes ∷ []) }
    {
        self.journal.put(sector, from);
        self.past = Past::of(&(&self.past, sector, from));
    }

    /// Keeps a write outside the journal, or leaves all as it was.
    fn write_home(&mut self, sector: u32, from: &[u8; 512]) -> Result<(), NotKept>
        requires { is_journal sector ≡ false }
        ensures kept { OnOk result ((bytes : _) × (bytes.value ≡ from.now)
            × (self.new.past.events ≡ self.old.past.events ++ Write sector bytes ∷ [])) }
        ensures same { OnErr result (self.new.past.events ≡ self.old.past.events) }
        ensures cause { OnErr result ((is_lawful_home sector ≡ false)
            ⊎ ((has_home self.old.batch sector ≡ false) × (length self.old.batch ≡ bodies))) }
    {
        keep_home(&mut self.batch, &mut self.homes, sector, from)?;
        self.past = Past::of(&(&self.past, sector, from));
        Ok(())
    }

    /// Keeps a sync.
    pub(crate) fn sync(&mut self)
        ensures { self.new.past.events ≡ self.old.past.events ++ Sync ∷ [] }
    {
        self.past = Past::of(&self.past);
    }

    /// Keeps a piece that was put, or leaves all as it was.
    pub(crate) fn put(&mut self, piece: &[u8]) -> Result<(), NotKept>
        ensures kept { OnOk result ((kept : _) × (kept.items ≡ piece.now)
            × (self.new.past.events ≡ self.old.past.events ++ Put kept ∷ [])) }
        ensures same { OnErr result (self.new.past.events ≡ self.old.past.events) }
    {
        self.waiting.extend_from_slice(piece)?;
        self.past = Past::of(&(&self.past, piece));
        Ok(())
    }

    /// The room that it took, with its batch.
    pub(crate) fn into_room(self) -> Room
        ensures { result.batch ≡ self.batch }
    {
        let Group {
            past: _,
            homes,
            journal,
            batch,
            waiting,
        } = self;
        Room {
            batch,
            homes,
            journal,
            waiting,
        }
    }
}

/// Whether a sector is one of the journal's.
pub(crate) fn is_of_journal(sector: u32) -> bool
    ensures { result ≡ is_journal sector }
{
    RING_START <= sector && sector <= RING_END
}

/// Puts a write into a batch and among the bytes of its homes, or leaves both as they were.
fn keep_home(
    batch: &mut Batch,
    homes: &mut Homes,
    sector: u32,
    from: &[u8; 512],
) -> Result<(), NotKept>
    requires same { homes.old.patches.items ≡ batch.old }
    ensures same { homes.new.patches.items ≡ batch.new }
    ensures put { OnOk result (batch.new ≡ with_patch (record { sector = sector; bytes = from.now }) batch.old) }
    ensures was { OnOk result (IsBatch batch.old) }
    ensures unchanged { OnErr result (batch.new ≡ batch.old) }
    ensures cause { OnErr result ((is_lawful_home sector ≡ false)
        ⊎ ((has_home batch.old sector ≡ false) × (length batch.old ≡ bodies))) }
{
    if !is_lawful_home(sector) {
        return Err(NotKept);
    }
    batch.put(sector, from)?;
    homes.put(sector, from);
    Ok(())
}
