// A disk in memory for a part of a group.
ghost use Rattle.std.specs.Prelude.{◌≡◌, ◌≤◌, ◌<◌, ◌+◌, ◌⊎◌, [], ℕ, List, true, false, length, IfSome, IfNone, IsTrue};
ghost use Rattle.image_device.specs.Calls.{Uses};
ghost use Rattle.image_device.specs.Counts.{Rose};
ghost use Rattle.image_device.specs.History.{after};
ghost use Rattle.image_device.specs.Image.{IsSector};
ghost use Rattle.image_device.specs.View.{View, untold};
ghost use Rattle.image_device.specs.Runs.{IsFirm};
ghost use Rattle.image_layout.specs.Ring.{bodies};
ghost use Rattle.image_layout.specs.declared.offset.Patch.{Patch};
ghost use Rattle.intent_journal.specs.Batch.{homes_of, IsBatch};
ghost use Rattle.intent_journal.specs.Home.{is_journal};
ghost use Rattle.intent_journal.specs.Ring.{IsRingAt};
ghost use Rattle.tsd_model.specs.World.{are_apart};
ghost use Rattle.gathering.specs.Gathered.{cleared, gone_on, AreLastOfJournal};
ghost use Rattle.gathering.specs.Parts.{has_stray, went_on, whole_prop, AreWholeWrites, IsNetOver};

use crate::group::is_of_journal;
use crate::homes::Homes;
use crate::journal::JournalSectors;
use crate::past::Past;
use crate::room::Room;
use image_device::{Device, Failed, WorkDone};
use intent_journal::{Batch, Ring, is_lawful_home};
use std::marker::{Brand, PhantomData};

/// The device and the batch as a part begins, and through whose reference it has the device, which proofs pick.
pub trait Going {
    ghost start: { View };

    ghost batch: { List Patch };

    ghost device: { ℕ };
}

impl Going for Brand {
    ghost start = { untold 0 0 0 };

    ghost batch = { [] };

    ghost device = { 0 };
}

/// What a part stands on: a device, and the room with the batch so far.
#[derive(Drop)]
pub struct Base<'a, P: Device> {
    pub dev: &'a mut P,
    pub room: Room,
}

/// A disk in memory that begins as a batch makes what a device stands for, its journal closed. What is written stays in
/// memory, and none of it fails but where a batch has no home left: it is not flushed, but left off, and its net change
/// is in the batch then. Its view also tells, under bytes that it never sends, what a crash may have left of the
/// device.
#[derive(Drop)]
pub struct Part<'a, 'r, P: Device, K: Going> {
    dev: &'a mut P,
    /// The records that are on the device and not in place yet.
    ring: &'r Ring,
    batch: Batch,
    /// The last bytes of each sector outside the journal that was written since the group began, those that no batch
    /// may hold too.
    homes: Homes,
    journal: JournalSectors,
    waiting: Vec<u8>,
    /// What was done since the part began.
    past: Past,
    faults: u64,
    writes: u64,
    /// Whether a read of the device failed.
    device_failed: bool,
    /// Whether a sector was written that no batch may hold.
    strayed: bool,
    going: PhantomData<K>,
    ghost is_device: { dev.ghost_name ≡ K.device },
    ghost at: { P.told → IsRingAt ring.now K.start },
    ghost reads: { P.told → (P.view dev.now).reads ≡ K.start.reads },
    ghost loose: { P.told → (P.view dev.now).loose ≡ K.start.loose },
    ghost sent: { P.told → (P.view dev.now).sent ≡ K.start.sent },
    ghost counts: { Uses 0 K.start (P.view dev.now) },
    ghost failed: { device_failed ≡ true → Rose K.start.faults (P.view dev.now).faults },
    ghost unfailed: { device_failed ≡ false → (P.view dev.now).faults ≡ K.start.faults },
    ghost newest: { AreLastOfJournal past.events journal.last.items },
    ghost closed: { (n : ℕ) → is_journal n ≡ true → gone_on K.batch K.start.reads n ≡ cleared K.start.reads n },
    ghost net: { IsNetOver K.start K.batch past.events homes.patches.items },
    ghost apart: { IsTrue (are_apart (homes_of homes.patches.items)) },
    ghost same: { strayed ≡ false → homes.patches.items ≡ batch },
    ghost stray: { strayed ≡ true → has_stray past.events ≡ true },
    ghost whole: { AreWholeWrites past.events } by { whole_prop past.events },
    ghost began_whole: { P.told → (n : ℕ) → IsSector (gone_on K.batch K.start.reads n) },
    ghost few: { length homes.patches.items ≤ length K.batch + writes },
    ghost most: { length homes.patches.items ≤ bodies },
    ghost counted: { device_failed ≡ true → 0 < faults },
    ghost why: { device_failed ≡ false → 0 < faults → bodies < length K.batch + writes },
}

impl<'a, 'r, P: Device, K: Going> Part<'a, 'r, P, K> {
    ghost use Rattle.intent_journal.specs.Home.{AgreeBut};
    ghost use Rattle.gathering.specs.Gathered.{HasRested};
    ghost use Rattle.gathering.specs.Parts.{LeavesStray};

    /// Goes on with the batch in a room, over the device that proofs pick.
    pub fn new(below: Base<'a, P>, ring: &'r Ring) -> Part<'a, 'r, P, K>
        requires device { below.dev.ghost_name ≡ K.device }
        requires batch { below.room.batch ≡ K.batch }
        requires rests { P.told → HasRested K.start (P.view below.dev.now) }
        requires counts { Uses 0 K.start (P.view below.dev.now) }
        requires faults { (P.view below.dev.now).faults ≡ K.start.faults }
        requires at { P.told → IsRingAt ring.now K.start }
        /// promise (with past, firm, at): The disk in memory begins as the batch makes what the device stands for, its
        /// journal closed and nothing loose.
        ensures dev { result.dev.now ≡ below.entry.dev.now }
        ensures past { result.past.events ≡ [] }
        ensures faults { result.faults ≡ 0 }
        ensures writes { result.writes ≡ 0 }
        ensures firm { IsFirm (⟦<Part<'a, 'r, P, K> as Device>⟧.view result) }
        ensures at { IsRingAt [] (⟦<Part<'a, 'r, P, K> as Device>⟧.view result) }
    {
        let Base { dev, room } = below;
        let Room {
            batch,
            homes,
            journal,
            waiting,
        } = room.with_batch_alone();
        let _length = batch.len();
        Part {
            dev,
            ring,
            batch,
            homes,
            journal,
            waiting,
            past: Past::none(),
            faults: 0,
            writes: 0,
            device_failed: false,
            strayed: false,
            going: PhantomData,
        }
    }

    /// Leaves the part off: its batch stays in the room. A sector that no batch may hold is not kept, nor is the batch
    /// then.
    pub fn leave(self) -> Base<'a, P>
        /// promise (with dev, reads, loose, sent, counts): The device was only read. What a crash may have
        /// left of it follows from what the calls on the part left, since the view of a part tells of both.
        ensures device { result.dev.ghost_name ≡ K.device }
        ensures dev { result.dev.now ≡ self.entry.dev.now }
        ensures reads { P.told → (P.view result.dev.now).reads ≡ K.start.reads }
        ensures loose { P.told → (P.view result.dev.now).loose ≡ K.start.loose }
        ensures sent { P.told → (P.view result.dev.now).sent ≡ K.start.sent }
        ensures counts { Uses 0 K.start (P.view result.dev.now) }
        /// promise: What the disk in memory holds outside the journal is what the batch in the room makes of what the
        /// device stands for, or a crash of that disk may have left any bytes in a sector that no batch may hold.
        ensures holds { P.told → (AgreeBut is_journal (⟦<Part<'a, 'r, P, K> as Device>⟧.view self.entry).reads
            (gone_on result.room.batch K.start.reads))
            ⊎ LeavesStray (⟦<Part<'a, 'r, P, K> as Device>⟧.view self.entry) }
        ensures is { IsBatch result.room.batch }
        ensures few { length result.room.batch
            ≤ length K.batch + (⟦<Part<'a, 'r, P, K> as Device>⟧.view self.entry).writes }
        /// promise (with unfailed): A call failed only where the device's count of faults rose, or where 113 homes are
        /// fewer than those of the batch and one for each write.
        ensures failed { 0 < (⟦<Part<'a, 'r, P, K> as Device>⟧.view self.entry).faults
            → Rose K.start.faults (P.view result.dev.now).faults
            ⊎ (bodies < length K.batch + (⟦<Part<'a, 'r, P, K> as Device>⟧.view self.entry).writes) }
        ensures unfailed { (⟦<Part<'a, 'r, P, K> as Device>⟧.view self.entry).faults ≡ 0
            → (P.view result.dev.now).faults ≡ K.start.faults }
    {
        let Part {
            dev,
            ring: _,
            batch,
            homes,
            journal,
            waiting,
            past: _,
            faults: _,
            writes: _,
            device_failed: _,
            strayed,
            going: _,
        } = self;
        let room = room_of(batch, homes, journal, waiting, strayed);
        Base { dev, room }
    }

    /// The bytes that a sector has by the last write of it.
    fn last_write(&self, sector: u32) -> Option<&[u8; 512]>
        ensures none { IfNone result ((after self.now.past.events (went_on K.start K.batch)).reads sector
            ≡ cleared K.start.reads sector) }
        ensures some { IfSome result (λ b. (after self.now.past.events (went_on K.start K.batch)).reads sector
            ≡ b.now) }
    {
        if is_of_journal(sector) {
            return self.journal.get(sector);
        }
        self.homes.get(sector)
    }
}

/// The room with its batch, or with none where a sector was written that no batch may hold.
fn room_of(
    batch: Batch,
    homes: Homes,
    journal: JournalSectors,
    waiting: Vec<u8>,
    strayed: bool,
) -> Room
    requires { strayed ≡ false → homes.patches.items ≡ batch }
    ensures batch { strayed ≡ false → result.batch ≡ batch }
    ensures few { length result.batch ≤ length homes.patches.items }
    ensures is { IsBatch result.batch }
{
    if !strayed {
        // The call tells that it is a batch.
        let _length = batch.len();
        return Room {
            batch,
            homes,
            journal,
            waiting,
        };
    }
    let mut batch = batch;
    let mut homes = homes;
    batch.clear();
    homes.clear();
    let _length = batch.len();
    Room {
        batch,
        homes,
        journal,
        waiting,
    }
}

impl<'a, 'r, P: Device, K: Going> Device for Part<'a, 'r, P, K> {
    ghost use Rattle.gathering.specs.Parts.{part_sound, part_view};

    ghost told = { P.told };

    ghost view = { λ m. part_view K.start K.batch m.past.events m.faults m.writes (P.view m.dev.now) };

    ghost sound = { λ m told. part_sound K.start K.batch m.past.events m.faults m.writes (P.view m.dev.now)
        (m.began_whole told) m.whole };

    fn read(&mut self, sector: u32, into: &mut [u8; 512]) -> Result<(), Failed> {
        if let Some(bytes) = self.last_write(sector) {
            *into = *bytes;
            return Ok(());
        }
        if is_of_journal(sector) {
            *into = [0; 512];
            return Ok(());
        }
        if self.ring.read(self.dev, sector, into).is_err() {
            self.faults = self.faults.saturating_add(1);
            self.device_failed = true;
            return Err(Failed);
        }
        Ok(())
    }

    fn write(&mut self, sector: u32, from: &[u8; 512]) -> Result<(), Failed> {
        self.writes = self.writes.saturating_add(1);
        if is_of_journal(sector) {
            self.journal.put(sector, from);
            self.past = self.past.with_write(sector, from);
            return Ok(());
        }
        if !self.homes.has_room_for(sector) {
            self.faults = self.faults.saturating_add(1);
            return Err(Failed);
        }
        if !is_lawful_home(sector) {
            self.strayed = true;
            self.homes.put(sector, from);
            self.past = self.past.with_write(sector, from);
            return Ok(());
        }
        // The homes have room for it, and so has the batch.
        let _kept = self.batch.put(sector, from);
        self.homes.put(sector, from);
        self.past = self.past.with_write(sector, from);
        Ok(())
    }

    fn sync(&mut self) -> Result<(), Failed> {
        self.past = self.past.with_sync();
        Ok(())
    }

    fn show_work_done(&self, done: WorkDone) {
        self.dev.show_work_done(done);
    }
}
