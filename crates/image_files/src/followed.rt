//! A file that is read ahead where reads follow one another, and written by rows of sectors.

ghost use Rattle.std.specs.Prelude.{◌≡◌, ◌≢◌, ◌*◌, None, OnOk, OnErr, IsErr};
ghost use Rattle.image_files.specs.Bytes.{IsPart, IsWritten};
ghost use Rattle.image_files.specs.Held.{Holds, overlaid};

use crate::held::{Held, MOST};
use crate::joined::Joined;
use crate::sectors::Sectors;
use crate::trouble::Trouble;
use std::alloc::Global;

/// The most sectors that a block has: so many are read at once where the rows of reads before were as long.
const MOST_OF_BLOCK: usize = 8;

/// A file with sectors that were read before they were asked for, and others that were written and wait for more behind
/// them, which all go out by one call. What is written over sectors that were read ahead is held from then on, and a
/// write or a sync that fails forgets them all: so what is held is what the file has, as long as no other process
/// writes it. Its lock keeps out those that ask for it; it is advisory, and binds nobody else. What still waits when it
/// is let go is lost: it is sent before.
#[derive(Drop)]
pub struct Followed<F: Sectors> {
    file: Joined<F>,
    held: Held,

    /// The sector behind the one that was asked for last.
    next: u32,

    /// How many sectors were asked for in a row, at most 128.
    row: usize,

    /// How many were in the row before, at most 8: where blocks have several sectors, as many as they have.
    usual: usize,

    ghost agrees: { F.told → Holds held (overlaid file.waiting (F.content file.file)) },
}

impl<F: Sectors> Followed<F> {
    /// A file of which nothing was read yet.
    pub fn new(alloc: Global, file: F) -> Followed<F>
        ensures file { result.file.file ≡ file }
        ensures none { result.file.waiting.count ≡ 0 }
        ensures whole { result.file.lost ≡ None }
    {
        Followed {
            file: Joined::new(alloc, file),
            held: Held::none(alloc),
            next: 0,
            row: 0,
            usual: 1,
        }
    }

    /// The file. What waits isn't yet in it.
    pub fn file(&self) -> &F
        ensures { result.now ≡ self.now.file.file }
    {
        self.file.file()
    }

    /// Why a write or a sync failed, where one did: each call fails from then on.
    pub fn lost(&self) -> Option<Trouble>
        ensures { result ≡ self.now.file.lost }
    {
        self.file.lost()
    }

    /// Reads a sector. Where it isn't held, and others were read in a row before it or the row before was longer than
    /// one, it is read with as many behind it. Where that fails it is read alone, and only its own failure is told.
    pub fn read(&mut self, sector: u32, into: &mut [u8; 512]) -> Result<(), Trouble>
        /// promise (with rests): Of a file that tells its bytes the sector is read that it has, with what was written
        /// and waits laid over it.
        ensures bytes { F.told → OnOk result (IsPart (overlaid self.old.file.waiting (F.content self.old.file.file))
            (512 * sector) into.new) }
        ensures kept { OnErr result (into.new ≡ into.old) }
        ensures rests { F.told → overlaid self.new.file.waiting (F.content self.new.file.file)
            ≡ overlaid self.old.file.waiting (F.content self.old.file.file) }
        ensures fails { self.old.file.lost ≢ None → IsErr result × (self.new ≡ self.old) }
    {
        if let Some(trouble) = self.file.lost() {
            return Err(trouble);
        }
        if self.file.copy_waiting(sector, into) {
            return Ok(());
        }
        self.follow(sector);
        if self.held.copy(sector, into) {
            return Ok(());
        }
        let mut room = [0u8; 512];
        self.file.read(sector, &mut room)?;
        *into = room;
        Ok(())
    }

    /// Writes a sector: it waits where it goes on behind those that do, or lies among them; else they are sent first.
    pub fn write(&mut self, sector: u32, from: &[u8; 512]) -> Result<(), Trouble>
        /// promise: After Ok the sector reads as the new bytes, and all else as before, whether it waits or not.
        ensures written { F.told → OnOk result (IsWritten (512 * sector) from.now
            (overlaid self.old.file.waiting (F.content self.old.file.file))
            (overlaid self.new.file.waiting (F.content self.new.file.file))) }
        ensures lost { OnErr result (self.new.file.lost ≢ None) }
        ensures fails { self.old.file.lost ≢ None → IsErr result }
    {
        match self.file.write(sector, from.as_slice()) {
            Ok(()) => {
                self.held.renew(sector, from);
                Ok(())
            }
            Err(trouble) => {
                self.held.forget();
                Err(trouble)
            }
        }
    }

    /// Sends what waits, so that it no longer hangs on this process.
    pub fn send(&mut self) -> Result<(), Trouble>
        ensures same { F.told → OnOk result (overlaid self.new.file.waiting (F.content self.new.file.file)
            ≡ overlaid self.old.file.waiting (F.content self.old.file.file)) }
        ensures out { OnOk result (self.new.file.waiting.count ≡ 0) }
        ensures lost { OnErr result (self.new.file.lost ≢ None) }
        ensures fails { self.old.file.lost ≢ None → IsErr result }
    {
        if let Err(trouble) = self.file.send() {
            self.held.forget();
            return Err(trouble);
        }
        Ok(())
    }

    /// Sends what waits, and has all that was written on the medium.
    pub fn sync(&mut self) -> Result<(), Trouble>
        /// promise (with out): After Ok nothing waits, and the file has what was written.
        ensures same { F.told → OnOk result (overlaid self.new.file.waiting (F.content self.new.file.file)
            ≡ overlaid self.old.file.waiting (F.content self.old.file.file)) }
        ensures out { OnOk result (self.new.file.waiting.count ≡ 0) }
        /// promise (with fails): **A write that failed isn't passed by**: after it, and after a sync that failed, each
        /// call fails, so that a write which was answered Ok and is then lost is told.
        ensures lost { OnErr result (self.new.file.lost ≢ None) }
        ensures fails { self.old.file.lost ≢ None → IsErr result }
    {
        if let Err(trouble) = self.file.sync() {
            self.held.forget();
            return Err(trouble);
        }
        Ok(())
    }

    /// Notes that a sector is asked for, and reads it with those behind it where that is worth it.
    fn follow(&mut self, sector: u32)
        ensures { F.told → overlaid self.new.file.waiting (F.content self.new.file.file)
            ≡ overlaid self.old.file.waiting (F.content self.old.file.file) }
    {
        if sector == self.next {
            self.row = self.row.saturating_add(1).min(MOST);
        } else {
            self.usual = self.row.min(MOST_OF_BLOCK);
            self.row = 1;
        }
        self.next = sector.wrapping_add(1);
        let count = self.row.max(self.usual);
        if count > 1 && !self.held.has(sector) {
            self.held.fill(&mut self.file, sector, count);
        }
    }
}
