//! A file to which sectors that follow one another are written by one call.

ghost use Rattle.std.specs.Prelude.{◌≡◌, ◌≢◌, ℕ, ◌*◌, None, true, false, OnOk, OnErr, IsErr};
ghost use Rattle.image_files.specs.Bytes.{IsPart, IsWritten};
ghost use Rattle.image_files.specs.Held.{overlaid};

use crate::held::Held;
use crate::sectors::Sectors;
use crate::trouble::Trouble;
use std::alloc::Global;

/// A file to which sectors that follow one another are written by one call: what is written waits until a sector comes
/// that doesn't go on behind it, until a sync, or until it is sent, and is read as it was written. A write that was
/// answered Ok may so fail later; the call that finds this tells it, and each call on the file fails from then on.
#[derive(Drop)]
pub struct Joined<F: Sectors> {
    file: F,

    /// What was written and waits.
    waiting: Held,

    /// Why a write or a sync failed, where one did.
    lost: Option<Trouble>,
}

impl<F: Sectors> Joined<F> {
    /// A file to which nothing was written yet.
    pub fn new(alloc: Global, file: F) -> Joined<F>
        ensures file { result.file ≡ file }
        ensures none { result.waiting.count ≡ 0 }
        ensures whole { result.lost ≡ None }
    {
        Joined {
            file,
            waiting: Held::none(alloc),
            lost: None,
        }
    }

    /// The file.
    pub fn file(&self) -> &F
        ensures { result.now ≡ self.now.file }
    {
        &self.file
    }

    /// Why a write or a sync failed, where one did.
    pub fn lost(&self) -> Option<Trouble>
        ensures { result ≡ self.now.lost }
    {
        self.lost
    }

    /// Copies a sector that waits, if it does.
    pub fn copy_waiting(&self, sector: u32, into: &mut [u8; 512]) -> bool
        ensures bytes { (content : ℕ → ℕ) → result ≡ true → IsPart (overlaid self.now.waiting content) (512 * sector)
            into.new }
        ensures kept { result ≡ false → into.new ≡ into.old }
    {
        self.waiting.copy(sector, into)
    }

    /// Sends what waits.
    pub fn send(&mut self) -> Result<(), Trouble>
        ensures same { F.told → OnOk result (overlaid self.new.waiting (F.content self.new.file)
            ≡ overlaid self.old.waiting (F.content self.old.file)) }
        ensures out { OnOk result (self.new.waiting.count ≡ 0) }
        ensures lost { OnErr result (self.new.lost ≢ None) }
        ensures fails { self.old.lost ≢ None → IsErr result }
    {
        if let Some(trouble) = self.lost {
            return Err(trouble);
        }
        if self.waiting.is_empty() {
            return Ok(());
        }
        match self.file.write(self.waiting.first(), self.waiting.bytes()) {
            Ok(()) => {
                self.waiting.forget();
                Ok(())
            }
            Err(trouble) => {
                self.lost = Some(trouble);
                Err(trouble)
            }
        }
    }

    /// Writes what doesn't wait, while nothing does.
    fn write_through(&mut self, sector: u32, from: &[u8]) -> Result<(), Trouble>
        requires { self.old.waiting.count ≡ 0 }
        ensures written { F.told → OnOk result (IsWritten (512 * sector) from.now
            (overlaid self.old.waiting (F.content self.old.file))
            (overlaid self.new.waiting (F.content self.new.file))) }
        ensures lost { OnErr result (self.new.lost ≢ None) }
    {
        if let Err(trouble) = self.file.write(sector, from) {
            self.lost = Some(trouble);
            return Err(trouble);
        }
        Ok(())
    }
}

/// What waits lies over what the file has.
impl<F: Sectors> Sectors for Joined<F> {
    ghost told = { F.told };

    ghost content = { λ joined. overlaid joined.waiting (F.content joined.file) };

    fn read(&mut self, sector: u32, room: &mut [u8]) -> Result<(), Trouble>
        ensures bytes { F.told → OnOk result (IsPart (overlaid self.old.waiting (F.content self.old.file))
            (512 * sector) room.new) }
        ensures rests { F.told → overlaid self.new.waiting (F.content self.new.file)
            ≡ overlaid self.old.waiting (F.content self.old.file) }
        ensures fails { self.old.lost ≢ None → IsErr result }
        ensures lost { self.new.lost ≡ self.old.lost }
    {
        if let Some(trouble) = self.lost {
            return Err(trouble);
        }
        self.file.read(sector, room)?;
        self.waiting.lay_over(sector, room);
        Ok(())
    }

    fn refusal(&self) -> Option<Trouble> {
        match self.lost {
            Some(trouble) => Some(trouble),
            None => self.file.refusal(),
        }
    }

    fn write(&mut self, sector: u32, from: &[u8]) -> Result<(), Trouble>
        ensures written { F.told → OnOk result (IsWritten (512 * sector) from.now
            (overlaid self.old.waiting (F.content self.old.file))
            (overlaid self.new.waiting (F.content self.new.file))) }
        ensures lost { OnErr result (self.new.lost ≢ None) }
        ensures fails { self.old.lost ≢ None → IsErr result }
    {
        if let Some(trouble) = self.lost {
            return Err(trouble);
        }
        if let Some(trouble) = self.file.refusal() {
            self.lost = Some(trouble);
            return Err(trouble);
        }
        if self.waiting.put(sector, from) {
            return Ok(());
        }
        self.send()?;
        if self.waiting.put(sector, from) {
            return Ok(());
        }
        self.write_through(sector, from)
    }

    fn sync(&mut self) -> Result<(), Trouble>
        ensures same { F.told → OnOk result (overlaid self.new.waiting (F.content self.new.file)
            ≡ overlaid self.old.waiting (F.content self.old.file)) }
        ensures out { OnOk result (self.new.waiting.count ≡ 0) }
        ensures lost { OnErr result (self.new.lost ≢ None) }
        ensures fails { self.old.lost ≢ None → IsErr result }
    {
        self.send()?;
        if let Err(trouble) = self.file.sync() {
            self.lost = Some(trouble);
            return Err(trouble);
        }
        Ok(())
    }
}
