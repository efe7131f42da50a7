//! One image in a file, and what failed of it.

ghost use Rattle.std.specs.Prelude.{◌≡◌, ◌≢◌, ◌≤◌, ◌^◌, None, Some, IfOk, OnErr, OnOk};
ghost use Rattle.image_device.specs.Counts.{raised, CountsFault};

use image_device::Failed;
use image_files::{Followed, ImageFile, Kind, Quoted, SECTOR, Shown, Trouble};
use std::alloc::Global;
use std::io::{self, Write};

/// The file of an image, or why there is none.
#[derive(Drop)]
enum Image {
    /// It is open.
    Open(Followed<ImageFile>),

    /// It couldn't be opened.
    Lost(Trouble),
}

impl Image {
    /// Reads a sector.
    fn read(&mut self, sector: u32, into: &mut [u8; SECTOR]) -> Result<(), Trouble>
        ensures { OnErr result (into.new ≡ into.old) }
    {
        match self {
            Image::Open(file) => file.read(sector, into),
            Image::Lost(trouble) => Err(*trouble),
        }
    }

    /// Writes a sector.
    fn write(&mut self, sector: u32, from: &[u8; SECTOR]) -> Result<(), Trouble> {
        match self {
            Image::Open(file) => file.write(sector, from),
            Image::Lost(trouble) => Err(*trouble),
        }
    }

    /// Hands what was written and waits to the system.
    fn send(&mut self) -> Result<(), Trouble> {
        match self {
            Image::Open(file) => file.send(),
            Image::Lost(_) => Ok(()),
        }
    }

    /// Has all that was written on the medium.
    fn sync(&mut self) -> Result<(), Trouble> {
        match self {
            Image::Open(file) => file.sync(),
            Image::Lost(trouble) => Err(*trouble),
        }
    }

    /// The number of sectors, with those that were written and waited.
    fn end(&mut self) -> Result<u64, Trouble>
        ensures { IfOk result (λ end. end ≤ 2 ^ 32) }
    {
        self.send()?;
        match self {
            Image::Open(file) => file.file().end(),
            Image::Lost(trouble) => Err(*trouble),
        }
    }

    /// What it is kept in, where a write or a sync failed and the system may show of it what the medium doesn't hold:
    /// where it could be written, to a file or a device.
    fn doubt(&self) -> Option<Kind> {
        match self {
            Image::Open(file) if file.lost().is_some() && file.file().is_written() => {
                Some(file.file().kind())
            }
            _ => None,
        }
    }
}

/// An image in a file, read and written by offset: read ahead where reads follow one another, and written by one call
/// where sectors do, for which a write waits until it is sent. It counts the calls that failed and the syncs that were
/// answered Ok, each up to the greatest `u64`. A write that was answered Ok and then can't be sent is told and counted
/// by the next call, and each call fails from then on.
#[derive(Drop)]
pub struct FileSide {
    image: Image,
    trouble: Option<Trouble>,
    unsure: Option<Kind>,
    pub(crate) faults: u64,
    pub(crate) syncs: u64,
}

impl FileSide {
    /// An image that was opened, or failed to be: then each call on it fails.
    pub fn new(alloc: Global, image: Result<ImageFile, Trouble>) -> FileSide
        ensures faults { result.faults ≡ 0 }
        ensures syncs { result.syncs ≡ 0 }
    {
        FileSide {
            image: match image {
                Ok(file) => Image::Open(Followed::new(alloc, file)),
                Err(trouble) => Image::Lost(trouble),
            },
            trouble: None,
            unsure: None,
            faults: 0,
            syncs: 0,
        }
    }

    /// Why the first call on the image failed that did.
    pub fn trouble(&self) -> Option<Trouble> {
        self.trouble
    }

    /// What the image is kept in, where a write or a sync of it failed: the system may then show what the medium
    /// doesn't hold.
    pub fn unsure(&self) -> Option<Kind> {
        self.unsure
    }

    /// Serves it no longer: each call on it fails from now on.
    pub fn give_up(&mut self, trouble: Trouble)
        ensures faults { self.new.faults ≡ self.old.faults }
        ensures syncs { self.new.syncs ≡ self.old.syncs }
    {
        self.image = Image::Lost(trouble);
    }

    /// Reads a sector.
    pub fn read(&mut self, sector: u32, into: &mut [u8; SECTOR]) -> Result<(), Failed>
        ensures kept { OnErr result (into.new ≡ into.old) }
        ensures faults { CountsFault result self.old.faults self.new.faults }
        ensures later { self.old.faults ≤ self.new.faults }
        ensures syncs { self.new.syncs ≡ self.old.syncs }
    {
        match self.image.read(sector, into) {
            Ok(()) => Ok(()),
            Err(trouble) => {
                note(&mut self.trouble, trouble);
                self.unsure = self.image.doubt();
                self.faults = self.faults.saturating_add(1);
                Err(Failed)
            }
        }
    }

    /// Writes a sector.
    pub fn write(&mut self, sector: u32, from: &[u8; SECTOR]) -> Result<(), Failed>
        ensures faults { CountsFault result self.old.faults self.new.faults }
        ensures later { self.old.faults ≤ self.new.faults }
        ensures syncs { self.new.syncs ≡ self.old.syncs }
    {
        match self.image.write(sector, from) {
            Ok(()) => Ok(()),
            Err(trouble) => {
                note(&mut self.trouble, trouble);
                self.unsure = self.image.doubt();
                self.faults = self.faults.saturating_add(1);
                Err(Failed)
            }
        }
    }

    /// Hands what waits to the system, before a reply is put. Where that fails the next call on the image tells it.
    pub fn pass_on(&mut self)
        ensures faults { self.new.faults ≡ self.old.faults }
        ensures syncs { self.new.syncs ≡ self.old.syncs }
    {
        let _told_later = self.image.send();
    }

    /// Hands what waits to the system, at the end of a run.
    pub fn send(&mut self) -> Result<(), Failed>
        ensures faults { CountsFault result self.old.faults self.new.faults }
        ensures later { self.old.faults ≤ self.new.faults }
        ensures syncs { self.new.syncs ≡ self.old.syncs }
    {
        match self.image.send() {
            Ok(()) => Ok(()),
            Err(trouble) => {
                note(&mut self.trouble, trouble);
                self.unsure = self.image.doubt();
                self.faults = self.faults.saturating_add(1);
                Err(Failed)
            }
        }
    }

    /// Waits until all that was written is on the medium.
    pub fn sync(&mut self) -> Result<(), Failed>
        ensures faults { CountsFault result self.old.faults self.new.faults }
        ensures later { self.old.faults ≤ self.new.faults }
        ensures synced { OnOk result (self.new.syncs ≡ raised self.old.syncs) }
        ensures later_syncs { self.old.syncs ≤ self.new.syncs }
        ensures not_synced { OnErr result (self.new.syncs ≡ self.old.syncs) }
    {
        match self.image.sync() {
            Ok(()) => {
                self.syncs = self.syncs.saturating_add(1);
                Ok(())
            }
            Err(trouble) => {
                note(&mut self.trouble, trouble);
                self.unsure = self.image.doubt();
                self.faults = self.faults.saturating_add(1);
                Err(Failed)
            }
        }
    }

    /// The number of sectors, where the last may be a part of one.
    pub fn end(&mut self) -> Result<u64, Failed>
        ensures range { IfOk result (λ end. end ≤ 2 ^ 32) }
        ensures faults { CountsFault result self.old.faults self.new.faults }
        ensures later { self.old.faults ≤ self.new.faults }
        ensures syncs { self.new.syncs ≡ self.old.syncs }
    {
        match self.image.end() {
            Ok(end) => Ok(end),
            Err(trouble) => {
                note(&mut self.trouble, trouble);
                self.unsure = self.image.doubt();
                self.faults = self.faults.saturating_add(1);
                Err(Failed)
            }
        }
    }
}

/// Keeps the first trouble.
pub fn note(first: &mut Option<Trouble>, trouble: Trouble)
    ensures noted { first.old ≡ None → first.new ≡ Some trouble }
    ensures kept { first.old ≢ None → first.new ≡ first.old }
{
    if first.is_none() {
        *first = Some(trouble);
    }
}

/// Writes why a call on an image failed, and where a write or a sync did, how to have the system forget what it shows.
pub fn tell_image<E: Write>(
    errors: &mut E,
    path: &str,
    trouble: &Trouble,
    unsure: Option<Kind>,
) -> io::Result<()> {
    let (shown, word) = (Shown { name: path }, Quoted { name: path });
    writeln!(errors, "tsd: {shown}: {trouble}")?;
    match unsure {
        Some(Kind::Device) => {
            writeln!(errors, "tsd: {shown}: {UNSURE} blockdev --flushbufs {word}")
        }
        Some(Kind::File) => {
            writeln!(
                errors,
                "tsd: {shown}: {UNSURE} dd if={word} iflag=nocache count=0, or mount its file system anew"
            )
        }
        _ => Ok(()),
    }
}

/// What is told after a write or a sync that failed, before the command that helps.
const UNSURE: &str =
    "the system may now show what the medium doesn't hold; before the next run, have it forget that:";
