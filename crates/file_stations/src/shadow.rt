//! An image that is only read, with an output in memory beside it.

use crate::file_side::FileSide;
use crate::progress::Progress;
use image_device::{Device, Failed, Port, WorkDone};
use image_files::ImageFile;
use std::alloc::Global;
use std::collections::BTreeMap;
use std::io::Write;
use std::time::Clock;

/// An image that is only read: what is written over it is kept in memory, and so is what is put beside it. It tells
/// nothing of its contents, as an image in a file tells nothing. Where there is a terminal `E` with a clock `C`, long
/// work is told there.
#[derive(Drop)]
pub struct Shadow<C, E> {
    image: FileSide,

    /// The sectors that were written, as they are now.
    written: BTreeMap<u32, [u8; 512]>,

    sent: Vec<u8>,
    progress: Progress<C, E>,
    faults: u64,
    put_faults: u64,
    writes: u64,
}

impl<C, E> Shadow<C, E> {
    /// An image that was opened, over which nothing is written yet.
    pub fn new(alloc: Global, image: ImageFile, progress: Progress<C, E>) -> Shadow<C, E> {
        Shadow {
            image: FileSide::new(alloc, Ok(image)),
            written: BTreeMap::new(alloc),
            sent: Vec::new(alloc),
            progress,
            faults: 0,
            put_faults: 0,
            writes: 0,
        }
    }

    /// The bytes that were put.
    pub fn sent(&self) -> &[u8] {
        self.sent.as_slice()
    }
}

impl<C: Clock, E: Write> Shadow<C, E> {
    /// Wipes what is told of long work, before anything else is written.
    pub fn wipe(&mut self) {
        self.progress.wipe();
    }
}

impl<C: Clock, E: Write> Device for Shadow<C, E> {
    ghost use Rattle.image_device.specs.Counts.{Rose};
    ghost use Rattle.image_device.specs.View.{View, untold};
    ghost use Rattle.image_device.specs.Calls.{Uses};
    ghost use Rattle.std.specs.Prelude.{◌≡◌, ◌≤◌, OnOk, OnErr};

    ghost told = { ⊥ };

    ghost view = { λ s. untold s.faults s.put_faults s.writes };

    ghost sound = { λ s told. absurd told };

    fn read(&mut self, sector: u32, into: &mut [u8; 512]) -> Result<(), Failed> {
        self.progress.count_read();
        if let Some(bytes) = self.written.get(&sector) {
            *into = *bytes;
            return Ok(());
        }
        if self.image.read(sector, into).is_err() {
            self.faults = self.faults.saturating_add(1);
            return Err(Failed);
        }
        Ok(())
    }

    fn write(&mut self, sector: u32, from: &[u8; 512]) -> Result<(), Failed> {
        self.writes = self.writes.saturating_add(1);
        if self.written.insert(sector, *from).is_err() {
            self.faults = self.faults.saturating_add(1);
            return Err(Failed);
        }
        Ok(())
    }

    /// Nothing of it has to outlast the run.
    fn sync(&mut self) -> Result<(), Failed> {
        Ok(())
    }

    fn show_work_done(&self, done: WorkDone) {
        self.progress.note_work_done(done);
    }
}

impl<C: Clock, E: Write> Port for Shadow<C, E> {
    ghost use Rattle.image_device.specs.Counts.{Rose};
    ghost use Rattle.image_device.specs.Calls.{Puts};
    ghost use Rattle.std.specs.Prelude.{◌≡◌, ◌<◌, ◌≤◌, length, IfOk, OnOk, OnErr};

    fn put(&mut self, piece: &[u8]) -> Result<usize, Failed> {
        if self.sent.extend_from_slice(piece).is_err() {
            self.put_faults = self.put_faults.saturating_add(1);
            return Err(Failed);
        }
        Ok(piece.len())
    }
}
