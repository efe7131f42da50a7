//! An image in a file, with an output beside it.

use crate::file_side::FileSide;
use crate::outlet::Outlet;
use crate::progress::Progress;
use image_device::{Device, Failed, Port, WorkDone};
use image_files::{ImageFile, Kind, Trouble};
use std::alloc::Global;
use std::io::Write;
use std::time::Clock;

/// An image in a file, read and written by offset, and an output. It tells nothing of its contents: what a system
/// keeps, no clause can say. Where there is a terminal `E` with a clock `C`, long work is told there.
#[derive(Drop)]
pub struct FileStation<O, C, E> {
    image: FileSide,
    outlet: Outlet<O>,
    progress: Progress<C, E>,
    writes: u64,
}

impl<O, C, E> FileStation<O, C, E> {
    /// An image that was opened, or failed to be: then each call on it fails. The output keeps nothing back: what a
    /// write to it took was sent.
    pub fn new(
        alloc: Global,
        image: Result<ImageFile, Trouble>,
        output: O,
        progress: Progress<C, E>,
    ) -> FileStation<O, C, E> {
        FileStation {
            image: FileSide::new(alloc, image),
            outlet: Outlet::new(output),
            progress,
            writes: 0,
        }
    }

    /// Why the first call on the image failed that did.
    pub fn trouble(&self) -> Option<Trouble> {
        self.image.trouble()
    }

    /// What the image is kept in, where a write or a sync of it failed: the system may then show what the medium
    /// doesn't hold.
    pub fn unsure(&self) -> Option<Kind> {
        self.image.unsure()
    }

    /// Why the first put failed that did.
    pub fn output_trouble(&self) -> Option<Trouble> {
        self.outlet.trouble()
    }
}

impl<O, C: Clock, E: Write> FileStation<O, C, E> {
    /// Ends: wipes what is told of long work, before anything else is written, and hands what waits to the system. That
    /// fails where a write does that was answered Ok.
    pub fn finish(&mut self) -> Result<(), Failed> {
        self.progress.wipe();
        self.image.send()
    }
}

impl<O: Write, C: Clock, E: Write> Device for FileStation<O, C, E> {
    ghost use Rattle.image_device.specs.Counts.{Rose};
    ghost use Rattle.image_device.specs.View.{View, untold};
    ghost use Rattle.image_device.specs.Calls.{Uses};
    ghost use Rattle.std.specs.Prelude.{◌≡◌, ◌≤◌, OnOk, OnErr};

    ghost told = { ⊥ };

    ghost view = { λ s. untold s.image.faults s.outlet.faults s.writes };

    ghost sound = { λ s told. absurd told };

    fn read(&mut self, sector: u32, into: &mut [u8; 512]) -> Result<(), Failed> {
        self.progress.count_read();
        self.image.read(sector, into)
    }

    fn write(&mut self, sector: u32, from: &[u8; 512]) -> Result<(), Failed> {
        self.progress.count_write();
        self.writes = self.writes.saturating_add(1);
        self.image.write(sector, from)
    }

    fn sync(&mut self) -> Result<(), Failed> {
        self.progress.note_sync();
        self.image.sync()
    }

    fn show_work_done(&self, done: WorkDone) {
        self.progress.note_work_done(done);
    }
}

impl<O: Write, C: Clock, E: Write> Port for FileStation<O, C, E> {
    ghost use Rattle.image_device.specs.Counts.{Rose};
    ghost use Rattle.image_device.specs.Calls.{Puts};
    ghost use Rattle.std.specs.Prelude.{◌≡◌, ◌<◌, ◌≤◌, length, IfOk, OnOk, OnErr};

    /// What was written is handed to the system before.
    fn put(&mut self, piece: &[u8]) -> Result<usize, Failed> {
        self.progress.wipe();
        self.image.pass_on();
        self.outlet.put(piece)
    }
}
