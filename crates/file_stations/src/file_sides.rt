//! Two images in files, with an output beside them.

ghost use Rattle.std.specs.Prelude.{◌≡◌};

use crate::file_side::FileSide;
use crate::notes::{Named, Notes};
use crate::outlet::Outlet;
use crate::progress::Progress;
use image_device::{Failed, WorkDone};
use image_files::{ImageFile, Mark, Trouble};
use mirror_device::{Side, SideCounts, Sides};
use std::alloc::Global;
use std::io::Write;
use std::time::Clock;

/// An image with its path and its mark, and its file or why it couldn't be opened.
#[derive(Drop)]
pub struct NamedImage {
    /// Its path and its mark.
    pub named: Named,

    /// Its file, or why it couldn't be opened.
    pub image: Result<ImageFile, Trouble>,
}

/// Two images in files and an output. They tell nothing of their contents: what a system keeps, no clause can say.
/// Where there is a terminal `E` with a clock `C`, long work is told there, the copying with how much is left of it.
/// The first call that fails on an image is told in lines of errors `F` as it comes, since the run goes on without it.
/// The image that goes on is marked then, before anything else is done; where that fails it isn't served any longer,
/// and nothing more is sent.
#[derive(Drop)]
pub struct FileSides<'a, O, C, E, F> {
    first: FileSide,
    second: FileSide,
    outlet: Outlet<O>,
    progress: Progress<C, E>,
    notes: Notes<'a, F>,

    /// The sectors of the first image, once they were asked for.
    first_end: u64,
}

impl<'a, O, C, E, F> FileSides<'a, O, C, E, F> {
    /// Two images that were opened, or failed to be: then each call on that one fails.
    pub fn new(
        rt: &'a HostRuntime,
        first: NamedImage,
        second: NamedImage,
        output: O,
        progress: Progress<C, E>,
        errors: F,
    ) -> FileSides<'a, O, C, E, F> {
        let alloc: Global = rt.alloc();
        FileSides {
            first: FileSide::new(alloc, first.image),
            second: FileSide::new(alloc, second.image),
            outlet: Outlet::new(output),
            progress,
            notes: Notes::new(rt, errors, first.named, second.named),
            first_end: 0,
        }
    }

    /// Why the first put failed that did.
    pub fn output_trouble(&self) -> Option<Trouble> {
        self.outlet.trouble()
    }
}

impl<O, C: Clock, E: Write, F: Write> FileSides<'_, O, C, E, F> {
    /// Ends: wipes what is told of long work, before anything else is written, and hands what waits to the system.
    /// Tells of the first image and of the second whether that failed: it does where a write did that was answered Ok.
    pub fn finish(&mut self) -> (Result<(), Failed>, Result<(), Failed>) {
        self.progress.wipe();
        let first = self.first.send();
        if first.is_err() {
            self.first_failed();
        }
        let second = self.second.send();
        if second.is_err() {
            self.second_failed();
        }
        (first, second)
    }

    /// After a call on the first image that failed: where it is the first one, tells why, and marks the second image,
    /// if that is whole.
    fn first_failed(&mut self)
        ensures first_faults { self.new.first.faults ≡ self.old.first.faults }
        ensures first_syncs { self.new.first.syncs ≡ self.old.first.syncs }
        ensures second_faults { self.new.second.faults ≡ self.old.second.faults }
        ensures second_syncs { self.new.second.syncs ≡ self.old.second.syncs }
        ensures put_faults { self.new.outlet.faults ≡ self.old.outlet.faults }
    {
        if self.first.faults != 1 {
            return;
        }
        self.progress.wipe();
        self.notes.tell_first(&self.first);
        if self.second.faults != 0 || !self.notes.is_whole() {
            return;
        }
        if let Err(error) = self.notes.mark_second() {
            self.second.give_up(Trouble::Mark(error));
            self.outlet.close(Trouble::Mark(error));
        }
    }

    /// After a call on the second image that failed: where it is the first one, tells why, and marks the first image.
    fn second_failed(&mut self)
        ensures first_faults { self.new.first.faults ≡ self.old.first.faults }
        ensures first_syncs { self.new.first.syncs ≡ self.old.first.syncs }
        ensures second_faults { self.new.second.faults ≡ self.old.second.faults }
        ensures second_syncs { self.new.second.syncs ≡ self.old.second.syncs }
        ensures put_faults { self.new.outlet.faults ≡ self.old.outlet.faults }
    {
        if self.second.faults != 1 {
            return;
        }
        self.progress.wipe();
        self.notes.tell_second(&self.second);
        if self.first.faults != 0 {
            return;
        }
        if let Err(error) = self.notes.mark_first() {
            self.first.give_up(Trouble::Mark(error));
            self.outlet.close(Trouble::Mark(error));
        }
    }
}

impl<O: Write, C: Clock, E: Write, F: Write> Sides for FileSides<'_, O, C, E, F> {
    ghost use Rattle.image_device.specs.Counts.{raised};
    ghost use Rattle.mirror_device.specs.SidesView.{side_of, untold_sides};
    ghost use Rattle.mirror_device.specs.SideCalls.{SidesPut, SideSyncs, SideUses};
    ghost use Rattle.std.specs.Prelude.{◌≡◌, ◌<◌, ◌≤◌, ◌^◌, length, IfOk, OnOk, OnErr};

    ghost told = { ⊥ };

    ghost view = { λ s. untold_sides s.first.faults s.first.syncs s.second.faults s.second.syncs s.outlet.faults };

    ghost sound = { λ s told. absurd told };

    fn read(&mut self, side: Side, sector: u32, into: &mut [u8; 512]) -> Result<(), Failed> {
        self.progress.count_read();
        match side {
            Side::First => {
                let done = self.first.read(sector, into);
                if done.is_err() {
                    self.first_failed();
                }
                done
            }
            Side::Second => {
                let done = self.second.read(sector, into);
                if done.is_err() {
                    self.second_failed();
                }
                done
            }
        }
    }

    fn write(&mut self, side: Side, sector: u32, from: &[u8; 512]) -> Result<(), Failed> {
        self.progress.count_write();
        match side {
            Side::First => {
                let done = self.first.write(sector, from);
                if done.is_err() {
                    self.first_failed();
                }
                done
            }
            Side::Second => {
                let done = self.second.write(sector, from);
                if done.is_err() {
                    self.second_failed();
                } else {
                    self.notes.count_copied();
                }
                done
            }
        }
    }

    /// The copying ends with the first sync of the second side.
    fn sync(&mut self, side: Side) -> Result<(), Failed> {
        self.progress.note_sync();
        match side {
            Side::First => {
                let done = self.first.sync();
                if done.is_err() {
                    self.first_failed();
                }
                done
            }
            Side::Second => {
                self.progress.copy_ends();
                let done = self.second.sync();
                if done.is_err() {
                    self.second_failed();
                } else {
                    self.notes.copy_ends();
                }
                done
            }
        }
    }

    /// The copying begins once both ends are known.
    fn end(&mut self, side: Side) -> Result<u64, Failed> {
        match side {
            Side::First => match self.first.end() {
                Ok(end) => {
                    self.first_end = end;
                    Ok(end)
                }
                Err(failed) => {
                    self.first_failed();
                    Err(failed)
                }
            },
            Side::Second => match self.second.end() {
                Ok(end) => {
                    self.progress.copy_begins(end.max(self.first_end));
                    self.notes.copy_begins();
                    Ok(end)
                }
                Err(failed) => {
                    self.second_failed();
                    Err(failed)
                }
            },
        }
    }

    fn seen(&self, side: Side) -> SideCounts {
        let file = match side {
            Side::First => &self.first,
            Side::Second => &self.second,
        };
        SideCounts {
            faults: file.faults,
            syncs: file.syncs,
        }
    }

    /// What was written is handed to the system before.
    fn put(&mut self, piece: &[u8]) -> Result<usize, Failed> {
        self.progress.wipe();
        self.first.pass_on();
        self.second.pass_on();
        self.outlet.put(piece)
    }

    fn show_work_done(&self, done: WorkDone) {
        self.progress.note_work_done(done);
    }
}
