//! What is told of two images as it comes, and marked beside them.

use crate::file_side::{FileSide, tell_image};
use image_files::{Mark, Shown};
use std::io::{self, Write};

/// An image's path and its mark.
#[derive(Drop)]
pub struct Named {
    /// The path.
    pub path: String,

    /// Its mark, or the place for it.
    pub mark: Mark,
}

/// Where things are told of two images, and how far their copying is.
#[derive(Drop)]
pub struct Notes<'a, F> {
    rt: &'a HostRuntime,
    errors: F,
    first: Named,
    second: Named,

    /// How many sectors were written to the second image while it was copied.
    copied: u64,

    /// Whether the first image is being copied.
    is_copying: bool,

    /// Whether the second image holds what the first one does, from the copying on.
    is_whole: bool,
}

impl<'a, F> Notes<'a, F> {
    /// Of two images, of which nothing was copied yet.
    pub fn new(rt: &'a HostRuntime, errors: F, first: Named, second: Named) -> Notes<'a, F> {
        Notes {
            rt,
            errors,
            first,
            second,
            copied: 0,
            is_copying: false,
            is_whole: false,
        }
    }

    /// The copying begins.
    pub fn copy_begins(&mut self) {
        self.is_copying = true;
    }

    /// Counts a sector that was written to the second image.
    pub fn count_copied(&mut self) {
        if self.is_copying {
            self.copied = self.copied.saturating_add(1);
        }
    }

    /// Whether the second image holds what the first one does, from the copying on.
    pub fn is_whole(&self) -> bool {
        self.is_whole
    }

    /// Marks the first image, since it goes on alone.
    pub fn mark_first(&mut self) -> io::Result<()> {
        self.first.mark.make(self.rt, &self.second.mark)
    }

    /// Marks the second image, since it goes on alone.
    pub fn mark_second(&mut self) -> io::Result<()> {
        self.second.mark.make(self.rt, &self.first.mark)
    }
}

impl<F: Write> Notes<'_, F> {
    /// The copying has ended, where one went on: both images are whole, so their marks are taken away. Tells how many
    /// sectors were written, where there were some.
    pub fn copy_ends(&mut self) {
        if !self.is_copying {
            return;
        }
        self.is_copying = false;
        self.is_whole = true;
        if self.copied != 0 {
            let (count, from) = (self.copied, self.first.path.as_str());
            let to = self.second.path.as_str();
            let (from, to) = (Shown { name: from }, Shown { name: to });
            let _told = match count {
                1 => writeln!(
                    self.errors,
                    "tsd: {to}: 1 sector was copied to it from {from}"
                ),
                _ => writeln!(
                    self.errors,
                    "tsd: {to}: {count} sectors were copied to it from {from}"
                ),
            };
        }
        let taken = self.first.mark.take_away(self.rt);
        tell_left(&mut self.errors, &self.first, taken);
        let taken = self.second.mark.take_away(self.rt);
        tell_left(&mut self.errors, &self.second, taken);
    }

    /// Tells why the first call on the first image failed that did.
    pub fn tell_first(&mut self, side: &FileSide) {
        tell(&mut self.errors, &self.first, side);
    }

    /// Tells why the first call on the second image failed that did.
    pub fn tell_second(&mut self, side: &FileSide) {
        tell(&mut self.errors, &self.second, side);
    }
}

/// Tells why the first call on an image failed that did.
fn tell<F: Write>(errors: &mut F, named: &Named, side: &FileSide) {
    if let Some(trouble) = side.trouble() {
        let _told = tell_image(errors, named.path.as_str(), &trouble, side.unsure());
    }
}

/// Tells that a mark wasn't taken away, where it wasn't.
fn tell_left<F: Write>(errors: &mut F, named: &Named, taken: io::Result<()>) {
    if let Err(error) = taken {
        let place = Shown {
            name: named.mark.place(),
        };
        let _told = writeln!(
            errors,
            "tsd: {place}: the mark can't be taken away: {error}"
        );
    }
}
