//! The first image of a mirror, tested by reads alone before anything is written to the second one.

use file_stations::{InputSource, Progress, Shadow};
use image_files::{ImageFile, Opening};
use place_policy::PlaceBook;
use std::alloc::AllocError;
use std::io;
use tsd_serve::{Status, tsd};

/// What is wrong with an image that stands for no world.
#[derive(Drop)]
pub struct Flaw {
    /// The status that tells it.
    pub status: Status,

    /// The line of `check` that does.
    pub line: Vec<u8>,
}

/// What is wrong with the image at a path, by what `check` finds over it: what that writes is kept in memory. None
/// where it stands for a world, or where that can't be told.
pub fn flaw_of(rt: &HostRuntime, path: &str, book: &PlaceBook) -> Result<Option<Flaw>, AllocError> {
    let alloc = rt.alloc();
    let Ok(image) = ImageFile::open(rt, path, Opening::Read) else {
        return Ok(None);
    };
    let mut command = Vec::new(alloc);
    command.push(String::from_str(alloc, "check")?)?;
    let mut nothing = InputSource::new(io::empty());
    let mut shadow = Shadow::new(alloc, image, Progress::of(rt));
    let status = tsd(alloc, &command, &mut nothing, &mut shadow, book);
    shadow.wipe();
    if !matches!(status, Status::NotImage(_)) {
        return Ok(None);
    }
    let line = shadow.sent().to_vec(alloc)?;
    Ok(Some(Flaw { status, line }))
}
