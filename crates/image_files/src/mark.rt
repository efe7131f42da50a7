//! Marks of images: that one went on alone when the other image of its mirror failed, and so has later answers.
//!
//! A mark is a small file, never a part of the image: beside the image's file, or where that can't be, and for a
//! device, in a folder of state. Its first word is a number. Of two images that both have one the greater number is the
//! later one's.

use crate::image_file::{folder_of, is_device, sync_parent};
use std::env;
use std::fs::{self, File, OpenOptions};
use std::io::{self, ErrorKind, Read, Write};
use std::os::unix::fs::OpenOptionsExt;
use std::path::{self, Path};

/// What stands behind the name of an image in that of its mark.
const ENDING: &str = ".went-on-alone";

/// What stands behind the name of a mark while it is written.
const UNFINISHED: &str = ".new";

/// The variable that names the folder of state.
const STATE_NAME: &str = "TSD_STATE";

/// That folder, where the variable isn't set.
const STATE: &str = "/var/lib/tsd";

/// What a mark says behind its number.
const SAYS: &str =
    "This image went on alone when the other image of its mirror failed: it has later answers than that.\n\
    Give it first to `tsd mirror`: it is then copied to the other one, and this file is taken away.\n";

/// The most bytes of a mark that are read.
const READ_MAX: u64 = 64;

/// A mark is for all to see: it tells nothing of the disk.
const ALL_READ: u32 = 0o644;

/// The mark of one image, or the places for it.
#[derive(Drop)]
pub struct Mark {
    /// Where it stands: beside the image, or for a device in the folder of state.
    place: String,

    /// Where it stands if it can't stand there: in the folder of state.
    spare: String,

    /// It stands in the second place.
    is_spare: bool,

    number: u64,
}

impl Mark {
    /// Of the image at a path, whether it has one or not.
    pub fn of(rt: &HostRuntime, path: &str) -> io::Result<Mark> {
        let whole = whole_path(rt, path)?;
        let spare = place_in_state(rt, whole.as_str())?;
        let place = if is_device(rt, path) {
            place_in_state(rt, whole.as_str())?
        } else {
            format!(in rt.alloc(); "{}{ENDING}", whole.as_str())?
        };
        let first = number_in(rt, place.as_str())?;
        let second = number_in(rt, spare.as_str())?;
        Ok(Mark {
            place,
            spare,
            is_spare: second > first,
            number: first.max(second),
        })
    }

    /// Where it stands.
    pub fn place(&self) -> &str {
        if self.is_spare {
            self.spare.as_str()
        } else {
            self.place.as_str()
        }
    }

    /// The same, where the mark isn't needed any longer.
    pub fn into_place(self) -> String {
        if self.is_spare {
            self.spare
        } else {
            self.place
        }
    }

    /// Whether it was made later than another one. None was made before each.
    pub fn is_later(&self, other: &Mark) -> bool {
        self.number > other.number
    }

    /// Makes it, later than another one, and has it on the disk before anything else is done. Where it is later already
    /// it stays.
    pub fn make(&mut self, rt: &HostRuntime, other: &Mark) -> io::Result<()> {
        if self.is_later(other) {
            return Ok(());
        }
        let number = other.number.saturating_add(1);
        if let Err(error) = write_mark(rt, self.place.as_str(), number) {
            if write_mark(rt, self.spare.as_str(), number).is_err() {
                return Err(error);
            }
            self.is_spare = true;
        }
        self.number = number;
        Ok(())
    }

    /// Takes it away, if it is there. Its number stays known, so that the next one is later.
    pub fn take_away(&self, rt: &HostRuntime) -> io::Result<()> {
        take_from(rt, self.spare.as_str())?;
        take_from(rt, self.place.as_str())
    }
}

/// The path of an image's file from the root: the real one, where it leads to a file, and that of a device as it is.
fn whole_path(rt: &HostRuntime, path: &str) -> io::Result<String> {
    if !is_device(rt, path) {
        if let Ok(file) = fs::canonicalize(rt, path) {
            return Ok(file.into_string());
        }
    }
    Ok(path::absolute(rt, path)?.into_string())
}

/// The place of a mark in the folder of state, under the image's whole path.
fn place_in_state(rt: &HostRuntime, whole: &str) -> io::Result<String> {
    let alloc = rt.alloc();
    let folder = match env::var(rt, STATE_NAME) {
        Ok(folder) => folder,
        Err(_) => String::from_str(alloc, STATE)?,
    };
    let name = whole.replace(alloc, '/', "!")?;
    Ok(format!(in alloc; "{folder}/{name}{ENDING}")?)
}

/// Takes a mark away, if it is there.
fn take_from(rt: &HostRuntime, place: &str) -> io::Result<()> {
    match fs::remove_file(rt, place) {
        Ok(()) => sync_parent(rt, Path::new(place)),
        Err(error) => match error.kind() {
            ErrorKind::NotFound | ErrorKind::NotADirectory => Ok(()),
            _ => Err(error),
        },
    }
}

/// The number of a mark, or 0 where there is none. One that can't be understood is one all the same.
fn number_in(rt: &HostRuntime, place: &str) -> io::Result<u64> {
    let file = match File::open(rt, place) {
        Ok(file) => file,
        Err(error) => {
            return match error.kind() {
                ErrorKind::NotFound | ErrorKind::NotADirectory => Ok(0),
                _ => Err(error),
            };
        }
    };
    let mut bytes = Vec::new(rt.alloc());
    file.take(READ_MAX).read_to_end(&mut bytes)?;
    let mut number = 0u64;
    for byte in bytes.iter() {
        if !byte.is_ascii_digit() {
            break;
        }
        number = number
            .saturating_mul(10)
            .saturating_add(u64::from(*byte & 0x0f));
    }
    Ok(number.max(1))
}

/// Writes a mark beside its place, and puts it there once it is on the disk.
fn write_mark(rt: &HostRuntime, place: &str, number: u64) -> io::Result<()> {
    fs::create_dir_all(rt, folder_of(Path::new(place)))?;
    let unfinished = format!(in rt.alloc(); "{place}{UNFINISHED}")?;
    let mut file = OpenOptions::new()
        .write(true)
        .create(true)
        .truncate(true)
        .mode(ALL_READ)
        .open(rt, unfinished.as_str())?;
    write!(file, "{number}\n{SAYS}")?;
    file.sync_all()?;
    fs::rename(rt, unfinished.as_str(), place)?;
    sync_parent(rt, Path::new(place))
}
