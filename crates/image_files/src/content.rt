//! What a file holds where a disk is to stand, before anything is written to it.

use crate::image_file::{Kind, read_bytes};
use crate::sectors::SECTOR;
use crate::trouble::Trouble;
use std::fs::{self, File};
use std::io::{self, Seek, SeekFrom};

/// What the header of a disk begins with.
const MAGIC: [u8; 8] = *b"TSDISK01";

/// So many sectors are read at a time.
const PIECE: usize = 64;

/// What a file holds.
#[derive(Clone, Copy, Debug, PartialEq, Eq)]
pub enum Content {
    /// Nothing that can be lost: it is missing, empty, or all zeros where it is looked at, or it keeps nothing.
    Nothing,

    /// A disk, whole or not: it begins as one does.
    Disk,

    /// Something else.
    Other,
}

/// What the file at a path holds in its first bytes, or in all where no number is given. Nothing is made or written. A
/// file that can't be looked at counts as one that holds nothing: it can't be opened to be written either.
pub fn content_of(rt: &HostRuntime, path: &str, bytes: Option<u64>) -> Result<Content, Trouble> {
    let metadata = match fs::metadata(rt, path) {
        Ok(metadata) => metadata,
        Err(_) => return Ok(Content::Nothing),
    };
    if Kind::of(&metadata) == Kind::Other {
        return Ok(Content::Nothing);
    }
    let file = match File::open(rt, path) {
        Ok(file) => file,
        Err(_) => return Ok(Content::Nothing),
    };
    let end = end_of(&file)?;
    let bytes = match bytes {
        // A device that is too small is told by its opening.
        Some(bytes) if bytes > end && Kind::of(&metadata) == Kind::Device => {
            return Ok(Content::Nothing);
        }
        Some(bytes) => bytes.min(end),
        None => end,
    };
    Ok(content_within(&file, bytes)?)
}

/// Where a file or a device ends.
fn end_of(file: &File) -> io::Result<u64> {
    let mut file = file;
    file.seek(SeekFrom::End(0))
}

/// What a file holds in its first bytes.
fn content_within(file: &File, bytes: u64) -> io::Result<Content> {
    let mut room = [0u8; PIECE * SECTOR];
    let pieces = bytes.div_ceil((PIECE * SECTOR) as u64);
    for piece in 0..pieces {
        let Ok(sector) = u32::try_from(piece.saturating_mul(PIECE as u64)) else {
            break;
        };
        let start = u64::from(sector) * SECTOR as u64;
        let count = read_bytes(file, sector, &mut room)?;
        let front = &room[..count];
        if sector == 0 && front.starts_with(&MAGIC) {
            return Ok(Content::Disk);
        }
        if !is_blank(front, bytes.saturating_sub(start)) {
            return Ok(Content::Other);
        }
    }
    Ok(Content::Nothing)
}

/// Whether the first of these bytes are zeros, or all where they are fewer.
fn is_blank(bytes: &[u8], count: u64) -> bool {
    let count = match usize::try_from(count) {
        Ok(count) => count.min(bytes.len()),
        Err(_) => bytes.len(),
    };
    bytes[..count].iter().all(|byte| *byte == 0)
}
