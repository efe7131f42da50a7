//! What a command opens an image for, and what is looked at before: nothing may be lost by a slip.

ghost use Rattle.std.specs.Prelude.{◌≡◌, ◌*◌};
ghost use Rattle.tsd_model.specs.Geometry.{IsLawful};
ghost use Rattle.image_layout.specs.Areas.{total};
ghost use Rattle.image_files.specs.declared.image_file.Opening.TheVariants as opening;

use crate::line::images_of;
use image_files::{Content, IntoFile, Opening, Trouble, content_of};
use image_layout::{Layout, read_header};
use std::fs::{self, File};
use std::io::Read;
use tsd_model::Geometry;
use tsd_serve::{Command, command};

/// The bytes of a sector.
const SECTOR: u64 = 512;

/// What a command opens an image for; none where the words are no command.
pub fn opening_of(words: &Vec<String>) -> Option<Opening> {
    match command(words)? {
        Command::Fresh(fresh) => Some(making(&fresh.geometry)),
        Command::Format(format) => Some(making(&format.geometry)),
        Command::Check | Command::Audit | Command::Verify => Some(Opening::Looked),
        Command::Info => Some(Opening::Read),
        _ => Some(Opening::Kept),
    }
}

/// To make a disk of this size.
fn making(geometry: &Geometry) -> Opening
    requires { IsLawful geometry.now }
    ensures { result ≡ opening.Made (total geometry.now * 512) }
{
    let bytes = u64::from(Layout::of(geometry).total()) * SECTOR;
    Opening::Made { bytes }
}

/// What the second image of a mirror is opened for, by what the first one is.
pub fn copied(opening: Opening) -> Opening {
    match opening {
        Opening::Kept | Opening::Looked | Opening::Read => Opening::Copied,
        _ => opening,
    }
}

/// What the first image of a mirror is opened for: a recovery is written to both, so it is never read alone.
pub fn mirrored(opening: Opening) -> Opening {
    match opening {
        Opening::Looked | Opening::Read => Opening::Kept,
        _ => opening,
    }
}

/// Looks at the file at a path before it is opened, and tells what it holds where that would be lost. It is refused
/// where an output goes into it, and where something that is no disk would be lost unasked.
pub fn look(
    rt: &HostRuntime,
    path: &str,
    opening: Opening,
    overwrites: bool,
) -> Result<Content, Trouble> {
    let into = IntoFile::of(rt, path);
    if into.output || into.errors {
        return Err(Trouble::Output);
    }
    let content = match opening {
        Opening::Made { bytes } => content_of(rt, path, Some(bytes))?,
        Opening::Copied => content_of(rt, path, None)?,
        Opening::Kept | Opening::Looked | Opening::Read => Content::Nothing,
    };
    match content {
        Content::Other if !overwrites => Err(Trouble::NoDisk),
        _ => Ok(content),
    }
}

/// Whether standard error goes into one of the images of a command line: then nothing may be told there.
pub fn tells_into_image(rt: &HostRuntime, words: &[String]) -> bool {
    images_of(words)
        .iter()
        .any(|image| IntoFile::of(rt, image.as_str()).errors)
}

/// The bytes of a file, and those of the image that its header tells of, where the file ends before what formatting
/// writes: a whole image may be shorter than its header says, as long as no block behind is written.
pub fn cut_off(rt: &HostRuntime, path: &str) -> Option<(u64, u64)> {
    let metadata = fs::metadata(rt, path).ok()?;
    let mut sector = [0u8; 512];
    let mut file = File::open(rt, path).ok()?;
    file.read_exact(&mut sector).ok()?;
    let (least, needs) = match read_header(&sector) {
        Ok(header) => {
            let layout = Layout::of(&header.geometry);
            let primaries = u64::from(header.geometry.sectors).saturating_mul(u64::from(
                header.geometry.primaries,
            ));
            let least = u64::from(layout.data_start()).saturating_add(primaries);
            (
                least.saturating_mul(SECTOR),
                u64::from(layout.total()) * SECTOR,
            )
        }
        Err(_) => return None,
    };
    if metadata.is_file() && metadata.len() < least {
        Some((metadata.len(), needs))
    } else {
        None
    }
}
