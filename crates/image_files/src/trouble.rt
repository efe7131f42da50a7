//! Why a call of the system failed, in words.

use std::fmt::{self, Formatter};
use std::io::{self, ErrorKind};

/// Why a call on an image, or on a standard stream, failed.
#[derive(Clone, Copy, Debug)]
pub enum Trouble {
    /// The system says why.
    System(io::Error),

    /// The call would have waited, and this descriptor lets none wait.
    NoWait,

    /// Another process has the image open.
    InUse,

    /// The image wasn't opened.
    NotOpen,

    /// The image's descriptor would be that of a standard stream.
    Standard,

    /// The folder that the image is in couldn't be opened or synced.
    Folder(io::Error),

    /// A device has fewer bytes than the disk that was to be made on it.
    TooSmall {
        /// The bytes of the disk.
        needs: u64,

        /// The bytes of the device.
        has: u64,
    },

    /// A device ends before the sector that was asked for.
    PastEnd,

    /// Standard output goes into the image.
    Output,

    /// Where a disk or a copy of one is to be made there is something that is no disk.
    NoDisk,

    /// The image has to be written before it can be read, and was opened to be read alone.
    NoRecovery,

    /// It is a link, and the file that it names is missing.
    Dangling,

    /// It went on alone when the other image of its mirror failed, and isn't to be overwritten by that.
    WentOn,

    /// The mark that it goes on alone can't be made or read.
    Mark(io::Error),

    /// Who was asked doesn't want a new disk in its place.
    Declined,
}

impl From<io::Error> for Trouble {
    fn from(error: io::Error) -> Trouble {
        match error.kind() {
            ErrorKind::WouldBlock => Trouble::NoWait,
            _ => Trouble::System(error),
        }
    }
}

impl fmt::Display for Trouble {
    fn fmt<W: fmt::Write>(&self, f: &mut Formatter<W>) -> fmt::Result {
        match self {
            Trouble::System(error) => write!(f, "{error}"),
            Trouble::NoWait => f.write_str(
                "it is set not to block, and the call would have waited",
            ),
            Trouble::InUse => f.write_str("in use by another process"),
            Trouble::NotOpen => f.write_str("not open"),
            Trouble::Standard => f.write_str("it would be opened as a standard stream"),
            Trouble::Folder(error) => write!(f, "its folder: {error}"),
            Trouble::TooSmall { needs, has } => {
                write!(f, "the disk needs {needs} bytes, and the device has {has}")
            }
            Trouble::PastEnd => f.write_str("the device ends before a sector of the image"),
            Trouble::Output => f.write_str("standard output goes into it; nothing was written"),
            Trouble::NoDisk => f.write_str(
                "it holds something that is no disk; nothing was written; --overwrite before the image lets it be lost",
            ),
            Trouble::NoRecovery => f.write_str(
                "it needs a recovery, and is opened to be read alone",
            ),
            Trouble::Dangling => f.write_str("it is a link to a file that isn't there"),
            Trouble::WentOn => f.write_str(
                "it went on alone when the other image failed, and has later answers; nothing was written",
            ),
            Trouble::Mark(error) => write!(f, "the mark that it went on alone: {error}"),
            Trouble::Declined => f.write_str("it was left as it is"),
        }
    }
}
