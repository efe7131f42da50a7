//! How a run ended, and what is told of it.

ghost use Rattle.std.specs.Prelude.{◌≡◌, IsOk, IsErr};

use crate::usage::Misread;
use crate::words::WordFault;
use file_stations::tell_image;
use image_files::{Kind, Quoted, Shown, Trouble};
use std::io::Write;
use tsd_serve::{MirrorStatus, Status};

/// How a run ended.
#[derive(Drop)]
pub struct Ended {
    /// Its status.
    pub status: MirrorStatus,

    /// What is told besides.
    pub cause: Cause,
}

/// What is told of how a run ended, besides its status.
#[derive(Drop)]
pub enum Cause {
    /// Nothing.
    Untold,

    /// A call on the image's file failed. Where a write or a sync did, what the image is kept in.
    Image {
        path: String,
        trouble: Trouble,
        unsure: Option<Kind>,
    },

    /// The second image went on alone without the first one, and the first one would be copied over it.
    WentOn {
        first: String,
        second: String,
        mark: String,
    },

    /// The file has fewer bytes than the image that its header tells of.
    CutOff {
        path: String,
        has: u64,
        needs: u64,
    },

    /// Sending failed.
    Output(Trouble),

    /// A word stands for none.
    Word(WordFault),

    /// The words aren't understood.
    Misread(Misread),

    /// These two paths name one file.
    OneFile(String, String),
}

impl Cause {
    /// An image that can't be opened.
    pub fn of_image(path: String, trouble: Trouble) -> Cause {
        Cause::Image {
            path,
            trouble,
            unsure: None,
        }
    }
}

impl Ended {
    /// With a status alone.
    pub fn alone(status: Status) -> Ended
        ensures { result.status ≡ MirrorStatus.Ended status }
    {
        Ended {
            status: MirrorStatus::Ended(status),
            cause: Cause::Untold,
        }
    }

    /// With words that aren't understood.
    pub fn misread(words: Misread) -> Ended
        ensures { result.status ≡ MirrorStatus.Ended Status.Usage }
    {
        Ended {
            status: MirrorStatus::Ended(Status::Usage),
            cause: Cause::Misread(words),
        }
    }

    /// Before an image was opened: each call on it would fail.
    pub fn refused(cause: Cause) -> Ended
        ensures { result.status ≡ MirrorStatus.Ended Status.DeviceFault }
    {
        Ended {
            status: MirrorStatus::Ended(Status::DeviceFault),
            cause,
        }
    }

    /// After a text that was put out, or wasn't.
    pub fn of_text(put: Result<(), Trouble>) -> Ended
        ensures done { IsOk put → result.status ≡ MirrorStatus.Ended Status.Done }
        ensures fault { IsErr put → result.status ≡ MirrorStatus.Ended Status.PutFault }
    {
        match put {
            Ok(()) => Ended::alone(Status::Done),
            Err(trouble) => Ended {
                status: MirrorStatus::Ended(Status::PutFault),
                cause: Cause::Output(trouble),
            },
        }
    }
}

/// Writes what is told besides the status.
pub fn tell_cause<E: Write>(errors: &mut E, cause: &Cause) {
    let _told = match cause {
        Cause::Untold => Ok(()),
        Cause::Output(trouble) => writeln!(errors, "tsd: standard output: {trouble}"),
        Cause::Word(fault) => {
            let word = Shown {
                name: fault.word.as_str(),
            };
            writeln!(errors, "tsd: {word}: {}", fault.trouble)
        }
        Cause::Misread(words) => writeln!(errors, "{words}"),
        Cause::OneFile(first, second) => {
            let (first, second) = (shown(first), shown(second));
            writeln!(errors, "tsd: {first} and {second} are one file")
        }
        Cause::CutOff { path, has, needs } => {
            let (path, less) = (shown(path), needs.saturating_sub(*has));
            writeln!(
                errors,
                "tsd: {path}: the file is {less} bytes shorter than its header says: it has {has} of {needs}"
            )
        }
        Cause::WentOn {
            first,
            second,
            mark,
        } => tell_went_on(errors, first, second, mark),
        Cause::Image {
            path,
            trouble,
            unsure,
        } => tell_image(errors, path.as_str(), trouble, *unsure),
    };
}

/// Writes which image to give first.
fn tell_went_on<E: Write>(
    errors: &mut E,
    first: &String,
    second: &String,
    mark: &String,
) -> std::io::Result<()> {
    let went_on = shown(second);
    writeln!(errors, "tsd: {went_on}: {}", Trouble::WentOn)?;
    let (first, second) = (quoted(first), quoted(second));
    writeln!(
        errors,
        "tsd: {went_on}: give it first, as in tsd mirror {second} {first} check; its mark is {}",
        shown(mark)
    )
}

/// A name in a line.
fn shown(name: &String) -> Shown<'_> {
    Shown {
        name: name.as_str(),
    }
}

/// A name in a command.
fn quoted(name: &String) -> Quoted<'_> {
    Quoted {
        name: name.as_str(),
    }
}
