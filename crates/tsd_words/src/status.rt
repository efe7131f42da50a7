//! How a run ends.

ghost use Rattle.std.specs.Prelude.{◌≡◌, ◌≢◌, ◌<◌, ◌∷◌, ◌++◌, [], length};
ghost use Rattle.tsd_words.specs.StatusText.{status_code, status_text};

use crate::image_text::put_fault;
use image_layout::ImageFault;
use script_text::OutBuf;
use script_text::parse::LINE_MAX;
use tsd_model::Level;

/// Why a run ended.
#[derive(Clone, Copy, Debug, PartialEq, Eq)]
pub enum Status {
    /// The input was read to its end, and all replies were sent.
    Done,

    /// The words are no command. Nothing was called.
    Usage,

    /// The image stands for no world.
    NotImage(ImageFault),

    /// The device failed.
    DeviceFault,

    /// A take failed.
    SourceFault,

    /// A put failed.
    PutFault,

    /// More bytes came than a run serves.
    TooLong,

    /// No memory was found.
    NoMemory,

    /// The input ended inside a frame.
    Truncated,

    /// The capability shown attains only this level at the root.
    RootDenied(Level),
}

impl Status {
    /// The exit code: 0 where all was done, else 2 to 10.
    pub fn code(&self) -> u8
        ensures { result ≡ status_code self.now }
    {
        match self {
            Status::Done => 0,
            Status::Usage => 2,
            Status::NotImage(_) => 3,
            Status::DeviceFault => 4,
            Status::SourceFault => 5,
            Status::PutFault => 6,
            Status::TooLong => 7,
            Status::NoMemory => 8,
            Status::Truncated => 9,
            Status::RootDenied(_) => 10,
        }
    }
}

/// Replaces the bytes by the text of a status and a line feed. A run that is done has no text.
pub fn status_line(status: &Status, into: &mut OutBuf)
    requires { status.now ≢ Status.Done }
    /// promise: The line of the status.
    ensures { into.new ≡ status_text status.now ++ 10 ∷ [] }
{
    into.clear();
    put_status(into, status);
    into.put(b"\n".as_slice());
}

/// The text of a status.
fn put_status(into: &mut OutBuf, status: &Status)
    requires { into.old ≡ [] }
    ensures text { into.new ≡ status_text status.now }
    ensures room { length into.new < LINE_MAX }
{
    match status {
        Status::Done => {}
        Status::Usage => into.put(b"tsd: usage".as_slice()),
        Status::NotImage(fault) => {
            into.put(b"tsd: not an image: ".as_slice());
            put_fault(into, fault);
        }
        Status::DeviceFault => into.put(b"tsd: device fault".as_slice()),
        Status::SourceFault => into.put(b"tsd: input fault".as_slice()),
        Status::PutFault => into.put(b"tsd: output fault".as_slice()),
        Status::TooLong => into.put(b"tsd: input too long".as_slice()),
        Status::NoMemory => into.put(b"tsd: no memory".as_slice()),
        Status::Truncated => into.put(b"tsd: input ends inside a frame".as_slice()),
        Status::RootDenied(level) => put_denied(into, *level),
    }
}

/// That a level isn't enough at the root.
fn put_denied(into: &mut OutBuf, level: Level)
    requires { into.old ≡ [] }
    ensures text { into.new ≡ status_text (Status.RootDenied level) }
    ensures room { length into.new < LINE_MAX }
{
    into.put(b"tsd: root denied, ".as_slice());
    match level {
        Level::Bare => into.put(b"none".as_slice()),
        Level::Read => into.put(b"read".as_slice()),
        Level::Write => into.put(b"write".as_slice()),
    }
    into.put(b" attained".as_slice());
}
