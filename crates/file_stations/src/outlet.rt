//! An output, and what failed of it.

ghost use Rattle.std.specs.Prelude.{◌≡◌, ◌<◌, ◌≤◌, length, IfOk};
ghost use Rattle.std.specs.Io.{WritesAtMost};
ghost use Rattle.image_device.specs.Counts.{CountsFault};

use crate::file_side::note;
use image_device::Failed;
use image_files::Trouble;
use std::io::{self, ErrorKind, Write};

/// An output that keeps nothing back: what a write to it took was sent. It counts the puts that failed, up to the
/// greatest `u64`.
#[derive(Drop)]
pub struct Outlet<O> {
    output: O,
    trouble: Option<Trouble>,

    /// Why nothing more is sent, where that is so.
    closed: Option<Trouble>,

    pub(crate) faults: u64,
}

impl<O> Outlet<O> {
    /// Nothing was sent.
    pub fn new(output: O) -> Outlet<O>
        ensures { result.faults ≡ 0 }
    {
        Outlet {
            output,
            trouble: None,
            closed: None,
            faults: 0,
        }
    }

    /// Why the first put failed that did.
    pub fn trouble(&self) -> Option<Trouble> {
        self.trouble
    }

    /// Sends nothing more: each put fails from now on.
    pub fn close(&mut self, trouble: Trouble)
        ensures { self.new.faults ≡ self.old.faults }
    {
        self.closed = Some(trouble);
    }
}

impl<O: Write> Outlet<O> {
    /// Sends a front of a piece. What the output took was sent, whatever comes after: so nothing is flushed, and no
    /// front that was sent is told as a fault.
    pub fn put(&mut self, piece: &[u8]) -> Result<usize, Failed>
        requires { 0 < length piece.now }
        ensures some { IfOk result (λ count. (0 < count) × (count ≤ length piece.now)) }
        ensures faults { CountsFault result self.old.faults self.new.faults }
        ensures later { self.old.faults ≤ self.new.faults }
    {
        let trouble = match self.closed {
            Some(trouble) => trouble,
            None => match send(&mut self.output, piece) {
                Ok(count) if count != 0 => return Ok(count),
                Ok(_) => Trouble::from(io::Error::from(ErrorKind::WriteZero)),
                Err(error) => Trouble::from(error),
            },
        };
        note(&mut self.trouble, trouble);
        self.faults = self.faults.saturating_add(1);
        Err(Failed)
    }
}

/// Sends a front of a piece, which is none only where the output takes nothing. A write that a signal interrupts is
/// made again.
fn send<O: Write>(output: &mut O, piece: &[u8]) -> io::Result<usize>
    ensures { WritesAtMost result piece.now }
{
    for _ in 0..u64::MAX {
        match output.write(piece) {
            Err(error) if error.kind() == ErrorKind::Interrupted => {}
            other => return other,
        }
    }
    Err(io::Error::from(ErrorKind::Interrupted))
}
