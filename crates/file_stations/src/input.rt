//! Standard input as a source.

ghost use Rattle.std.specs.Prelude.{[]};
ghost use Rattle.std.specs.Io.{ReadsAtMost};

use image_device::{Failed, Source};
use image_files::Trouble;
use std::io::{self, ErrorKind, Read};

/// The most bytes that one take asks for.
const PIECE_MAX: usize = 65_536;

/// Standard input, or another reader. It tells nothing of its bytes: what a system gives, no clause can say.
#[derive(Drop)]
pub struct InputSource<R> {
    input: R,
    /// What was read last: a read may leave anything in all of its room, so it gets a room of its own.
    piece: [u8; PIECE_MAX],
    ended: bool,
    ends: u64,
    faults: u64,
    trouble: Option<Trouble>,
}

impl<R> InputSource<R> {
    /// A source of what this reader gives.
    pub fn new(input: R) -> InputSource<R> {
        InputSource {
            input,
            piece: [0; PIECE_MAX],
            ended: false,
            ends: 0,
            faults: 0,
            trouble: None,
        }
    }

    /// Why the last take failed that did.
    pub fn trouble(&self) -> Option<Trouble> {
        self.trouble
    }
}

/// Reads once. A read that a signal interrupts is made again.
fn read_some<R: Read>(input: &mut R, room: &mut [u8]) -> io::Result<usize>
    ensures { ReadsAtMost result room.new }
{
    for _ in 0..u64::MAX {
        match input.read(room) {
            Err(error) if error.kind() == ErrorKind::Interrupted => {}
            other => return other,
        }
    }
    Err(io::Error::from(ErrorKind::Interrupted))
}

impl<R: Read> Source for InputSource<R> {
    ghost use Rattle.image_device.specs.Counts.{Rose};
    ghost use Rattle.std.specs.Prelude.{◌≡◌, ◌≤◌, ◌++◌, ◌↔◌, [], true, length, take, IfOk, OnErr};

    ghost told = { ⊥ };

    ghost left_bytes = { λ s. [] };

    ghost taken = { λ s. [] };

    ghost ended = { λ s. s.ended ≡ true };

    ghost ends = { λ s. s.ends };

    ghost faults = { λ s. s.faults };

    fn take(&mut self, into: &mut [u8]) -> Result<usize, Failed> {
        if self.ended {
            self.ends = self.ends.saturating_add(1);
            return Ok(0);
        }
        let most = into.len().min(PIECE_MAX);
        let room = self.piece.as_mut_slice();
        match read_some(&mut self.input, &mut room[..most]) {
            Ok(count) => {
                into[..count].copy_from_slice(&self.piece[..count]);
                if count == 0 {
                    self.ended = true;
                    self.ends = self.ends.saturating_add(1);
                }
                Ok(count)
            }
            Err(error) => {
                self.trouble = Some(Trouble::from(error));
                self.faults = self.faults.saturating_add(1);
                Err(Failed)
            }
        }
    }
}
