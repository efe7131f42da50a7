//! An image in memory, with room for replies.

ghost use Rattle.std.specs.Prelude.{◌≡◌, ◌≤◌, length};

use image_device::{Device, Failed, Port};

/// The byte that asks the host for a sync.
const ASK: [u8; 1] = *b"S";

/// The byte by which the host says that all that was written is on the medium.
const SYNCED: u8 = 1;

/// How often an answer is waited for: a signal's handler ends a wait without one, and a closed descriptor each wait.
const WAITS: u32 = 1_000_000;

/// An image in memory that a host has mapped from a file, and room in memory for replies. It counts the calls that
/// failed, each count up to the greatest `u64`.
#[derive(Drop)]
pub struct MapStation<'a> {
    image: &'a mut [u8],
    /// Where a sync is asked for, and where it is answered.
    ask: i32,
    answer: i32,
    room: &'a mut [u8],
    filled: usize,
    faults: u64,
    put_faults: u64,
    writes: u64,
    ghost within: { filled ≤ length room.now },
}

impl<'a> MapStation<'a> {
    /// An image, of whose replies none is in the room yet. A sync is asked for by a byte to `ask`, and done when a
    /// byte 1 comes from `answer`.
    pub fn new(image: &'a mut [u8], ask: i32, answer: i32, room: &'a mut [u8]) -> MapStation<'a>
        ensures filled { result.filled ≡ 0 }
        ensures room { length result.room.now ≡ length room.old }
        ensures faults { result.faults ≡ 0 }
        ensures put_faults { result.put_faults ≡ 0 }
        ensures writes { result.writes ≡ 0 }
    {
        MapStation {
            image,
            ask,
            answer,
            room,
            filled: 0,
            faults: 0,
            put_faults: 0,
            writes: 0,
        }
    }

    /// How many bytes of replies the room holds, at its front.
    pub fn filled(&self) -> usize
        ensures value { result ≡ self.now.filled }
        /// promise: No more bytes of replies are told of than there is room.
        ensures within { result ≤ length self.now.room.now }
    {
        self.filled
    }
}

impl<'a> Device for MapStation<'a> {
    ghost use Rattle.image_device.specs.Counts.{Rose};
    ghost use Rattle.image_device.specs.View.{View, untold};
    ghost use Rattle.image_device.specs.Calls.{Uses};
    ghost use Rattle.std.specs.Prelude.{◌≡◌, ◌≤◌, OnOk, OnErr};

    ghost told = { ⊥ };

    ghost view = { λ s. untold s.faults s.put_faults s.writes };

    ghost sound = { λ s told. absurd told };

    /// What is behind the memory reads as zeros.
    fn read(&mut self, sector: u32, into: &mut [u8; 512]) -> Result<(), Failed> {
        let at = sector as usize * 512;
        match self.image.get(at..at + 512) {
            Some(bytes) => into.copy_from_slice(bytes),
            None => *into = [0; 512],
        }
        Ok(())
    }

    /// Behind the memory nothing can be written: that is a fault.
    fn write(&mut self, sector: u32, from: &[u8; 512]) -> Result<(), Failed> {
        self.writes = self.writes.saturating_add(1);
        let at = sector as usize * 512;
        if at + 512 > self.image.len() {
            self.faults = self.faults.saturating_add(1);
            return Err(Failed);
        }
        self.image[at..at + 512].copy_from_slice(from.as_slice());
        Ok(())
    }

    fn sync(&mut self) -> Result<(), Failed> {
        let is_asked = io::write_all(self.ask, ASK.as_slice());
        if !is_asked || byte_from(self.answer) != Some(SYNCED) {
            self.faults = self.faults.saturating_add(1);
            return Err(Failed);
        }
        Ok(())
    }
}

impl<'a> Port for MapStation<'a> {
    ghost use Rattle.image_device.specs.Counts.{Rose};
    ghost use Rattle.image_device.specs.Calls.{Puts};
    ghost use Rattle.std.specs.Prelude.{◌≡◌, ◌<◌, ◌≤◌, length, IfOk, OnOk, OnErr};

    fn put(&mut self, piece: &[u8]) -> Result<usize, Failed> {
        if piece.len() > self.room.len() - self.filled {
            self.put_faults = self.put_faults.saturating_add(1);
            return Err(Failed);
        }
        let end = self.filled + piece.len();
        self.room[self.filled..end].copy_from_slice(piece);
        self.filled = end;
        Ok(piece.len())
    }
}

/// The next byte of a descriptor, or none where none came.
fn byte_from(answer: i32) -> Option<u8> {
    let mut byte = [0u8; 1];
    for _ in 0..WAITS {
        if io::read_full(answer, &mut byte) == 1 {
            return Some(byte[0]);
        }
    }
    None
}
