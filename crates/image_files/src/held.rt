//! Sectors of a file in memory.

ghost use Rattle.std.specs.Prelude.{◌≡◌, ℕ, ◌+◌, ◌*◌, ◌<◌, ◌≤◌, true, false, length, take, IfSome, None, OnOk};
ghost use Rattle.std.specs.Vec.{vec_len};
ghost use Rattle.image_files.specs.Bytes.{IsPart, IsWritten};

use crate::sectors::{SECTOR, Sectors};
use crate::trouble::Trouble;
use std::alloc::Global;

/// How many sectors are held at most.
pub const MOST: usize = 128;

/// Sectors of a file that follow one another: read before they were asked for, or to be written.
#[derive(Drop)]
pub struct Held {
    /// Room for the bytes of 128 sectors, or none where there was no memory for it.
    room: Vec<u8>,

    /// The first sector that is held.
    first: u32,

    /// How many sectors are held.
    count: usize,

    ghost fits: { 512 * count ≤ vec_len room },
}

impl Held {
    ghost use Rattle.image_files.specs.Held.{Holds, IsOutside, IsPlace, overlaid};

    /// Nothing is held.
    pub fn none(alloc: Global) -> Held
        ensures holds { (content : ℕ → ℕ) → Holds result content }
        ensures empty { result.count ≡ 0 }
    {
        let room = match vec![in alloc; 0; SECTOR * MOST] {
            Ok(zeros) => zeros,
            Err(_) => Vec::new(alloc),
        };
        Held {
            room,
            first: 0,
            count: 0,
        }
    }

    /// Forgets what is held.
    pub fn forget(&mut self)
        ensures holds { (content : ℕ → ℕ) → Holds self.new content }
        ensures empty { self.new.count ≡ 0 }
    {
        self.count = 0;
    }

    /// Whether nothing is held.
    pub fn is_empty(&self) -> bool
        ensures { result ≡ true → self.now.count ≡ 0 }
    {
        self.count == 0
    }

    /// The first sector, where one is held.
    pub fn first(&self) -> u32
        ensures { result ≡ self.now.first }
    {
        self.first
    }

    /// The bytes of the sectors.
    pub fn bytes(&self) -> &[u8]
        ensures { result.now ≡ take (self.now.count * 512) self.now.room.items }
    {
        &self.room[..self.count * SECTOR]
    }

    /// Where the bytes of a sector stand, if it is held.
    fn place(&self, sector: u32) -> Option<usize>
        ensures held { IfSome result (λ at. IsPlace self.now sector at) }
        ensures outside { result ≡ None → IsOutside self.now sector }
    {
        let position = sector.checked_sub(self.first)? as usize;
        if position < self.count {
            Some(position * SECTOR)
        } else {
            None
        }
    }

    /// Whether a sector is held.
    pub fn has(&self, sector: u32) -> bool {
        self.place(sector).is_some()
    }

    /// Copies a sector, if it is held.
    pub fn copy(&self, sector: u32, into: &mut [u8; 512]) -> bool
        ensures bytes { (content : ℕ → ℕ) → Holds self.now content → result ≡ true
            → IsPart content (512 * sector) into.new }
        ensures kept { result ≡ false → into.new ≡ into.old }
    {
        match self.place(sector) {
            Some(at) => {
                into.copy_from_slice(&self.room[at..at + SECTOR]);
                true
            }
            None => false,
        }
    }

    /// Notes that these bytes were written to a sector: where it is held, it has them.
    pub fn renew(&mut self, sector: u32, from: &[u8; 512])
        ensures { (old new : ℕ → ℕ) → Holds self.old old → IsWritten (512 * sector) from.now old new
            → Holds self.new new }
    {
        if let Some(at) = self.place(sector) {
            self.room[at..at + SECTOR].copy_from_slice(from);
        }
    }

    /// Takes whole sectors, from this one on, where they lie among those that are held or go on behind them, or where
    /// nothing is held; and where there is room for them. Tells whether it took them.
    pub fn put(&mut self, sector: u32, from: &[u8]) -> bool
        ensures taken { (content : ℕ → ℕ) → result ≡ true → IsWritten (512 * sector) from.now
            (overlaid self.old content) (overlaid self.new content) }
        ensures kept { result ≡ false → self.new ≡ self.old }
    {
        let first = if self.count == 0 { sector } else { self.first };
        let Some(position) = sector.checked_sub(first) else {
            return false;
        };
        let (position, sectors) = (position as usize, from.len() / SECTOR);
        let room = (self.room.len() / SECTOR).saturating_sub(position);
        if sectors * SECTOR != from.len() || position > self.count || sectors > room {
            return false;
        }
        let at = position * SECTOR;
        self.room[at..at + from.len()].copy_from_slice(from);
        self.first = first;
        self.count = self.count.max(position + sectors);
        true
    }

    /// Lays the sectors over what was read of a file from this sector on.
    pub fn lay_over(&self, sector: u32, room: &mut [u8])
        ensures { (content : ℕ → ℕ) → IsPart content (512 * sector) room.old
            → IsPart (overlaid self.now content) (512 * sector) room.new }
    {
        let (start, first) = (sector as usize * SECTOR, self.first as usize * SECTOR);
        let (passed, at) = (start.saturating_sub(first), first.saturating_sub(start));
        let left = (self.count * SECTOR).saturating_sub(passed);
        let count = room.len().saturating_sub(at).min(left);
        if count > 0 {
            room[at..at + count].copy_from_slice(&self.room[passed..passed + count]);
        }
    }

    /// Reads so many sectors from this one on, as far as there is room. Where that fails nothing is held: nobody asked
    /// for the sectors behind it.
    pub fn fill<F: Sectors>(&mut self, file: &mut F, sector: u32, count: usize)
        ensures holds { F.told → Holds self.new (F.content file.old) }
        ensures rests { F.told → F.content file.new ≡ F.content file.old }
    {
        self.count = 0;
        let count = count.min(self.room.len() / SECTOR);
        let done = read_front(file, sector, self.room.as_mut_slice(), count * SECTOR);
        match done {
            Ok(()) => {
                self.first = sector;
                self.count = count;
            }
            Err(_) => {}
        }
    }
}

/// Reads so many bytes of a file, from a sector on, into the front of a room.
fn read_front<F: Sectors>(
    file: &mut F,
    sector: u32,
    room: &mut [u8],
    bytes: usize,
) -> Result<(), Trouble>
    requires { bytes ≤ length room.old }
    ensures bytes { F.told → OnOk result (IsPart (F.content file.old) (512 * sector) (take bytes room.new)) }
    ensures rests { F.told → F.content file.new ≡ F.content file.old }
{
    file.read(sector, &mut room[..bytes])
}
