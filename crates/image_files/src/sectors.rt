//! Files as rows of sectors.

ghost use Rattle.std.specs.Prelude.{◌≡◌, ℕ, ◌+◌, ◌*◌, ◌/◌, ◌^◌, min, OnOk};
ghost use Rattle.image_files.specs.Bytes.{IsPart, IsWritten};

use crate::trouble::Trouble;

/// The bytes of a sector.
pub const SECTOR: usize = 512;

/// A file of sectors, numbered from 0, which nobody else writes.
pub trait Sectors {
    /// Whether it tells its bytes: a type tells or doesn't.
    ghost told: { Type 0 };

    /// The byte at each offset.
    ghost content: { Self → ℕ → ℕ };

    /// Reads its bytes from a sector on. Where that fails anything may be in the room.
    fn read(&mut self, sector: u32, room: &mut [u8]) -> Result<(), Trouble>
        ensures bytes { told → OnOk result (IsPart (content self.old) (512 * sector) room.new) }
        ensures rests { told → content self.new ≡ content self.old };

    /// Why it takes no write, where it takes none.
    fn refusal(&self) -> Option<Trouble>;

    /// Writes bytes from a sector on, by one call.
    fn write(&mut self, sector: u32, from: &[u8]) -> Result<(), Trouble>
        ensures { told → OnOk result (IsWritten (512 * sector) from.now (content self.old) (content self.new)) };

    /// Has all that was written on the medium.
    fn sync(&mut self) -> Result<(), Trouble>
        ensures { told → OnOk result (content self.new ≡ content self.old) };
}

/// How many sectors so many bytes take, at most 2^32. The last may be a part of one.
pub(crate) fn sectors_of(bytes: u64) -> u64
    ensures { result ≡ min ((bytes + 511) / 512) (2 ^ 32) }
{
    bytes.div_ceil(SECTOR as u64).min(1 << 32)
}
