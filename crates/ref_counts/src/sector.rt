//! One sector of counts: 128 numbers of four bytes, the lowest byte first.

ghost use Rattle.std.specs.Prelude.{◌≡◌, ℕ, ◌+◌, ◌-◌, ◌*◌, ◌^◌, ◌<◌, ◌≤◌, ◌++◌};
ghost use Rattle.std.specs.Prelude.{length, replicate, slice_index};
ghost use Rattle.std.specs.List.{flat_map};
ghost use Rattle.byteorder.specs.Endian.{little_from, little_bytes};
ghost use Rattle.ref_counts.specs.Stored.{counts_sector_bytes};

use byteorder::{ByteOrder, LittleEndian};
use image_layout::sectors::SECTOR_BYTES;

/// How many bytes a count has.
const COUNT_LEN: usize = 4;

/// How many counts a sector has.
pub(crate) const PER_SECTOR: usize = 128;

const _: () = prove!(PER_SECTOR * COUNT_LEN == SECTOR_BYTES);

/// Takes the first counts of a sector.
pub(crate) fn take_counts(bytes: &[u8; SECTOR_BYTES], counts: &mut [u32])
    requires { length counts.old ≤ 128 }
    ensures { (k : ℕ) → k < length counts.old → slice_index counts.new k ≡ little_from (4 * k) 4 bytes.now }
{
    let len = COUNT_LEN * counts.len();
    LittleEndian::read_u32_into(&bytes[..len], counts);
}

/// The bytes of these counts, and zeros behind them.
fn bytes_of(counts: &[u32]) -> [u8; SECTOR_BYTES]
    requires { length counts.now ≤ 128 }
    ensures { result ≡ flat_map (little_bytes 4) counts.now ++ replicate (512 - 4 * length counts.now) 0 }
{
    let mut bytes = [0; SECTOR_BYTES];
    LittleEndian::write_u32_into(counts, &mut bytes[..COUNT_LEN * counts.len()]);
    bytes
}

/// The bytes of one of the sectors of all counts, by its number from 0.
pub(crate) fn bytes_of_part(counts: &[u32], part: usize) -> [u8; SECTOR_BYTES]
    requires { 128 * part < length counts.now }
    ensures bytes { result ≡ counts_sector_bytes counts.now part }
    ensures fits { (block : ℕ) → slice_index counts.now block < 2 ^ 32 }
{
    let first = PER_SECTOR * part;
    let end = counts.len().min(first + PER_SECTOR);
    bytes_of(&counts[first..end])
}
