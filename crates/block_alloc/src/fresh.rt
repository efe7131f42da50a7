//! The bitmap of a fresh disk, in which the primary blocks are live and all others are free.

ghost use Rattle.std.specs.Prelude.{◌≡◌, ℕ, ◌-◌, ◌<◌, ◌≤◌, ◌≢◌, Bool, true, List, length};
ghost use Rattle.std.specs.Prelude.{nat_lt, slice_index};
ghost use Rattle.image_device.specs.Image.{Image};
ghost use Rattle.block_alloc.specs.Bytes.{bit_in, bitmap_sector_bytes};
ghost use Rattle.block_alloc.specs.Fresh.{fresh_live};
ghost use Rattle.block_alloc.specs.LiveMap.{IsTable, is_live, free_count};
ghost use Rattle.block_alloc.specs.Stored.{AreWritten, IsStored};
ghost use Rattle.tsd_model.specs.Geometry.{IsLawful};
ghost use Rattle.tsd_model.specs.declared.geometry.Geometry.{Geometry};

use crate::bits::{BYTE_BITS, with_bit};
use image_layout::sectors::SECTOR_BYTES;
use tsd_model::Geometry;

/// Makes a bit of a sector 1.
fn set_bit(sector: &mut [u8; SECTOR_BYTES], bit: u32)
    requires { bit < 4096 }
    ensures same { bit_in sector.new bit ≡ true }
    ensures others { (b : ℕ) → b ≢ bit → bit_in sector.new b ≡ bit_in sector.old b }
    ensures fits { (i : ℕ) → slice_index sector.new i < 256 }
{
    let byte_index = (bit / BYTE_BITS) as usize;
    sector[byte_index] = with_bit(sector[byte_index], bit, true);
}

/// A sector whose first so many bits are 1.
fn first_bits(count: u32) -> [u8; SECTOR_BYTES]
    requires { count ≤ 4096 }
    ensures bits { (b : ℕ) → bit_in result b ≡ nat_lt b count }
    ensures size { length result ≡ SECTOR_BYTES }
    ensures fits { (i : ℕ) → slice_index result i < 256 }
{
    let mut sector = [0; SECTOR_BYTES];
    for bit in 0..count {
        set_bit(&mut sector, bit);
    }
    sector
}

/// A sector of the bitmap of a fresh disk, counted from the first such sector.
pub fn fresh_sector(geometry: &Geometry, part: u32) -> [u8; SECTOR_BYTES]
    requires { IsLawful geometry.now }
    /// promise: The sector of a fresh disk.
    ensures { result ≡ bitmap_sector_bytes (fresh_live geometry.now) part }
{
    first_bits(if part == 0 { geometry.primaries } else { 0 })
}

/// An image whose bitmap is written as that of a map has the bits of that map. The blocks of a fresh disk are a map, in
/// which the primary blocks are live and all others are free.
pub fn written_sectors_have_the_bits()
    /// promise: An image whose sectors stand as a map writes them has that map.
    ensures stored { (live : List Bool) (g : Geometry) (x : Image) → AreWritten live g x → IsStored live g x }
    ensures fresh { (g : Geometry) → IsLawful g
        → IsTable (record { geometry = g; live = fresh_live g; unhidden = fresh_live g }) }
    ensures live { (g : Geometry) (b : ℕ) → is_live (fresh_live g) b ≡ nat_lt b g.primaries }
    ensures free { (g : Geometry) → free_count (fresh_live g) ≡ g.blocks - g.primaries }
{}
