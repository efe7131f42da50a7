//! Where the things of an image stand, by its geometry.
//!
//! | sectors | content |
//! |---|---|
//! | 0 | header |
//! | 1 | format gate |
//! | 2 to 130 | journal |
//! | 131 | sweep flag |
//! | 132, 133 | capabilities of the primary blocks, or their digests |
//! | from 134 | counts: four bytes a block |
//! | next | bitmap: a bit a block |
//! | next | pointer slots: eight bytes a slot |
//! | next | data: so many sectors a block |

ghost use Rattle.std.specs.Prelude.{◌≡◌, ◌+◌, ◌/◌, ◌^◌, ◌<◌, ◌≤◌};
ghost use Rattle.tsd_model.specs.Geometry.{IsLawful};
ghost use Rattle.image_layout.specs.Areas.{bitmap_start, slots_start, data_start, total};
ghost use Rattle.image_layout.specs.Lawful.{IsLawful-prop};
ghost use Rattle.image_layout.specs.Offsets.{byte_in, count_offset, bit_offset, slot_offset, cap_offset, digest_offset};
ghost use Rattle.image_layout.specs.Offsets.{data_sector};

use crate::offset::Offset;
use crate::sectors::{CAPS_START, COUNTS_START, MOST_SECTORS, SECTOR_BYTES};
use tsd_model::Geometry;

/// The bytes of a sector, as offsets count them.
const SECTOR_LEN: u32 = 512;

/// The bits of a sector.
const SECTOR_BITS: u32 = 4096;

/// The bytes of a count.
pub const COUNT_BYTES: u32 = 4;

/// The bytes of a pointer slot.
pub const SLOT_BYTES: u32 = 8;

/// The bytes of a capability pair.
pub const CAP_PAIR_BYTES: u32 = 32;

/// The bytes of a pair of digests.
pub const DIGEST_PAIR_BYTES: u32 = 64;

/// The offsets of an image of a lawful geometry.
#[derive(Clone, Copy, Debug)]
pub struct Layout {
    /// The size of the disk.
    pub geometry: Geometry,

    ghost lawful: { IsLawful geometry } by { IsLawful-prop geometry },
}

/// So many bytes into the area that begins with a sector.
fn byte_in(start: u32, bytes: u32) -> Offset
    requires { start + bytes / 512 < 2 ^ 32 }
    ensures { result ≡ byte_in start bytes }
{
    Offset {
        sector: start + bytes / SECTOR_LEN,
        byte: bytes % SECTOR_LEN,
    }
}

impl Layout {
    /// The layout of a geometry.
    pub fn of(geometry: &Geometry) -> Layout
        requires { IsLawful geometry.now }
        ensures { result.geometry ≡ geometry.now }
    {
        Layout {
            geometry: *geometry,
        }
    }

    /// The first sector of the bitmap.
    pub fn bitmap_start(&self) -> u32
        ensures { result ≡ bitmap_start self.now.geometry }
    {
        COUNTS_START + (COUNT_BYTES * self.geometry.blocks).div_ceil(SECTOR_LEN)
    }

    /// The first sector of the pointer slots.
    pub fn slots_start(&self) -> u32
        ensures { result ≡ slots_start self.now.geometry }
    {
        self.bitmap_start() + self.geometry.blocks.div_ceil(SECTOR_BITS)
    }

    /// The first sector of the blocks' data.
    pub fn data_start(&self) -> u32
        ensures { result ≡ data_start self.now.geometry }
    {
        self.slots_start() + (SLOT_BYTES * self.geometry.slots).div_ceil(SECTOR_LEN)
    }

    /// How many sectors the image has.
    pub fn total(&self) -> u32
        /// promise (with most): How many sectors the image has, at most the whole of the largest disk.
        ensures value { result ≡ total self.now.geometry }
        ensures most { result ≤ MOST_SECTORS }
    {
        self.data_start() + self.geometry.sectors * self.geometry.blocks
    }

    /// The offset of a block's count of pointers to it: a number of four bytes.
    pub fn count_offset(&self, block: u32) -> Offset
        requires { block < self.now.geometry.blocks }
        /// promise (with inside, whole): The offset of a block's count, inside its area and within one sector.
        ensures value { result ≡ count_offset self.now.geometry block }
        ensures inside { (COUNTS_START ≤ result.sector) × (result.sector < bitmap_start self.now.geometry) }
        ensures whole { result.byte + COUNT_BYTES ≤ SECTOR_BYTES }
    {
        byte_in(COUNTS_START, COUNT_BYTES * block)
    }

    /// The offset of the bitmap's byte that has a block's bit. `bit_mask` tells which bit it is.
    pub fn bit_offset(&self, block: u32) -> Offset
        requires { block < self.now.geometry.blocks }
        /// promise (with inside): The offset of the byte with a block's bit, inside the bitmap.
        ensures value { result ≡ bit_offset self.now.geometry block }
        ensures inside { (bitmap_start self.now.geometry ≤ result.sector)
            × (result.sector < slots_start self.now.geometry) }
        ensures whole { result.byte < SECTOR_BYTES }
    {
        byte_in(self.bitmap_start(), block / u8::BITS)
    }

    /// The offset of a pointer slot: two numbers of four bytes, one more than the source and the target.
    pub fn slot_offset(&self, slot: u32) -> Offset
        requires { slot < self.now.geometry.slots }
        /// promise (with inside, whole): The offset of a pointer slot, inside its area and within one sector.
        ensures value { result ≡ slot_offset self.now.geometry slot }
        ensures inside { (slots_start self.now.geometry ≤ result.sector)
            × (result.sector < data_start self.now.geometry) }
        ensures whole { result.byte + SLOT_BYTES ≤ SECTOR_BYTES }
    {
        byte_in(self.slots_start(), SLOT_BYTES * slot)
    }

    /// The offset of a primary block's capabilities in version 1: 16 bytes for reading, then 16 for writing.
    pub fn cap_offset(&self, block: u32) -> Offset
        requires { block < self.now.geometry.primaries }
        /// promise (with inside, whole): The offset of a primary block's capabilities in version 1, within their
        /// sector.
        ensures value { result ≡ cap_offset block }
        ensures inside { result.sector ≡ CAPS_START }
        ensures whole { result.byte + CAP_PAIR_BYTES ≤ SECTOR_BYTES }
    {
        byte_in(CAPS_START, CAP_PAIR_BYTES * block)
    }

    /// The offset of a primary block's digests in version 2: 32 bytes for reading, then 32 for writing.
    pub fn digest_offset(&self, block: u32) -> Offset
        requires { block < self.now.geometry.primaries }
        /// promise (with inside, whole): The offset of a primary block's digests in version 2, inside their area and
        /// within one sector.
        ensures value { result ≡ digest_offset block }
        ensures inside { (CAPS_START ≤ result.sector) × (result.sector < COUNTS_START) }
        ensures whole { result.byte + DIGEST_PAIR_BYTES ≤ SECTOR_BYTES }
    {
        byte_in(CAPS_START, DIGEST_PAIR_BYTES * block)
    }

    /// A sector of a block's data, by its part from 0.
    pub fn data_sector(&self, block: u32, part: u32) -> u32
        requires block { block < self.now.geometry.blocks }
        requires part { part < self.now.geometry.sectors }
        /// promise (with inside): A sector of a block's data, inside the area of data and below the total.
        ensures value { result ≡ data_sector self.now.geometry block part }
        ensures inside { (data_start self.now.geometry ≤ result) × (result < total self.now.geometry) }
    {
        self.data_start() + self.geometry.sectors * block + part
    }
}
