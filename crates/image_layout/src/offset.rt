//! Offsets on an image, and sectors on their way to the disk.

ghost use Rattle.std.specs.Prelude.{◌≡◌, ◌^◌};
ghost use Rattle.image_layout.specs.Offsets.{bit_of};

use crate::sectors::SECTOR_BYTES;

/// Where something begins on an image.
#[derive(Clone, Copy, Debug, PartialEq, Eq)]
pub struct Offset {
    /// The sector, from 0.
    pub sector: u32,

    /// The byte in it, from 0.
    pub byte: u32,
}

/// The bytes that a sector is to have.
#[derive(Clone, Copy, Debug, PartialEq, Eq)]
pub struct Patch {
    /// The sector, from 0.
    pub sector: u32,

    /// All of its bytes.
    pub bytes: [u8; SECTOR_BYTES],
}

/// The bit of a block in the bitmap's byte at `Layout::bit_offset`: the lowest for block 0.
pub fn bit_mask(block: u32) -> u8
    ensures { result ≡ 2 ^ bit_of block }
{
    1 << (block % u8::BITS)
}
