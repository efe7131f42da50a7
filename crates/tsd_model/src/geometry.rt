//! How large a disk is.

ghost use Rattle.std.specs.Prelude.{◌↔◌, IsTrue};
ghost use Rattle.tsd_model.specs.Geometry.{IsLawful};

/// The least number of blocks.
pub const MIN_BLOCKS: u32 = 8;

/// The greatest number of blocks.
pub const MAX_BLOCKS: u32 = 1_048_576;

/// The greatest number of primary blocks.
pub const MAX_PRIMARIES: u32 = 16;

/// How many bytes a sector has.
pub const SECTOR_BYTES: usize = 512;

/// The greatest number of pointer slots.
pub const MAX_SLOTS: u32 = 4_194_304;

/// The size of a disk. Not every value is lawful: see `lawful`.
#[derive(Clone, Copy, Debug, PartialEq, Eq)]
pub struct Geometry {
    /// Sectors per block, of 512 bytes each: 1, 2, 4 or 8.
    pub sectors: u32,

    /// Blocks, numbered from 0: 8 to 1,048,576.
    pub blocks: u32,

    /// Primary blocks, which are the first ones: 1 to 16, and fewer than all blocks.
    pub primaries: u32,

    /// The greatest number of pointers that are held: 1 to 4,194,304.
    pub slots: u32,
}

/// Whether a disk may have this size.
pub fn lawful(geometry: &Geometry) -> bool
    /// promise: True exactly for the lawful geometries.
    ensures { IsTrue result ↔ IsLawful geometry.now }
{
    matches!(geometry.sectors, 1 | 2 | 4 | 8)
        && (MIN_BLOCKS..=MAX_BLOCKS).contains(&geometry.blocks)
        && (1..=MAX_PRIMARIES).contains(&geometry.primaries)
        && geometry.primaries < geometry.blocks
        && (1..=MAX_SLOTS).contains(&geometry.slots)
}
