//! The ranks of blocks, one function for each kind of placement.

ghost use Rattle.std.specs.Prelude.{◌≡◌, ◌+◌, ◌*◌, ◌^◌, slice_index};
ghost use Rattle.tsd_model.specs.Placing.{hint_block};
ghost use Rattle.tsd_model.specs.Rank.{rank_of, zone_of, zones_after};
ghost use Rattle.tsd_model.specs.declared.requests.PlaceKind.TheVariants.{Low, Near, Spread};

use crate::requests::{Hint, PlaceKind};

/// How many zones there are.
pub const ZONES: u32 = 16;

/// How many blocks in a row are of one zone.
pub const ZONE_BLOCKS: u32 = 256;

/// When a zone's turn comes, by how many zones it stands after that of the hint: the hint's own first, then by turns
/// the nearest one before it and the nearest one after it.
pub const ZONE_TURNS: [u8; 16] = [0, 2, 4, 6, 8, 10, 12, 14, 15, 13, 11, 9, 7, 5, 3, 1];

/// The block that a hint names, 0 where it names none.
pub fn hint_block(hint: &Hint) -> u32
    ensures { result ≡ hint_block hint.now }
{
    match hint {
        Hint::Null => 0,
        Hint::At(block) => *block,
    }
}

/// The rank of a block for a hint: the free blocks of least rank are taken first.
pub fn rank(kind: PlaceKind, hint: u32, block: u32) -> u64
    ensures { result ≡ rank_of kind hint block }
{
    match kind {
        PlaceKind::Low => low_rank(hint, block),
        PlaceKind::Near => near_rank(hint, block),
        PlaceKind::Spread => spread_rank(hint, block),
        PlaceKind::Zone => zone_rank(&ZONE_TURNS, hint, block),
    }
}

/// The rank by number.
pub fn low_rank(_hint: u32, block: u32) -> u64
    /// promise: The rank of a block by the placement `low`, for every hint and block.
    ensures { result ≡ rank_of Low _hint block }
{
    u64::from(block)
}

/// The rank by distance from the hint, a block above it before the one that is as far below.
pub fn near_rank(hint: u32, block: u32) -> u64
    /// promise: The rank of a block by the placement `near`, for every hint and block.
    ensures { result ≡ rank_of Near hint block }
{
    2 * u64::from(block.abs_diff(hint)) + u64::from(block < hint)
}

/// The rank upwards from the hint, and round after the greatest `u32`.
pub fn spread_rank(hint: u32, block: u32) -> u64
    /// promise: The rank of a block by the placement `spread`, for every hint and block.
    ensures { result ≡ rank_of Spread hint block }
{
    u64::from(block.wrapping_sub(hint))
}

/// The rank by the turn of the block's zone, and by number in zones of one turn. With `ZONE_TURNS` it is that of the
/// kind `Zone`.
pub fn zone_rank(turns: &[u8; 16], hint: u32, block: u32) -> u64
    /// promise: The rank of a block by the placement `zone`, for every hint and block.
    ensures { result ≡ 2 ^ 32 * slice_index turns.now (zones_after hint block) + block }
{
    let zones_after = (zone_of(block) + ZONES - zone_of(hint)) % ZONES;
    (u64::from(turns[zones_after as usize]) << 32) + u64::from(block)
}

/// The zone of a block: 256 blocks in a row are of one, and after the sixteenth the first comes again.
fn zone_of(block: u32) -> u32
    ensures { result ≡ zone_of block }
{
    block / ZONE_BLOCKS % ZONES
}
