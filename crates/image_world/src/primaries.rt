//! The test of primary blocks: all of them are live.

ghost use Rattle.std.specs.Prelude.{MatchOption};
ghost use Rattle.block_alloc.specs.Stored.{IsStored};
ghost use Rattle.image_layout.specs.Image.{Image};
ghost use Rattle.image_world.specs.Tests.{PrimariesLive};
ghost use Rattle.image_world.specs.Faults.{IsLeastPrimary};

use block_alloc::LiveMap;

/// The least primary block that isn't live.
pub(crate) fn least_free_primary(live: &LiveMap) -> Option<u32>
    ensures { MatchOption result (PrimariesLive live.now)
        (λ b. (x : Image) → IsStored live.now.live live.now.geometry x → IsLeastPrimary x live.now.geometry b) }
{
    for block in 0..live.geometry().primaries {
        if !live.raw_live(block) {
            return Some(block);
        }
    }
    None
}
