//! The test of ends: both blocks of each pair are live.

ghost use Rattle.std.specs.Prelude.{◌≡◌, ◌<◌};
ghost use Rattle.image_world.specs.Tests.{loose_in, IsLeastLoose};
ghost use Rattle.pointer_table.specs.Scanning.{lesser_pair};
ghost use Rattle.pointer_table.specs.Slots.{slot_at};

use block_alloc::LiveMap;
use pointer_table::PointerTable;

/// The pair of a slot where an end of it isn't live.
fn loose_pair(pointers: &PointerTable, live: &LiveMap, slot: u32) -> Option<(u32, u32)>
    requires size { live.now.geometry ≡ pointers.now.geometry }
    requires inside { slot < pointers.now.geometry.slots }
    ensures { result ≡ loose_in live.now.live (slot_at pointers.now.slots slot) }
{
    match pointers.pair_in(slot) {
        Some((source, target)) if !(live.raw_live(source) && live.raw_live(target)) => {
            Some((source, target))
        }
        _ => None,
    }
}

/// The lesser of the least pair so far and another one.
fn lesser(least: Option<(u32, u32)>, candidate: Option<(u32, u32)>) -> Option<(u32, u32)>
    ensures { result ≡ lesser_pair least candidate }
{
    let Some((source, target)) = candidate else {
        return least;
    };
    match least {
        Some((from, to)) if from < source || from == source && to <= target => Some((from, to)),
        _ => Some((source, target)),
    }
}

/// The least pair with an end that isn't live. It looks once at each slot up to the last that holds a pair.
pub(crate) fn least_loose_pair(pointers: &PointerTable, live: &LiveMap) -> Option<(u32, u32)>
    requires { live.now.geometry ≡ pointers.now.geometry }
    ensures { IsLeastLoose pointers.now.slots live.now.live pointers.now.geometry.slots result }
{
    let mut least = None;
    for slot in 0..pointers.slots_end() {
        least = lesser(least, loose_pair(pointers, live, slot));
    }
    least
}
