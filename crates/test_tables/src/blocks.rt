//! Maps that are loaded, how often a choice asks for a rank, and what is chosen of the largest disk.

ghost use Rattle.std.specs.Prelude.{◌≡◌, ◌≤◌};
ghost use Rattle.tsd_model.specs.Geometry.{IsLawful};

use crate::placing::{counting_low, counting_near, near};
use block_alloc::{LiveMap, RunRefusal, Short};
use image_device::MemStation;
use place_policy::Placement;
use std::alloc::Global;
use std::cell::Cell;
use std::process::Abort;
use std::rc::Rc;
use std::test::Fail;
use tsd_model::{Geometry, lawful};

/// The largest disk.
const LARGE: Geometry = Geometry {
    sectors: 8,
    blocks: 1_048_576,
    primaries: 16,
    slots: 4_194_304,
};

/// The greatest hint.
const LAST: u32 = 4_294_967_295;

/// A disk of so many blocks of one sector, with one primary block.
fn disk(blocks: u32) -> Geometry
    requires { (8 ≤ blocks) × (blocks ≤ 1048576) }
    ensures blocks { result.blocks ≡ blocks }
    ensures lawful { IsLawful result }
{
    Geometry {
        sectors: 1,
        blocks,
        primaries: 1,
        slots: 32,
    }
}

/// Sees which blocks are chosen for the least hint, or why none are.
fn see_chosen(
    rt: &impl Abort,
    map: &LiveMap,
    placement: &Placement,
    count: u32,
    wanted: Result<&[u32], Short>,
)
    requires { (1 ≤ count) × (count ≤ 32) }
{
    match map.choose(placement, 0, count) {
        Ok(chosen) => assert_eq!(rt; Ok(chosen.as_slice()), wanted),
        Err(short) => assert_eq!(rt; Err(short), wanted),
    }
}

/// Sees which run is chosen, or why none is.
fn see_run(
    rt: &impl Abort,
    map: &LiveMap,
    placement: &Placement,
    count: u32,
    wanted: Result<u32, RunRefusal>,
)
    requires { (1 ≤ count) × (count ≤ 32) }
{
    assert_eq!(rt; map.choose_run(placement, 0, count), wanted);
}

/// A map of eight blocks of which block 0 is live.
fn small(alloc: Global) -> Result<LiveMap, Fail> {
    let mut station = MemStation::new(alloc, Vec::new(alloc));
    let mut map = LiveMap::load(alloc, &mut station, &disk(8))?;
    if 0 < map.geometry().blocks {
        map.set_live(0);
    }
    Ok(map)
}

/// Sees how often a rank is asked for where blocks 1 to 7 are free.
fn see_asked(rt: &impl Abort, fresh: &LiveMap, placement: &Placement, calls: &Cell<u32>) {
    see_chosen(rt, fresh, placement, 3, Ok(&[1, 2, 3]));
    let chosen = calls.get();
    calls.set(0);
    see_run(rt, fresh, placement, 2, Ok(1));
    assert_eq!(rt; (chosen, calls.get()), (7, 6));
}

/// The same, by a placement that counts.
fn count_asked(rt: &impl Abort, alloc: Global, fresh: &LiveMap) -> Result<(), Fail> {
    let calls = Rc::new(alloc, Cell::new(0u32))?;
    let placement = counting_near(alloc, calls.clone()?)?;
    see_asked(rt, fresh, &placement, &calls);
    Ok(())
}

#[test]
fn choosing_asks_for_each_rank_once(rt: HostRuntime) -> Result<(), Fail> {
    let fresh = small(rt.alloc())?;
    count_asked(&rt, rt.alloc(), &fresh)
}

/// Sees that more blocks than the seven that are free are refused, with no rank asked for.
fn see_too_few(rt: &impl Abort, fresh: &LiveMap, placement: &Placement, calls: &Cell<u32>) {
    see_chosen(rt, fresh, placement, 8, Err(Short { free: 7, wanted: 8 }));
    let short = RunRefusal::Short { free: 7, wanted: 8 };
    see_run(rt, fresh, placement, 8, Err(short));
    assert_eq!(rt; calls.get(), 0);
}

/// The same, by a placement that counts.
fn count_too_few(rt: &impl Abort, alloc: Global, fresh: &LiveMap) -> Result<(), Fail> {
    let calls = Rc::new(alloc, Cell::new(0u32))?;
    let placement = counting_low(alloc, calls.clone()?)?;
    see_too_few(rt, fresh, &placement, &calls);
    Ok(())
}

#[test]
fn too_few_blocks_ask_for_no_rank(rt: HostRuntime) -> Result<(), Fail> {
    let fresh = small(rt.alloc())?;
    count_too_few(&rt, rt.alloc(), &fresh)
}

/// The first of the 32 blocks that are chosen for this hint.
fn first_chosen(map: &LiveMap, placement: &Placement, hint: u32) -> Option<u32> {
    let chosen = map.choose(placement, hint, 32).ok()?;
    chosen.as_slice().first().copied()
}

/// Sees what is chosen of the largest disk's blocks, which are all free.
fn see_large(rt: &impl Abort, map: &LiveMap, placement: &Placement) {
    let found = (
        map.free_count(),
        first_chosen(map, placement, 1_000_000),
        map.choose_run(placement, LAST, 32),
        map.has_run(32),
    );
    let wanted = (1_048_576, Some(1_000_000), Ok(1_048_544), true);
    assert_eq!(rt; found, wanted);
}

/// Loads the largest disk, and sees that.
fn load_large(rt: &impl Abort, alloc: Global, placement: &Placement) -> Result<(), Fail> {
    assert!(rt; lawful(&LARGE));
    let mut station = MemStation::new(alloc, Vec::new(alloc));
    let map = LiveMap::load(alloc, &mut station, &LARGE)?;
    assert_eq!(rt; (station.calls(), station.write_calls()), (256, 0));
    see_large(rt, &map, placement);
    Ok(())
}

#[test]
fn the_largest_disk(rt: HostRuntime) -> Result<(), Fail> {
    let placement = near(rt.alloc())?;
    load_large(&rt, rt.alloc(), &placement)
}
