//! The counts of the largest disk, loaded, changed and loaded again from the station that a patch was written to.

ghost use Rattle.std.specs.Prelude.{◌≡◌, ◌<◌, IfOk};
ghost use Rattle.tsd_model.specs.Geometry.{IsLawful};

use crate::sectors::see_bytes;
use image_device::{Device, Failed, MemStation};
use ref_counts::{LoadFault, RefCounts};
use std::alloc::Global;
use std::process::Abort;
use std::test::Fail;
use tsd_model::{Geometry, lawful};

/// A disk of so many blocks.
fn sized(rt: &impl Abort, blocks: u32) -> Geometry
    ensures blocks { result.blocks ≡ blocks }
    ensures lawful { IsLawful result }
    ensures some { 0 < blocks }
{
    let geometry = Geometry {
        sectors: 1,
        blocks,
        primaries: 1,
        slots: 32,
    };
    assert!(rt; lawful(&geometry));
    geometry
}

/// The table of a disk of so many blocks.
fn load(
    rt: &impl Abort,
    alloc: Global,
    station: &mut MemStation,
    blocks: u32,
) -> Result<RefCounts, LoadFault>
    ensures blocks { IfOk result (λ table. table.geometry.blocks ≡ blocks) }
    ensures some { 0 < blocks }
{
    let geometry = sized(rt, blocks);
    let table = RefCounts::load(alloc, station, &geometry)?;
    Ok(table)
}

/// Raises a count where that may be, and writes the patch of its sector.
fn raise(
    station: &mut MemStation,
    table: &mut RefCounts,
    blocks: u32,
    block: u32,
) -> Result<(), Failed>
    requires size { table.old.geometry.blocks ≡ blocks }
    requires inside { block < blocks }
    ensures { table.new.geometry ≡ table.old.geometry }
{
    let count = table.count(block);
    if count < blocks {
        table.raise(block);
    }
    let patch = table.patch(block);
    station.write(patch.sector, &patch.bytes)
}

/// Raises the last count of the largest disk, whose sectors were read once each.
fn raise_last(rt: &impl Abort, station: &mut MemStation, table: &mut RefCounts) -> Result<(), Fail>
    requires { table.old.geometry.blocks ≡ 1048576 }
{
    let calls = (station.calls(), station.write_calls());
    assert_eq!(rt; calls, (8_192, 0));
    let counts = (table.count(0), table.count(1_048_575));
    assert_eq!(rt; counts, (0, 0));
    raise(station, table, 1_048_576, 1_048_575)?;
    let patch = table.patch(1_048_575);
    assert_eq!(rt; patch.sector, 8_325);
    see_bytes(rt, &patch.bytes, 508, &[1, 0, 0, 0]);
    Ok(())
}

/// Loads that disk, and raises its last count.
fn load_and_raise_last(
    rt: &impl Abort,
    alloc: Global,
    station: &mut MemStation,
) -> Result<(), Fail> {
    let mut table = load(rt, alloc, station, 1_048_576)?;
    raise_last(rt, station, &mut table)
}

/// The last two counts of the largest disk.
fn last_counts(
    rt: &impl Abort,
    alloc: Global,
    station: &mut MemStation,
) -> Result<(u32, u32), LoadFault> {
    let table = load(rt, alloc, station, 1_048_576)?;
    Ok((table.count(1_048_574), table.count(1_048_575)))
}

#[test]
fn the_largest_disk_reads_each_sector_once(rt: HostRuntime) -> Result<(), Fail> {
    let alloc = rt.alloc();
    let mut station = MemStation::new(alloc, Vec::new(alloc));
    load_and_raise_last(&rt, alloc, &mut station)?;
    assert_eq!(rt; last_counts(&rt, alloc, &mut station), Ok((0, 1)));
    Ok(())
}
