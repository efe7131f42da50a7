//! The capabilities of the largest disk, loaded.

ghost use Rattle.image_layout.specs.Header.{IsVersion};

use cap_store::{CapStore, LoadFault};
use image_device::MemStation;
use image_layout::Header;
use std::alloc::Global;
use std::process::Abort;
use std::test::Fail;
use tsd_model::{Geometry, lawful};

/// The largest disk.
const LARGE: Geometry = Geometry {
    sectors: 1,
    blocks: 1_048_576,
    primaries: 16,
    slots: 4_194_304,
};

/// The version of the largest disk's store.
fn version_of_large(
    rt: &impl Abort,
    alloc: Global,
    station: &mut MemStation,
    version: u32,
) -> Result<u32, LoadFault>
    requires { IsVersion version }
{
    assert!(rt; lawful(&LARGE));
    let header = Header {
        version,
        geometry: LARGE,
    };
    let store = CapStore::load(alloc, station, &header)?;
    Ok(store.version())
}

#[test]
fn the_largest_disk_has_each_sector_read_once(rt: HostRuntime) -> Result<(), Fail> {
    let alloc = rt.alloc();
    for (version, reads) in [(1, 1), (2, 2)] {
        let mut station = MemStation::new(alloc, Vec::new(alloc));
        let found = version_of_large(&rt, alloc, &mut station, version);
        assert_eq!(rt; found, Ok(version));
        assert_eq!(rt; (station.calls(), station.write_calls()), (reads, 0));
    }
    Ok(())
}
