//! How often is written, and what a ring tells of its records.

use super::steps::{ONE, Step, commit_all, filled, filled_over, open};
use image_device::MemStation;
use intent_journal::{Batch, Ring};
use std::test::Fail;

#[test]
fn a_commit_writes_its_homes_and_two_sectors(rt: HostRuntime) -> Result<(), Fail> {
    let alloc = rt.alloc();
    for (homes, writes) in [(0, 0), (1, 3), (2, 4), (113, 115)] {
        let mut station = MemStation::new(alloc, Vec::new(alloc));
        let mut ring = Ring::new(alloc)?;
        let mut batch = Batch::new(alloc)?;
        open(&mut station, &mut ring)?;
        let step = Step {
            first: 140,
            end: 140 + homes,
            fill: 9,
        };
        commit_all(&mut station, &mut ring, &mut batch, &[step])?;
        assert_eq!(rt; station.write_calls(), writes, "{homes} homes");
        assert_eq!(rt; ring.bodies(), homes);
        assert_eq!(rt; ring.holds(140), homes > 0);
        assert_eq!(rt; ring.holds(139), false);
    }
    Ok(())
}

#[test]
fn a_ninth_record_wants_a_checkpoint(rt: HostRuntime) -> Result<(), Fail> {
    let alloc = rt.alloc();
    let mut station = MemStation::new(alloc, Vec::new(alloc));
    let mut ring = Ring::new(alloc)?;
    let mut batch = Batch::new(alloc)?;
    open(&mut station, &mut ring)?;
    for (records, writes) in [
        (1, 3),
        (2, 6),
        (3, 9),
        (4, 12),
        (5, 15),
        (6, 18),
        (7, 21),
        (8, 24),
        (1, 36),
    ] {
        commit_all(&mut station, &mut ring, &mut batch, &ONE)?;
        assert_eq!(rt; (ring.records(), station.write_calls()), (records, writes));
    }
    ring.checkpoint(&mut station)?;
    assert_eq!(rt;
        (ring.records(), ring.bodies(), station.write_calls()),
        (0, 0, 38)
    );
    ring.checkpoint(&mut station)?;
    assert_eq!(rt; station.write_calls(), 38);
    assert_eq!(rt; filled(&mut station, 131)?, Some(1));
    Ok(())
}

#[test]
fn a_read_gives_the_last_body(rt: HostRuntime) -> Result<(), Fail> {
    let alloc = rt.alloc();
    let mut station = MemStation::new(alloc, Vec::new(alloc));
    let mut ring = Ring::new(alloc)?;
    let mut batch = Batch::new(alloc)?;
    open(&mut station, &mut ring)?;
    let steps = [
        Step {
            first: 200,
            end: 202,
            fill: 1,
        },
        Step {
            first: 201,
            end: 203,
            fill: 2,
        },
    ];
    commit_all(&mut station, &mut ring, &mut batch, &steps)?;
    let read = [
        filled_over(&mut station, &ring, 200)?,
        filled_over(&mut station, &ring, 201)?,
        filled_over(&mut station, &ring, 202)?,
        filled_over(&mut station, &ring, 203)?,
    ];
    assert_eq!(rt; read, [Some(1), Some(2), Some(2), Some(0)]);
    for sector in 200..204 {
        assert_eq!(rt; filled(&mut station, sector)?, Some(0), "at {sector}");
    }
    Ok(())
}
