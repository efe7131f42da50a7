//! Batches: 113 homes and no more, new bytes in place of older ones, and which sectors are lawful homes.

use super::steps::{filled, open};
use image_device::MemStation;
use intent_journal::{Batch, BatchFull, Ring, is_lawful_home};
use std::alloc::Global;
use std::process::Abort;
use std::test::Fail;

/// Puts equal bytes at a lawful home.
fn put(rt: &impl Abort, batch: &mut Batch, sector: u32, fill: u8) -> Result<(), BatchFull> {
    assert!(rt; is_lawful_home(sector));
    batch.put(sector, &[fill; 512])
}

/// A new disk on which a batch is committed: its bodies stand from sector 4 on.
pub fn committed(alloc: Global, batch: &Batch) -> Result<MemStation, Fail> {
    let mut station = MemStation::new(alloc, Vec::new(alloc));
    let mut ring = Ring::new(alloc)?;
    open(&mut station, &mut ring)?;
    ring.commit(&mut station, batch)?;
    Ok(station)
}

#[test]
fn lawful_homes(rt: HostRuntime) {
    for (sector, lawful) in [
        (0, true),
        (1, false),
        (2, false),
        (130, false),
        (131, true),
        (8_462_725, true),
        (8_462_726, false),
        (u32::MAX, false),
    ] {
        assert_eq!(rt; is_lawful_home(sector), lawful, "at {sector}");
    }
}

#[test]
fn no_more_than_113_homes(rt: HostRuntime) -> Result<(), Fail> {
    let alloc = rt.alloc();
    let mut batch = Batch::new(alloc)?;
    for sector in 131..244 {
        assert_eq!(rt; put(&rt, &mut batch, sector, 1), Ok(()), "at {sector}");
    }
    assert_eq!(rt; batch.len(), 113);
    assert_eq!(rt; put(&rt, &mut batch, 0, 2), Err(BatchFull));
    assert_eq!(rt; put(&rt, &mut batch, 244, 2), Err(BatchFull));
    assert_eq!(rt; put(&rt, &mut batch, 243, 3), Ok(()));
    assert_eq!(rt; batch.len(), 113);
    let mut station = committed(alloc, &batch)?;
    for body in 4..116 {
        assert_eq!(rt; filled(&mut station, body)?, Some(1), "at {body}");
    }
    assert_eq!(rt; filled(&mut station, 116)?, Some(3));
    batch.clear();
    assert_eq!(rt; put(&rt, &mut batch, 244, 2), Ok(()));
    assert_eq!(rt; batch.len(), 1);
    assert_eq!(rt; filled(&mut committed(alloc, &batch)?, 4)?, Some(2));
    Ok(())
}

#[test]
fn new_bytes_in_place_of_older(rt: HostRuntime) -> Result<(), Fail> {
    let mut batch = Batch::new(rt.alloc())?;
    assert_eq!(rt; batch.len(), 0);
    for (sector, fill) in [(500, 1), (0, 2), (8_462_725, 3), (0, 4), (500, 5)] {
        assert_eq!(rt; put(&rt, &mut batch, sector, fill), Ok(()));
    }
    assert_eq!(rt; batch.len(), 3);
    let mut station = committed(rt.alloc(), &batch)?;
    for (body, fill) in [(4, 5), (5, 4), (6, 3)] {
        assert_eq!(rt; filled(&mut station, body)?, Some(fill), "at {body}");
    }
    Ok(())
}
