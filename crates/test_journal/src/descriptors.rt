//! What stands in the journal's sectors: a descriptor's bytes, and an older journal, of one record.

use super::batches::committed;
use super::steps::{filled, open};
use image_device::{Device, Failed, MemStation};
use intent_journal::{Batch, Replayed, Ring};
use std::test::Fail;

/// A descriptor with this count and these homes.
fn descriptor(count: u32, homes: &[u32]) -> [u8; 512] {
    let mut bytes = [0; 512];
    bytes[..4].copy_from_slice(&count.to_le_bytes());
    for (index, home) in homes.iter().take(113).enumerate() {
        bytes[4 + 4 * index..8 + 4 * index].copy_from_slice(&home.to_le_bytes());
    }
    bytes
}

#[test]
fn written(rt: HostRuntime) -> Result<(), Fail> {
    let mut batch = Batch::new(rt.alloc())?;
    for home in [0, 8_462_725, 131] {
        batch.put(home, &[7; 512]).map_err(|_| Failed)?;
    }
    let mut bytes = [7; 512];
    committed(rt.alloc(), &batch)?.read(3, &mut bytes)?;
    let mut want = [0; 512];
    want[..16].copy_from_slice(&[3, 0, 0, 0, 0, 0, 0, 0, 133, 33, 129, 0, 131, 0, 0, 0]);
    assert_eq!(rt; bytes, want);
    Ok(())
}

#[test]
fn an_older_journal_of_one_record_is_replayed(rt: HostRuntime) -> Result<(), Fail> {
    let alloc = rt.alloc();
    let mut station = MemStation::new(alloc, Vec::new(alloc));
    let mut homes = [0; 113];
    for (index, home) in homes.iter_mut().enumerate() {
        *home = 131 + 2 * index as u32;
    }
    let mut open_gate = [0; 512];
    open_gate[0] = 1;
    station.poke(2, &open_gate)?;
    station.poke(3, &descriptor(113, &homes))?;
    for body in 0..113_u8 {
        station.poke(4 + u32::from(body), &[body; 512])?;
    }
    let found = open(&mut station, &mut Ring::new(alloc)?);
    assert_eq!(rt; found, Ok(Replayed::Homes(113)));
    for body in 0..113_u8 {
        assert_eq!(rt;
            filled(&mut station, 131 + 2 * u32::from(body))?,
            Some(body)
        );
    }
    Ok(())
}
