//! The tables of an image together, loaded.

use image_device::{Failed, MemStation};
use image_layout::Header;
use image_world::{ImageTables, LoadFault, load_tables};
use std::alloc::Global;
use std::test::Fail;
use tsd_model::{Geometry, lawful};

/// A disk of eight blocks, one of them primary, with three slots.
const SMALL: Geometry = Geometry {
    sectors: 1,
    blocks: 8,
    primaries: 1,
    slots: 3,
};

/// Its counts, its bitmap and its slots, each in one sector.
const COUNTS_AT: u32 = 134;

const BITS_AT: u32 = 135;

const SLOTS_AT: u32 = 136;

/// What the sectors of such a disk say.
#[derive(Clone, Copy)]
struct Said {
    /// The byte of the bitmap: the lowest bit is that of block 0.
    bits: u8,
    /// Of each slot one more than the source, and the target.
    slots: [(u32, u32); 3],
    counts: [u32; 8],
}

/// Blocks 0, 1 and 2 are live, and each lower one points to each higher one.
const RIGHT: Said = Said {
    bits: 0b0000_0111,
    slots: [(2, 2), (1, 1), (1, 2)],
    counts: [0, 1, 2, 0, 0, 0, 0, 0],
};

/// Sets a number of four bytes of a sector, the lowest byte first.
fn put_number(sector: &mut [u8; 512], at: usize, number: u32) {
    if at <= 508 {
        sector[at..at + 4].copy_from_slice(&number.to_le_bytes());
    }
}

/// The bytes of the counts.
fn count_sector(counts: &[u32; 8]) -> [u8; 512] {
    let mut sector = [0; 512];
    for (block, count) in counts.iter().enumerate() {
        put_number(&mut sector, 4 * block, *count);
    }
    sector
}

/// The bytes of the slots.
fn slot_sector(slots: &[(u32, u32); 3]) -> [u8; 512] {
    let mut sector = [0; 512];
    for (slot, (source, target)) in slots.iter().enumerate() {
        put_number(&mut sector, 8 * slot, *source);
        put_number(&mut sector, 8 * slot + 4, *target);
    }
    sector
}

/// A station whose sectors say this.
fn station_of(alloc: Global, said: &Said) -> Result<MemStation, Failed> {
    let mut station = MemStation::new(alloc, Vec::new(alloc));
    let mut bits = [0; 512];
    bits[0] = said.bits;
    station.poke(COUNTS_AT, &count_sector(&said.counts))?;
    station.poke(BITS_AT, &bits)?;
    station.poke(SLOTS_AT, &slot_sector(&said.slots))?;
    Ok(station)
}

/// The tables of a disk of version 1.
fn load_from(
    alloc: Global,
    station: &mut MemStation,
    geometry: &Geometry,
) -> Result<ImageTables, LoadFault> {
    if !lawful(geometry) {
        return Err(LoadFault::NoMemory);
    }
    let header = Header {
        version: 1,
        geometry: *geometry,
    };
    load_tables(alloc, station, &header)
}

/// The slots, the bitmap, the counts and the records are read once each.
#[test]
fn the_tables_of_a_right_image_are_loaded(rt: HostRuntime) -> Result<(), Fail> {
    let alloc = rt.alloc();
    let mut station = station_of(alloc, &RIGHT)?;
    let tables = load_from(alloc, &mut station, &SMALL)?;
    assert_eq!(rt; tables.pointers.len(), 3);
    assert!(rt; tables.pointers.has(0, 1));
    assert!(rt; tables.pointers.has(0, 2));
    assert!(rt; tables.pointers.has(1, 2));
    assert_eq!(rt; tables.live.free_count(), 5);
    assert_eq!(rt; tables.caps.version(), 1);
    assert_eq!(rt; tables.counts.geometry(), SMALL);
    assert_eq!(rt; station.calls(), 4);
    assert_eq!(rt; station.write_calls(), 0);
    Ok(())
}
