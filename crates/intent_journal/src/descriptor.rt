//! Descriptors: how many homes a record has, and which.
//!
//! | bytes | content |
//! |---|---|
//! | 0 to 3 | how many homes |
//! | 4 + 4k to 7 + 4k | home k, from 0 |
//!
//! Numbers have their lowest byte first. What stands behind the last home is zero, and isn't read.

ghost use Rattle.std.specs.Prelude.{◌≡◌, ◌+◌, ◌≤◌, ◌++◌, length, take, drop, map, true, false};
ghost use Rattle.std.specs.Prelude.{MatchOption};
ghost use Rattle.std.specs.List.{list_all, range_with_len};
ghost use Rattle.byteorder.specs.Endian.{little_from, little_bytes};
ghost use Rattle.image_layout.specs.Ring.{bodies};
ghost use Rattle.tsd_model.specs.World.{are_apart};
ghost use Rattle.intent_journal.specs.Homes.{is_lawful_home};
ghost use Rattle.intent_journal.specs.Batch.{homes_of};
ghost use Rattle.intent_journal.specs.Descriptor.{home_in, homes_in, is_valid, descriptor_bytes};

use crate::homes::is_lawful_home;
use arrayvec::ArrayVec;
use byteorder::{ByteOrder, LittleEndian};
use image_layout::Patch;
use image_layout::ring::BODIES;
use image_layout::sectors::SECTOR_BYTES;

/// The bytes of a number.
const NUMBER_BYTES: usize = 4;

/// The most homes that a record has.
pub(crate) const MOST_HOMES: usize = BODIES as usize;

const _: () = prove!(NUMBER_BYTES == 4 && MOST_HOMES == 113);

/// The number at a byte of a sector.
fn number_in(sector: &[u8; SECTOR_BYTES], at: usize) -> u32
    requires { at + 4 ≤ SECTOR_BYTES }
    ensures { result ≡ little_from at 4 sector.now }
{
    LittleEndian::read_u32(&sector[at..])
}

/// Sets the number at a byte of a sector.
fn put_number(sector: &mut [u8; SECTOR_BYTES], at: usize, number: u32)
    requires { at + 4 ≤ SECTOR_BYTES }
    ensures { sector.new ≡ take at sector.old ++ little_bytes 4 number ++ drop (at + 4) sector.old }
{
    LittleEndian::write_u32(&mut sector[at..at + NUMBER_BYTES], number);
}

/// The descriptor of a record with these patches.
pub(crate) fn write_descriptor(patches: &[Patch]) -> [u8; SECTOR_BYTES]
    requires { length patches.now ≤ bodies }
    ensures { result ≡ descriptor_bytes (homes_of patches.now) }
{
    let mut sector = [0; SECTOR_BYTES];
    put_number(&mut sector, 0, patches.len() as u32);
    let mut at = NUMBER_BYTES;
    for patch in patches {
        put_number(&mut sector, at, patch.sector);
        at += NUMBER_BYTES;
    }
    sector
}

/// The homes in a descriptor whose bodies begin at this one. None exactly where it isn't valid: it has a home, there is
/// a body for each, and they are distinct and lawful.
pub(crate) fn read_descriptor(
    sector: &[u8; SECTOR_BYTES],
    start: u32,
) -> Option<ArrayVec<u32, MOST_HOMES>>
    ensures { MatchOption result (is_valid start sector.now ≡ false) (λ homes. (is_valid start sector.now ≡ true)
        × (homes.items ≡ homes_in sector.now)) }
{
    let count = number_in(sector, 0);
    if count == 0 || BODIES < count || BODIES - count < start {
        return None;
    }
    let homes = first_homes(sector, count);
    if are_distinct(homes.as_slice()) && are_lawful(homes.as_slice()) {
        Some(homes)
    } else {
        None
    }
}

/// So many homes of a descriptor.
fn first_homes(sector: &[u8; SECTOR_BYTES], count: u32) -> ArrayVec<u32, MOST_HOMES>
    requires { count ≤ bodies }
    ensures { result.items ≡ map (home_in sector.now) (range_with_len 0 count) }
{
    let mut homes = ArrayVec::new();
    for index in 0..count as usize {
        homes.push(number_in(sector, NUMBER_BYTES + NUMBER_BYTES * index));
    }
    homes
}

/// Whether no home comes twice.
fn are_distinct(homes: &[u32]) -> bool
    ensures { result ≡ are_apart homes.now }
{
    for (index, home) in homes.iter().enumerate() {
        if homes[index + 1..].contains(home) {
            return false;
        }
    }
    true
}

/// Whether each home is lawful.
fn are_lawful(homes: &[u32]) -> bool
    ensures { result ≡ list_all is_lawful_home homes.now }
{
    homes.iter().all(|home| is_lawful_home(*home))
}
