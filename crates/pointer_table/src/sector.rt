//! The sectors of slots: 64 slots of eight bytes, each one more than the source, or 0, and the target, the lowest byte
//! of each number first.

ghost use Rattle.std.specs.Prelude.{◌≡◌, ◌+◌, ◌*◌, ◌^◌, ◌<◌, ◌≤◌, ◌++◌, ◌==◌, if◌then◌else◌, take, drop};
ghost use Rattle.byteorder.specs.Endian.{little_from, little_bytes};
ghost use Rattle.pointer_table.specs.Raw.{slot_in};
ghost use Rattle.pointer_table.specs.Sectors.{slot_bytes, slot_sector_bytes};

use crate::raw::RawSlot;
use crate::slots::Slots;
use byteorder::{ByteOrder, LittleEndian};
use image_layout::sectors::SECTOR_BYTES;

/// How many slots a sector has.
pub(crate) const PER_SECTOR: usize = 64;

const _: () = prove!(PER_SECTOR == 64);

/// The bytes of a slot.
const SLOT_BYTES: usize = 8;

/// Where in a slot its target stands.
const TARGET_AT: usize = 4;

/// The number at a byte of a sector.
fn number_in(sector: &[u8; SECTOR_BYTES], at: usize) -> u32
    requires { at + 4 ≤ SECTOR_BYTES }
    ensures { result ≡ little_from at 4 sector.now }
{
    LittleEndian::read_u32(&sector[at..])
}

/// Sets the number at a byte of a sector.
fn put_number(sector: &mut [u8; SECTOR_BYTES], at: usize, number: u32)
    requires { at + 4 ≤ SECTOR_BYTES }
    ensures { sector.new ≡ take at sector.old ++ little_bytes 4 number ++ drop (at + 4) sector.old }
{
    LittleEndian::write_u32(&mut sector[at..at + 4], number);
}

/// A slot of a sector, from 0.
pub(crate) fn read_slot(sector: &[u8; SECTOR_BYTES], index: usize) -> RawSlot
    requires { index < PER_SECTOR }
    ensures source { result.source ≡ little_from (8 * index) 4 sector.now }
    ensures target { result.target ≡ little_from (8 * index + 4) 4 sector.now }
{
    let at = SLOT_BYTES * index;
    RawSlot {
        source: number_in(sector, at),
        target: number_in(sector, at + TARGET_AT),
    }
}

/// The target as a sector has it: 0 for an empty slot.
fn target_to_write(slot: &RawSlot) -> u32
    ensures { result ≡ (if slot.now.source == 0 then 0 else slot.now.target) }
{
    if slot.source == 0 { 0 } else { slot.target }
}

/// Sets a slot of a sector, from 0.
fn write_slot(sector: &mut [u8; SECTOR_BYTES], index: usize, slot: &RawSlot)
    requires { index < PER_SECTOR }
    ensures { sector.new ≡ take (8 * index) sector.old ++ slot_bytes (slot_in slot.now) ++ drop (8 * index + 8)
        sector.old }
{
    let at = SLOT_BYTES * index;
    put_number(sector, at, slot.source);
    put_number(sector, at + TARGET_AT, target_to_write(slot));
}

/// The bytes of a sector of slots, counted from the first such sector.
pub(crate) fn sector_bytes(slots: &Slots, part: usize) -> [u8; SECTOR_BYTES]
    requires { part < 2 ^ 32 }
    ensures { result ≡ slot_sector_bytes slots.now part }
{
    let mut sector = [0; SECTOR_BYTES];
    for index in 0..PER_SECTOR {
        let slot = slots.get(PER_SECTOR * part + index);
        write_slot(&mut sector, index, &slot);
    }
    sector
}
