//! The sectors of records of a fresh disk, which has version 1.

ghost use Rattle.std.specs.Prelude.{◌≡◌, ◌≤◌, length, take};
ghost use Rattle.cap_store.specs.Fresh.{fresh_records};
ghost use Rattle.cap_store.specs.Store.{AreRecords};
ghost use Rattle.cap_store.specs.Stored.{caps_sector_bytes};

use crate::records::{BLANK, record_of};
use crate::sector::{bytes_of_part, per_sector};
use image_layout::header::PLAIN_VERSION;
use image_layout::sectors::SECTOR_BYTES;
use tsd_model::lists::CAPS_MAX;
use tsd_model::{CapList, Record};

/// The records of a fresh disk with these capabilities, and blank ones behind them.
fn fresh_records(caps: &CapList) -> [Record; CAPS_MAX]
    ensures here { take (length caps.now) result ≡ fresh_records caps.now }
    ensures each { AreRecords 1 (fresh_records caps.now) }
    ensures few { length (fresh_records caps.now) ≤ 16 }
{
    let mut records = [BLANK; CAPS_MAX];
    for block in 0..caps.len() {
        records[block] = record_of(PLAIN_VERSION, &caps.as_slice()[block]);
    }
    records
}

/// The 512 bytes of one of the two sectors of records, by its number from 0, of a fresh disk whose primary blocks have
/// these capabilities.
pub fn fresh_sector(caps: &CapList, part: u32) -> [u8; SECTOR_BYTES]
    /// promise: A sector of records of a fresh disk with these capabilities.
    ensures value { result ≡ caps_sector_bytes 1 (fresh_records caps.now) part }
    ensures each { AreRecords 1 (fresh_records caps.now) }
    ensures few { length (fresh_records caps.now) ≤ 16 }
{
    let records = fresh_records(caps);
    if part as usize * per_sector(PLAIN_VERSION) < caps.len() {
        bytes_of_part(PLAIN_VERSION, &records[..caps.len()], part as usize)
    } else {
        [0; SECTOR_BYTES]
    }
}
