//! The records as the sectors have them.

ghost use Rattle.std.specs.Prelude.{◌≡◌, ℕ, ◌+◌, ◌<◌, ◌≤◌, length, slice_get, Some, OnOk};
ghost use Rattle.image_device.specs.Calls.{Rests, Uses};
ghost use Rattle.image_device.specs.Counts.{CountsFault};
ghost use Rattle.image_layout.specs.Header.{IsVersion};
ghost use Rattle.cap_store.specs.Store.{AreRecords, IsRecord};
ghost use Rattle.cap_store.specs.Stored.{per_sector, sector_record, IsStored};

use crate::sector::{per_sector, record_in};
use image_device::{Device, Failed};
use image_layout::sectors::{CAPS_START, SECTOR_BYTES};
use tsd_model::Record;

/// Sets the records of one sector.
fn set_records(version: u32, bytes: &[u8; SECTOR_BYTES], first: usize, records: &mut [Record])
    requires version { IsVersion version }
    requires first { first ≤ length records.old }
    ensures before { (block : ℕ) → block < first → slice_get records.new block ≡ slice_get records.old block }
    ensures here { (k : ℕ) → k < per_sector version → first + k < length records.old
        → slice_get records.new (first + k) ≡ Some (sector_record version bytes.now k) }
    ensures kept { (k : ℕ) → k < per_sector version → IsRecord version (sector_record version bytes.now k) }
{
    let end = records.len().min(first + per_sector(version));
    for block in first..end {
        records[block] = record_in(version, bytes, block - first);
    }
}

/// Reads each record. Each sector is read once (tested).
pub(crate) fn read_records<D: Device>(
    dev: &mut D,
    version: u32,
    records: &mut [Record],
) -> Result<(), Failed>
    requires version { IsVersion version }
    requires few { length records.old ≤ 16 }
    ensures kept { OnOk result (AreRecords version records.new) }
    ensures read { D.told → OnOk result (IsStored version records.new (D.view dev.old).reads) }
    ensures rests { D.told → Rests (D.view dev.old) (D.view dev.new) }
    ensures uses { Uses 0 (D.view dev.old) (D.view dev.new) }
    ensures faults { CountsFault result (D.view dev.old).faults (D.view dev.new).faults }
{
    let mut bytes = [0; SECTOR_BYTES];
    let each = per_sector(version);
    for part in 0..records.len().div_ceil(each) {
        dev.read(CAPS_START + part as u32, &mut bytes)?;
        set_records(version, &bytes, part * each, records);
    }
    Ok(())
}
