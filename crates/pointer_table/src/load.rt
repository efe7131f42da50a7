//! Reading the slots of an image, a sector at a time.

ghost use Rattle.std.specs.Prelude.{◌≡◌, ◌*◌, ◌<◌, length, OnOk};
ghost use Rattle.image_device.specs.Calls.{Rests, Uses};
ghost use Rattle.image_device.specs.Counts.{CountsFaultOf};
ghost use Rattle.pointer_table.specs.Loading.{is_bad_slot};
ghost use Rattle.pointer_table.specs.Reading.{IsSlotReading, IsTaking, AreWithinTo, TakesWithin};
ghost use Rattle.tsd_model.specs.Geometry.{IsLawful};

use crate::fault::TableFault;
use crate::raw::RawSlot;
use crate::sector::{PER_SECTOR, read_slot};
use crate::slots::Slots;
use image_device::Device;
use image_layout::Layout;
use image_layout::sectors::SECTOR_BYTES;
use tsd_model::Geometry;

/// A bad slot, with its two numbers as they stand.
#[derive(Clone, Copy, Debug)]
struct BadSlot {
    slot: u32,
    source: u32,
    target: u32,
}

/// Whether a slot is bad.
fn is_bad_slot(slot: &RawSlot, geometry: &Geometry) -> bool
    ensures { result ≡ is_bad_slot geometry.now slot.now.source slot.now.target }
{
    slot.source != 0
        && (geometry.blocks < slot.source
            || geometry.blocks <= slot.target
            || slot.target < geometry.primaries)
}

/// Takes the slots of a sector, counted from the first sector of slots, up to the first bad one.
fn take_sector(
    geometry: &Geometry,
    part: usize,
    sector: &[u8; SECTOR_BYTES],
    slots: &mut Slots,
) -> Result<(), BadSlot>
    requires lawful { IsLawful geometry.now }
    requires all { length slots.old ≡ geometry.now.slots }
    requires inside { PER_SECTOR * part < geometry.now.slots }
    ensures all { length slots.new ≡ geometry.now.slots }
    ensures read { IsTaking geometry.now part sector.now slots.old slots.new result }
    ensures within { TakesWithin geometry.now part slots.old slots.new result }
{
    let first = PER_SECTOR * part;
    let end = slots.len().min(first + PER_SECTOR);
    for position in first..end {
        let slot = read_slot(sector, position - first);
        if is_bad_slot(&slot, geometry) {
            return Err(BadSlot {
                slot: position as u32,
                source: slot.source,
                target: slot.target,
            });
        }
        slots.set(position, slot);
    }
    Ok(())
}

/// Reads all slots, up to the first bad one.
pub(crate) fn read_slots<D: Device>(
    dev: &mut D,
    geometry: &Geometry,
    slots: &mut Slots,
) -> Result<(), TableFault>
    requires lawful { IsLawful geometry.now }
    requires all { length slots.old ≡ geometry.now.slots }
    ensures all { length slots.new ≡ geometry.now.slots }
    ensures read { D.told → IsSlotReading (D.view dev.old).reads geometry.now slots.new result }
    ensures within { OnOk result (AreWithinTo geometry.now geometry.now.slots slots.new) }
    ensures rests { D.told → Rests (D.view dev.old) (D.view dev.new) }
    ensures uses { Uses 0 (D.view dev.old) (D.view dev.new) }
    ensures faults { CountsFaultOf TableFault.Device result (D.view dev.old).faults (D.view dev.new).faults }
{
    let layout = Layout::of(geometry);
    let start = layout.slots_start();
    let parts = layout.data_start() - start;
    let mut sector = [0; SECTOR_BYTES];
    for part in 0..parts {
        if dev.read(start + part, &mut sector).is_err() {
            return Err(TableFault::Device);
        }
        if let Err(bad) = take_sector(geometry, part as usize, &sector, slots) {
            return Err(TableFault::Slot {
                slot: bad.slot,
                source: bad.source,
                target: bad.target,
            });
        }
    }
    Ok(())
}
