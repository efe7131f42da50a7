//! All that formatting writes but the format gate.

ghost use Rattle.std.specs.Prelude.{◌≡◌, ℕ, ◌+◌, ◌-◌, ◌<◌, ◌≤◌, ◌==◌, ◌&&◌, nat_le};
ghost use Rattle.std.specs.Prelude.{not, false, length, OnOk};
ghost use Rattle.tsd_model.specs.Geometry.{IsLawful};
ghost use Rattle.cap_store.specs.Fresh.{fresh_records};
ghost use Rattle.cap_store.specs.Store.{AreRecords};
ghost use Rattle.image_device.specs.Calls.{Uses};
ghost use Rattle.image_device.specs.Counts.{CountsFault};
ghost use Rattle.image_device.specs.Image.{Image};
ghost use Rattle.image_device.specs.Runs.{IsConfined, IsFirm};
ghost use Rattle.image_layout.specs.Areas.{format_gate, sweep_flag};
ghost use Rattle.image_world.specs.Fresh.{IsWrittenFresh};
ghost use Rattle.intent_journal.specs.Home.{is_journal};
ghost use Rattle.intent_journal.specs.Records.{AreClosed};
ghost use Rattle.recovery.specs.Areas.{fresh_end, fresh_bytes, is_fresh};

use image_device::{Device, Failed};
use image_layout::Layout;
use image_layout::gate::gate_bytes;
use image_layout::header::{Header, PLAIN_VERSION, write_header};
use image_layout::ring::{RECORDS, gate_sector};
use image_layout::sectors::{CAPS_START, COUNTS_START, HEADER_SECTOR, SECTOR_BYTES, SWEEP_FLAG};
use tsd_model::{CapList, Geometry};

/// The 512 bytes of a sector of a fresh disk, from the sweep flag to the data of the primary blocks.
fn fresh_sector(layout: &Layout, caps: &CapList, sector: u32) -> [u8; SECTOR_BYTES]
    ensures value { result ≡ fresh_bytes layout.now.geometry caps.now sector }
    ensures kept { CAPS_START ≤ sector → sector < COUNTS_START → AreRecords 1 (fresh_records caps.now) }
{
    let bitmap = layout.bitmap_start();
    if CAPS_START <= sector && sector < COUNTS_START {
        cap_store::fresh_sector(caps, sector - CAPS_START)
    } else if bitmap <= sector && sector < layout.slots_start() {
        block_alloc::fresh_sector(&layout.geometry, sector - bitmap)
    } else {
        [0; SECTOR_BYTES]
    }
}

/// Closes every gate of the journal.
#[tactic(auto, using(image_device::proofs::Confined::confined_calls))]
fn close_gates<D: Device>(dev: &mut D) -> Result<(), Failed>
    ensures closed { D.told → OnOk result (AreClosed (D.view dev.new).reads) }
    ensures confined { D.told → IsConfined is_journal (D.view dev.old) (D.view dev.new) }
    ensures uses { Uses 8 (D.view dev.old) (D.view dev.new) }
    ensures faults { CountsFault result (D.view dev.old).faults (D.view dev.new).faults }
{
    for index in 0..RECORDS {
        dev.write(gate_sector(index), &gate_bytes(false))?;
    }
    Ok(())
}

/// Writes the tables of a fresh disk and zeros to its primary blocks.
#[tactic(auto, using(image_device::proofs::Confined::confined_calls))]
fn write_tables<D: Device>(dev: &mut D, layout: &Layout, caps: &CapList) -> Result<(), Failed>
    ensures fresh { D.told → OnOk result ((n : ℕ) → sweep_flag ≤ n → n < fresh_end layout.now.geometry
        → (D.view dev.new).reads n ≡ fresh_bytes layout.now.geometry caps.now n) }
    ensures kept { OnOk result (AreRecords 1 (fresh_records caps.now)) }
    ensures confined { D.told → IsConfined (nat_le sweep_flag) (D.view dev.old) (D.view dev.new) }
    ensures inside { D.told → IsConfined (is_fresh layout.now.geometry) (D.view dev.old) (D.view dev.new) }
    ensures uses { Uses (fresh_end layout.now.geometry - sweep_flag) (D.view dev.old) (D.view dev.new) }
    ensures faults { CountsFault result (D.view dev.old).faults (D.view dev.new).faults }
{
    let end = layout.data_start() + layout.geometry.sectors * layout.geometry.primaries;
    for sector in SWEEP_FLAG..end {
        dev.write(sector, &fresh_sector(layout, caps, sector))?;
    }
    Ok(())
}

/// Writes all of a fresh disk but the format gate, and waits until it is on the disk.
pub(crate) fn write_areas<D: Device>(
    dev: &mut D,
    geometry: &Geometry,
    caps: &CapList,
) -> Result<(), Failed>
    requires lawful { IsLawful geometry.now }
    requires each { length caps.now ≡ geometry.now.primaries }
    ensures written { D.told → OnOk result ((x : Image) → ((n : ℕ) → (n == format_gate) ≡ false
        → x n ≡ (D.view dev.new).reads n) → IsWrittenFresh geometry.now caps.now x) }
    ensures firm { D.told → OnOk result (IsFirm (D.view dev.new)) }
    ensures confined { D.told → IsConfined (λ n. not (n == format_gate)) (D.view dev.old) (D.view dev.new) }
    ensures inside { D.told → IsConfined (is_fresh geometry.now) (D.view dev.old) (D.view dev.new) }
    ensures uses { Uses (fresh_end geometry.now - 122) (D.view dev.old) (D.view dev.new) }
    ensures faults { CountsFault result (D.view dev.old).faults (D.view dev.new).faults }
{
    let header = Header {
        version: PLAIN_VERSION,
        geometry: *geometry,
    };
    dev.write(HEADER_SECTOR, &write_header(&header))?;
    close_gates(dev)?;
    write_tables(dev, &Layout::of(geometry), caps)?;
    dev.sync()
}
