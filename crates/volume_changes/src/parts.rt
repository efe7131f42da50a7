//! The sectors of a block, read.

ghost use Rattle.std.specs.Prelude.{◌≡◌, ◌<◌, [], length, OnOk};
ghost use Rattle.tsd_model.specs.Geometry.{IsLawful, block_len};
ghost use Rattle.image_device.specs.Calls.{Rests, Uses};
ghost use Rattle.image_device.specs.Counts.{CountsFault};
ghost use Rattle.image_layout.specs.Image.{data_bytes};
ghost use Rattle.intent_journal.specs.Home.{home};
ghost use Rattle.intent_journal.specs.Ring.{IsRingAt};

use image_device::{Device, Failed};
use image_layout::Layout;
use image_layout::sectors::SECTOR_BYTES;
use intent_journal::Ring;
use tsd_model::Data;

/// Reads the sectors of a block as they are to be once the records of the journal are in place.
#[inline(never)]
pub fn read_parts<D: Device>(
    dev: &mut D,
    ring: &Ring,
    layout: &Layout,
    block: u32,
    into: &mut Data,
) -> Result<(), Failed>
    requires lawful { IsLawful layout.now.geometry }
    requires inside { block < layout.now.geometry.blocks }
    requires at { D.told → IsRingAt ring.now (D.view dev.old) }
    ensures bytes { D.told → OnOk result (into.new ≡ data_bytes (home (D.view dev.old).reads) layout.now.geometry
        block) }
    ensures full { OnOk result (length into.new ≡ block_len layout.now.geometry) }
    ensures rests { D.told → Rests (D.view dev.old) (D.view dev.new) }
    ensures uses { Uses 0 (D.view dev.old) (D.view dev.new) }
    ensures faults { CountsFault result (D.view dev.old).faults (D.view dev.new).faults }
{
    let mut sector = [0; SECTOR_BYTES];
    empty(into);
    for part in 0..layout.geometry.sectors {
        ring.read(dev, layout.data_sector(block, part), &mut sector)?;
        let _ = into.extend_from_slice(&sector);
    }
    Ok(())
}

/// Takes all bytes out. Where there are none, nothing is cleared.
fn empty(bytes: &mut Data)
    ensures { bytes.new ≡ [] }
{
    if !bytes.is_empty() {
        take_out(bytes);
    }
}

/// Takes all bytes out. It stays a call, so that a block that is read into an empty list pays for no second list.
#[inline(never)]
fn take_out(bytes: &mut Data)
    ensures { bytes.new ≡ [] }
{
    *bytes = Data::new();
}
