//! The tests of an image that come before those of its tables.

ghost use Rattle.std.specs.Prelude.{◌≡◌, true, false, IfOk};
ghost use Rattle.tsd_model.specs.Geometry.{IsLawful};
ghost use Rattle.image_device.specs.Calls.{Rests, Uses};
ghost use Rattle.image_device.specs.Counts.{CountsFaultOf};
ghost use Rattle.image_layout.specs.Header.{IsVersion};
ghost use Rattle.image_probe.specs.Tested.{IsHeadRead};
ghost use Rattle.intent_journal.specs.Records.{is_gate_open};

use image_device::Device;
use image_layout::gate::says_open;
use image_layout::header::read_header;
use image_layout::ring::gate_sector;
use image_layout::sectors::{FORMAT_GATE, HEADER_SECTOR, SECTOR_BYTES};
use image_layout::{Header, ImageFault};
use intent_journal::Ring;
use recovery::OpenFault;
use std::alloc::Global;

/// What was read of an image that passes the first three tests.
#[derive(Drop)]
pub(crate) struct Head {
    pub(crate) header: Header,
    /// An empty ring.
    pub(crate) ring: Ring,
    /// Whether no record of the journal is open.
    pub(crate) is_closed: bool,
}

/// Makes the first three tests, of the format gate, the open records of the journal and the header. Nothing is written.
/// `Device` comes only where the device's count of faults rose.
#[tactic(auto, using(image_device::proofs::Resting::rests_calls))]
pub(crate) fn read_head<D: Device>(alloc: Global, dev: &mut D) -> Result<Head, OpenFault>
    ensures head { D.told → IsHeadRead (D.view dev.old).reads result }
    ensures right { IfOk result (λ h. IsVersion h.header.version × IsLawful h.header.geometry) }
    ensures closed { D.told → IfOk result (λ h. h.is_closed ≡ true → is_gate_open (D.view dev.old).reads 0 ≡ false) }
    ensures rests { D.told → Rests (D.view dev.old) (D.view dev.new) }
    ensures uses { Uses 0 (D.view dev.old) (D.view dev.new) }
    ensures faults { CountsFaultOf OpenFault.Device result (D.view dev.old).faults (D.view dev.new).faults }
{
    let mut ring = Ring::new(alloc)?;
    let mut sector = [0; SECTOR_BYTES];
    dev.read(FORMAT_GATE, &mut sector)?;
    if !says_open(&sector) {
        return Err(OpenFault::Image(ImageFault::NotFormatted));
    }
    ring.look(dev, HEADER_SECTOR, &mut sector)?;
    let header = read_header(&sector)?;
    dev.read(gate_sector(0), &mut sector)?;
    let is_closed = !says_open(&sector);
    Ok(Head {
        header,
        ring,
        is_closed,
    })
}
