//! The tests of an image that come before a replay.

ghost use Rattle.std.specs.Prelude.{◌≡◌, [], IfOk};
ghost use Rattle.tsd_model.specs.Geometry.{IsLawful};
ghost use Rattle.image_device.specs.Calls.{Rests, Uses};
ghost use Rattle.image_device.specs.Counts.{CountsFaultOf};
ghost use Rattle.image_layout.specs.Header.{IsVersion};
ghost use Rattle.recovery.specs.Opening.{IsHead};

use crate::fault::OpenFault;
use image_device::Device;
use image_layout::gate::says_open;
use image_layout::header::read_header;
use image_layout::sectors::{FORMAT_GATE, HEADER_SECTOR, SECTOR_BYTES};
use image_layout::{Header, ImageFault};
use intent_journal::Ring;

/// Makes the first three tests, of the format gate, the open records of the journal and the header, and gives the
/// header. Nothing is written. `Device` comes only where the device's count of faults rose.
#[tactic(auto, using(image_device::proofs::Resting::rests_calls))]
pub(crate) fn read_head<D: Device>(dev: &mut D, ring: &mut Ring) -> Result<Header, OpenFault>
    requires { ring.old ≡ [] }
    ensures empty { ring.new ≡ [] }
    ensures head { D.told → IsHead (D.view dev.old).reads result }
    ensures right { IfOk result (λ h. IsVersion h.version × IsLawful h.geometry) }
    ensures rests { D.told → Rests (D.view dev.old) (D.view dev.new) }
    ensures uses { Uses 0 (D.view dev.old) (D.view dev.new) }
    ensures faults { CountsFaultOf OpenFault.Device result (D.view dev.old).faults (D.view dev.new).faults }
{
    let mut sector = [0; SECTOR_BYTES];
    dev.read(FORMAT_GATE, &mut sector)?;
    if !says_open(&sector) {
        return Err(OpenFault::Image(ImageFault::NotFormatted));
    }
    ring.look(dev, HEADER_SECTOR, &mut sector)?;
    Ok(read_header(&sector)?)
}
