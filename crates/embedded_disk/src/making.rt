//! A disk made anew.

ghost use Rattle.std.specs.Prelude.{◌≡◌, ◌↔◌};
ghost use Rattle.tsd_model.specs.Geometry.{IsLawful};
ghost use Rattle.tsd_words.specs.declared.status.Status.{Status as Ended};
ghost use Rattle.image_device.specs.Runs.{IsFirm, LeavesOnly};
ghost use Rattle.image_runs.specs.Behind.{LeavesSectorsBehind};
ghost use Rattle.image_runs.specs.Format.{HasFormatted, IsLeftOfFormat};
ghost use Rattle.serving.specs.Faults.{TellsPortFaults};

use image_device::Port;
use image_runs::format_image;
use tsd_model::lawful;
use tsd_words::{Format, Status};

/// Makes a disk of this size, with the capabilities that the seed gives, and puts one line for each primary block: its
/// number, and its capabilities to read and to write.
///
/// The status is Usage where no disk has this size, and then nothing is called; else Done, or DeviceFault or PutFault
/// where that count rose.
pub fn make_disk<P: Port>(port: &mut P, words: &Format) -> Status
    /// promise (with untouched): Usage comes exactly where no disk may have this size, and before any call.
    ensures usage { (result ≡ Status.Usage) ↔ ¬ IsLawful words.now.geometry }
    ensures untouched { result ≡ Status.Usage → port.new ≡ port.old }
    /// promise: After Done, and after a put that failed, nothing is loose, nothing is left to be done, and the disk
    /// stands for the fresh world of this size and the seed's capabilities; one line for each primary block was sent,
    /// or a proper front of them.
    ensures made { P.told → IsLawful words.now.geometry
        → HasFormatted result words.now (P.view port.old) (P.view port.new) }
    /// promise: Each image left is one that formatting may leave; wherever a byte was sent it stands for the fresh
    /// world.
    ensures any_moment { P.told → IsLawful words.now.geometry → LeavesOnly (P.view port.old) (P.view port.new)
        (IsLeftOfFormat words.now (P.view port.old)) }
    /// promise: The sectors after the image stay as they are.
    ensures behind { P.told → IsLawful words.now.geometry → IsFirm (P.view port.old)
        → LeavesSectorsBehind words.now.geometry (P.view port.old) (P.view port.new) }
    /// promise: A count of faults rose exactly where the status is that fault's.
    ensures faults { TellsPortFaults result (P.view port.old) (P.view port.new) }
{
    if lawful(&words.geometry) {
        format_image(port, words)
    } else {
        Status::Usage
    }
}
