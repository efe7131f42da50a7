//! `upgrade`: an image that keeps digests in place of capabilities.

ghost use Rattle.std.specs.Prelude.{◌≡◌, ◌⊎◌, OnOk, IfErr};
ghost use Rattle.image_device.specs.Counts.{CountsFaultOf};
ghost use Rattle.image_device.specs.Runs.{IsFirm, LeavesOnly};
ghost use Rattle.image_world.specs.Behind.{LeavesBehind};
ghost use Rattle.volume_laws.specs.Writes.{Works};
ghost use Rattle.recovery.specs.Opening.{IsForeign, IsUntouched, SparesDamaged, StandAlike};
ghost use Rattle.recovery.specs.Spared.{SparesImage};
ghost use Rattle.serving.specs.Faults.{TellsPortFaults};
ghost use Rattle.image_runs.specs.Sending.{IsEnding};
ghost use Rattle.image_runs.specs.Upgrade.{HasUpgraded, IsLeftOfUpgrade, IsUpgradeOf, IsUpgraded};
ghost use Rattle.image_runs.specs.Opened.{IsJudged, IsUnopened};

use crate::ending::put_text;
use crate::opening::open_volume;
use image_device::{Device, Port};
use std::alloc::Global;
use tsd_words::{Status, upgrade_line};

/// Opens an image, keeps only the digest of each capability from then on, erases what the journal held of earlier ones,
/// and puts one line. An image that keeps digests already is left so.
///
/// The status is Done, NotImage where the image stands for no world, DeviceFault or PutFault where that count rose, or
/// NoMemory where none was found to open the image.
pub fn upgrade_image<P: Port>(alloc: Global, port: &mut P) -> Status
    ensures ending { IsEnding result }
    /// promise: After Done the disk stands for the world with digests in place of capabilities, all gates of the
    /// journal are closed, and what it held of these reads as zeros; the sectors of records of an image that kept
    /// capabilities hold their digests and nothing else.
    ensures upgraded { P.told → HasUpgraded result (P.view port.old) (P.view port.new) }
    // Where the image fails one of the tests that need no write, nothing is written, and the disk reads as before;
    // where it fails another, nothing is lost that a repair could use, whatever is answered.
    ensures untouched { P.told → IsForeign (P.view port.old).reads
        → IsUntouched (P.view port.old) (P.view port.new) }
    ensures spared { P.told → SparesDamaged (P.view port.old) (P.view port.new) }
    /// promise: Each image left stands for the world before, or for none where there was none, or for the upgraded one;
    /// wherever a byte was sent, for the latter.
    ensures any_moment { P.told → IsFirm (P.view port.old) → LeavesOnly (P.view port.old) (P.view port.new)
        (IsLeftOfUpgrade (P.view port.old)) }
    /// promise: Without memory nothing is upgraded.
    ensures no_memory { P.told → result ≡ Status.NoMemory → IsFirm (P.view port.old)
        → LeavesOnly (P.view port.old) (P.view port.new) (λ x f. StandAlike (P.view port.old).reads x
        × (f ≡ (P.view port.old).sent)) }
    // A crash at any moment leaves what lies behind the image as it was.
    ensures behind { P.told → IsFirm (P.view port.old) → LeavesBehind (P.view port.old) (P.view port.new) }
    ensures faults { TellsPortFaults result (P.view port.old) (P.view port.new) }
{
    match upgrade(alloc, port) {
        Ok(()) => put_text(port, &upgrade_line(), Status::Done),
        Err(why) => why,
    }
}

/// Opens an image and upgrades it.
fn upgrade<D: Device>(alloc: Global, dev: &mut D) -> Result<(), Status>
    ensures upgraded { D.told → OnOk result (IsUpgraded (D.view dev.old).reads (D.view dev.new)) }
    ensures judged { D.told → IfErr result (IsJudged (D.view dev.old).reads) }
    ensures stops { IfErr result IsUnopened }
    ensures sent { D.told → (D.view dev.new).sent ≡ (D.view dev.old).sent }
    ensures spares { SparesImage D.told (D.view dev.old) (D.view dev.new) }
    ensures any_moment { D.told → IsFirm (D.view dev.old) → LeavesOnly (D.view dev.old) (D.view dev.new)
        (λ x f. (StandAlike (D.view dev.old).reads x ⊎ IsUpgradeOf (D.view dev.old).reads x)
        × (f ≡ (D.view dev.old).sent)) }
    ensures no_memory { D.told → IfErr result (λ why. why ≡ Status.NoMemory → IsFirm (D.view dev.old)
        → LeavesOnly (D.view dev.old) (D.view dev.new) (λ x f. StandAlike (D.view dev.old).reads x
        × (f ≡ (D.view dev.old).sent))) }
    ensures works { Works (D.view dev.old) (D.view dev.new) }
    ensures faults { CountsFaultOf Status.DeviceFault result (D.view dev.old).faults (D.view dev.new).faults }
{
    match open_volume(alloc, dev) {
        Ok(mut volume) => match volume.upgrade(dev) {
            Ok(()) => Ok(()),
            Err(_) => Err(Status::DeviceFault),
        },
        Err(why) => Err(why),
    }
}
