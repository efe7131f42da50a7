//! The volume and the disk of an image.

ghost use Rattle.std.specs.Prelude.{◌≡◌, ◌≤◌, ◌+◌, false, IfOk, OnOk, IfErr};
ghost use Rattle.image_device.specs.Calls.{Uses};
ghost use Rattle.image_device.specs.Counts.{CountsFaultOf};
ghost use Rattle.image_device.specs.Runs.{IsFirm, LeavesOnly};
ghost use Rattle.image_world.specs.Stands.{world_of};
ghost use Rattle.image_world.specs.Tables.{tables_of};
ghost use Rattle.intent_journal.specs.Home.{home};
ghost use Rattle.tsd_model.specs.Run.{at_rest};
ghost use Rattle.tsd_model.specs.Sessions.{no_sessions};
ghost use Rattle.recovery.specs.Opening.{IsForeign, IsUntouched, LeavesData, SparesDamaged, StandAlike, opening_writes};
ghost use Rattle.tsd_core.specs.Core.{IsCoreAt, IsCoreReady, state_on};
ghost use Rattle.volume_laws.specs.Volume.{IsVolumeAt, IsVolumeReady, world_on};
ghost use Rattle.image_world.specs.Behind.{LeavesBehind};
ghost use Rattle.image_world.specs.Debt.{debt};
ghost use Rattle.volume_laws.specs.Quiet.{IsQuiet};
ghost use Rattle.volume_laws.specs.Writes.{due, Works};
ghost use Rattle.image_runs.specs.Looking.{OnlyOpens};
ghost use Rattle.image_runs.specs.Opened.{IsOpened, IsUnopened, status_of};

use image_device::Device;
use recovery::{OpenFault, open_image};
use std::alloc::Global;
use tsd_core::Core;
use tsd_words::Status;
use volume::Volume;

/// Opens the volume of an image. What is wrong comes as the status that says so.
pub fn open_volume<D: Device>(alloc: Global, dev: &mut D) -> Result<Volume, Status>
    /// promise (with at, done, settled): The volume of the world for which the image stands, with nothing left to be
    /// reclaimed, or why it wasn't opened as a status.
    ensures read { D.told → IsOpened (D.view dev.old).reads result }
    ensures stops { IfErr result IsUnopened }
    ensures ready { IfOk result (λ v. IsVolumeReady v) }
    ensures unspent { IfOk result (λ v. v.is_spent ≡ false) }
    ensures at { D.told → IfOk result (λ v. IsVolumeAt v (D.view dev.new)) }
    ensures done { D.told → OnOk result (world_on (D.view dev.new) ≡ world_of (D.view dev.old).reads) }
    ensures sent { D.told → (D.view dev.new).sent ≡ (D.view dev.old).sent }
    ensures any_moment { D.told → IsFirm (D.view dev.old) → LeavesOnly (D.view dev.old) (D.view dev.new)
        (λ x f. StandAlike (D.view dev.old).reads x × (f ≡ (D.view dev.old).sent)) }
    // Where no sweep had begun, a crash leaves no more to be reclaimed than at the start; and in the end nothing is.
    ensures any_debt { D.told → IsFirm (D.view dev.old) → (tables_of (home (D.view dev.old).reads)).is_sweeping
        ≡ false → LeavesOnly (D.view dev.old) (D.view dev.new) (λ x f. debt x ≤ debt (D.view dev.old).reads) }
    ensures settled { D.told → OnOk result (debt (D.view dev.new).reads ≡ 0) }
    // Where the image fails one of the tests that need no write, nothing is written, and the disk reads as before;
    // where it fails another, nothing is lost that a repair could use, whatever is answered.
    ensures untouched { D.told → IsForeign (D.view dev.old).reads → IsUntouched (D.view dev.old) (D.view dev.new) }
    ensures spared { D.told → SparesDamaged (D.view dev.old) (D.view dev.new) }
    /// promise (with unwritten, paid): What is written goes by what is replayed, and by what is left to be swept and
    /// reclaimed; where nothing was left to be done, nothing is written, and nothing is owed.
    ensures uses { D.told → Uses (opening_writes (D.view dev.old).reads) (D.view dev.old) (D.view dev.new) }
    ensures unwritten { D.told → IsQuiet (D.view dev.old).reads → (D.view dev.new).writes
        ≤ (D.view dev.old).writes }
    ensures paid { D.told → IsQuiet (D.view dev.old).reads → IfOk result (λ v. (D.view dev.new).writes + due v
        ≤ (D.view dev.old).writes) }
    // The data of all blocks, of free ones too, and what lies behind the image stay, in each image that a crash leaves.
    ensures data_kept { D.told → IsFirm (D.view dev.old) → LeavesData (D.view dev.old) (D.view dev.new) }
    ensures behind { D.told → IsFirm (D.view dev.old) → LeavesBehind (D.view dev.old) (D.view dev.new) }
    // The clauses of the device, of what only opens an image, as one record.
    ensures opens { OnlyOpens D.told (D.view dev.old) (D.view dev.new) }
    ensures works { Works (D.view dev.old) (D.view dev.new) }
    ensures faults { CountsFaultOf Status.DeviceFault result (D.view dev.old).faults (D.view dev.new).faults }
{
    match open_image(alloc, dev) {
        Ok(volume) => Ok(volume),
        Err(why) => Err(status_of(why)),
    }
}

/// Opens the disk of an image, with no session open. What is wrong comes as the status that says so.
pub fn open_core<D: Device>(alloc: Global, dev: &mut D) -> Result<Core, Status>
    /// promise (with at, state, none): The disk of the world for which the image stands, with no session open, or why
    /// it wasn't opened as a status.
    ensures read { D.told → IsOpened (D.view dev.old).reads result }
    ensures stops { IfErr result IsUnopened }
    ensures ready { IfOk result IsCoreReady }
    // No session is open, told or not.
    ensures none { IfOk result (λ c. c.grants.sessions ≡ no_sessions) }
    ensures at { D.told → IfOk result (λ c. IsCoreAt c (D.view dev.new)) }
    ensures state { D.told → IfOk result (λ c. state_on c (D.view dev.new).reads
        ≡ at_rest (world_of (D.view dev.old).reads)) }
    // The rest as for `open_volume`.
    ensures sent { D.told → (D.view dev.new).sent ≡ (D.view dev.old).sent }
    ensures any_moment { D.told → IsFirm (D.view dev.old) → LeavesOnly (D.view dev.old) (D.view dev.new)
        (λ x f. StandAlike (D.view dev.old).reads x × (f ≡ (D.view dev.old).sent)) }
    ensures any_debt { D.told → IsFirm (D.view dev.old) → (tables_of (home (D.view dev.old).reads)).is_sweeping
        ≡ false → LeavesOnly (D.view dev.old) (D.view dev.new) (λ x f. debt x ≤ debt (D.view dev.old).reads) }
    ensures settled { D.told → OnOk result (debt (D.view dev.new).reads ≡ 0) }
    ensures untouched { D.told → IsForeign (D.view dev.old).reads → IsUntouched (D.view dev.old) (D.view dev.new) }
    ensures spared { D.told → SparesDamaged (D.view dev.old) (D.view dev.new) }
    ensures uses { D.told → Uses (opening_writes (D.view dev.old).reads) (D.view dev.old) (D.view dev.new) }
    ensures unwritten { D.told → IsQuiet (D.view dev.old).reads → (D.view dev.new).writes
        ≤ (D.view dev.old).writes }
    ensures paid { D.told → IsQuiet (D.view dev.old).reads
        → IfOk result (λ c. (D.view dev.new).writes + due c.volume ≤ (D.view dev.old).writes) }
    ensures data_kept { D.told → IsFirm (D.view dev.old) → LeavesData (D.view dev.old) (D.view dev.new) }
    ensures behind { D.told → IsFirm (D.view dev.old) → LeavesBehind (D.view dev.old) (D.view dev.new) }
    ensures works { Works (D.view dev.old) (D.view dev.new) }
    ensures faults { CountsFaultOf Status.DeviceFault result (D.view dev.old).faults (D.view dev.new).faults }
{
    let volume = open_volume(alloc, dev)?;
    Ok(Core::new(alloc, volume))
}

/// The status that says why an image wasn't opened.
fn status_of(why: OpenFault) -> Status
    ensures { result ≡ status_of why }
{
    match why {
        OpenFault::Image(fault) => Status::NotImage(fault),
        OpenFault::Device => Status::DeviceFault,
        OpenFault::NoMemory => Status::NoMemory,
    }
}
