//! `audit`: which blocks the primary blocks lead to, as a certificate.

ghost use Rattle.std.specs.Prelude.{IfOk, IfErr};
ghost use Rattle.image_device.specs.Counts.{CountsFaultOf};
ghost use Rattle.image_device.specs.Runs.{IsFirm, LeavesOnly};
ghost use Rattle.image_world.specs.Behind.{LeavesBehind};
ghost use Rattle.recovery.specs.Opening.{IsForeign, IsUntouched, LeavesData, SparesDamaged, StandAlike};
ghost use Rattle.image_runs.specs.Looking.{OnlyLooks, OnlyOpens};
ghost use Rattle.image_runs.specs.Opened.{IsJudged, IsUnopened};
ghost use Rattle.image_runs.specs.Sending.{IsEnding};
ghost use Rattle.serving.specs.Faults.{TellsPortFaults};
ghost use Rattle.audit_runs.specs.Audit.{HasAudited, IsAuditing, IsAuditOf, listings_text};
ghost use Rattle.image_audit.specs.Laws.{listings_from};

use crate::listings::put_listings;
use image_audit::{Reached, primary_roots};
use image_device::{Device, Port};
use image_runs::{ended, open_volume};
use std::alloc::Global;
use tsd_words::Status;

/// Opens an image and puts a line for each block that its primary blocks lead to, ascending: how many pointers the
/// shortest path to it has, and the least block one level up that points to it.
///
/// The status is Done, NotImage where the image stands for no world, DeviceFault or PutFault where that count rose, or
/// NoMemory where none was found to open the image or to search it.
pub fn audit_image<P: Port>(alloc: Global, port: &mut P) -> Status
    ensures ending { IsEnding result }
    /// promise: The certificate of the world for which the image stands is sent: whole after Done, a proper front of it
    /// after a put that failed, and else nothing.
    ensures said { P.told → HasAudited result (P.view port.old).reads (P.view port.old).sent (P.view port.new).sent }
    /// promise (with spared, behind): Where the image fails one of the first three tests, nothing is written, and it
    /// reads as before; where it fails another, nothing is lost that a repair could use, whatever is answered; what
    /// lies after the image is as it was.
    ensures untouched { P.told → IsForeign (P.view port.old).reads
        → IsUntouched (P.view port.old) (P.view port.new) }
    ensures spared { P.told → SparesDamaged (P.view port.old) (P.view port.new) }
    // However it ends, a crash at any moment leaves what lies behind the image as it was.
    ensures behind { P.told → IsFirm (P.view port.old) → LeavesBehind (P.view port.old) (P.view port.new) }
    /// promise: Each image left stands for the same world as the one at the start, or for none as that one.
    ensures any_moment { P.told → IsFirm (P.view port.old) → LeavesOnly (P.view port.old) (P.view port.new)
        (λ x f. StandAlike (P.view port.old).reads x × IsAuditing (P.view port.old).reads (P.view port.old).sent f) }
    /// promise (with kept): Where nothing is left to be done on the image nothing is written, and else no more than an
    /// opening writes, however it ends; the data of all blocks is as it was in each image left, of free ones too.
    ensures only { P.told → OnlyLooks (P.view port.old) (P.view port.new) }
    ensures kept { P.told → IsFirm (P.view port.old) → LeavesData (P.view port.old) (P.view port.new) }
    ensures faults { TellsPortFaults result (P.view port.old) (P.view port.new) }
{
    match find(alloc, port) {
        Ok(reached) => ended(put_listings(&reached, port), Status::Done),
        Err(why) => why,
    }
}

/// Opens an image and searches it from its primary blocks.
fn find<D: Device>(alloc: Global, dev: &mut D) -> Result<Reached, Status>
    ensures found { D.told → IfOk result (λ entries. IsAuditOf (D.view dev.old).reads
        (listings_text (listings_from 0 entries))) }
    ensures judged { D.told → IfErr result (IsJudged (D.view dev.old).reads) }
    ensures stops { IfErr result IsUnopened }
    // It does no more than open the image.
    ensures opens { OnlyOpens D.told (D.view dev.old) (D.view dev.new) }
    ensures faults { CountsFaultOf Status.DeviceFault result (D.view dev.old).faults (D.view dev.new).faults }
{
    match open_volume(alloc, dev) {
        Ok(volume) => {
            let _size = volume.geometry();
            match Reached::new(alloc, &volume, &primary_roots(&volume)) {
                Ok(reached) => Ok(reached),
                Err(_) => Err(Status::NoMemory),
            }
        }
        Err(why) => Err(why),
    }
}
