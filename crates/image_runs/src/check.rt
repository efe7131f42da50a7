//! `check` and `info`: how large the world of an image is, or what is wrong with it.

ghost use Rattle.std.specs.Prelude.{◌≡◌, IfOk, IfErr};
ghost use Rattle.image_device.specs.Counts.{CountsFaultOf};
ghost use Rattle.image_device.specs.Runs.{IsFirm, LeavesOnly};
ghost use Rattle.image_world.specs.Behind.{LeavesBehind};
ghost use Rattle.recovery.specs.Opening.{IsForeign, IsUntouched, LeavesData, SparesDamaged, StandAlike};
ghost use Rattle.volume_laws.specs.Volume.{IsVolumeReady, told_by};
ghost use Rattle.serving.specs.Faults.{TellsPortFaults};
ghost use Rattle.image_runs.specs.Looking.{OnlyLooks, OnlyOpens};
ghost use Rattle.image_runs.specs.Sending.{IsEnding, IsStopped};
ghost use Rattle.image_runs.specs.Check.{HasChecked, IsFinding, IsCheckFound, IsSaying, told_of};

use crate::ending::put_text;
use crate::opening::open_volume;
use image_device::{Device, Port};
use script_text::OutBuf;
use std::alloc::Global;
use tsd_words::{Status, clean_line, image_line, info_lines};
use volume::Volume;

/// What is told of an image that stands for a world.
#[derive(Clone, Copy, Debug, PartialEq, Eq)]
pub enum Telling {
    /// One line: how many of its blocks are live and how many free, and how many pointers are held.
    Clean,

    /// Its version and its size too, a name and a value in each line.
    Info,
}

/// Opens an image and puts what is asked for of its world; or, where it stands for no world, a line with the first test
/// that it fails.
///
/// The status is Done or NotImage by what was found, DeviceFault or PutFault where that count rose, or NoMemory where
/// none was found to open the image.
pub fn check_image<P: Port>(alloc: Global, port: &mut P, telling: Telling) -> Status
    /// promise: No other status comes than Done, NotImage, DeviceFault, PutFault and NoMemory.
    ensures ending { IsEnding result }
    /// promise: After Done and NotImage one line: `clean` with the numbers of the world for which the image stands, or
    /// the first test that it fails; Done comes with the one, NotImage with the other. Or the lines of `info`.
    ensures said { P.told → HasChecked telling result (P.view port.old).reads (P.view port.old).sent
        (P.view port.new).sent }
    /// promise (with spared): Where the image fails one of the first three tests, nothing is written, and it reads as
    /// before; where it fails another, nothing is lost that a repair could use, whatever is answered.
    ensures untouched { P.told → IsForeign (P.view port.old).reads
        → IsUntouched (P.view port.old) (P.view port.new) }
    ensures spared { P.told → SparesDamaged (P.view port.old) (P.view port.new) }
    /// promise: Each image left stands for the same world, or for none where the image stood for none; nothing was sent
    /// by then, or a front of those lines.
    ensures any_moment { P.told → IsFirm (P.view port.old) → LeavesOnly (P.view port.old) (P.view port.new)
        (λ x f. StandAlike (P.view port.old).reads x
        × IsSaying telling (P.view port.old).reads (P.view port.old).sent f) }
    /// promise (with kept): Where nothing is left to be done on the image nothing is written, and else no more than
    /// an opening writes, however it ends; the data of all blocks is as it was in each image left, of free ones too.
    ensures only { P.told → OnlyLooks (P.view port.old) (P.view port.new) }
    ensures kept { P.told → IsFirm (P.view port.old) → LeavesData (P.view port.old) (P.view port.new) }
    /// promise: What lies after the image is as it was in each image left.
    ensures behind { P.told → IsFirm (P.view port.old) → LeavesBehind (P.view port.old) (P.view port.new) }
    /// promise: A count of faults rose exactly where the status is that fault's.
    ensures faults { TellsPortFaults result (P.view port.old) (P.view port.new) }
{
    let mut line = OutBuf::new();
    match judge(alloc, port, telling, &mut line) {
        Ok(found) => put_text(port, &line, found),
        Err(why) => why,
    }
}

/// Opens an image. The text is left that says what was found.
fn judge<D: Device>(
    alloc: Global,
    dev: &mut D,
    telling: Telling,
    line: &mut OutBuf,
) -> Result<Status, Status>
    ensures finding { IfOk result IsFinding }
    ensures failing { IfErr result IsStopped }
    ensures found { D.told → IfOk result (λ s. IsCheckFound telling (D.view dev.old).reads s line.new) }
    // It does no more than open the image.
    ensures opens { OnlyOpens D.told (D.view dev.old) (D.view dev.new) }
    ensures faults { CountsFaultOf Status.DeviceFault result (D.view dev.old).faults (D.view dev.new).faults }
{
    match open_volume(alloc, dev) {
        Ok(volume) => {
            *line = world_text(&volume, telling);
            Ok(Status::Done)
        }
        Err(Status::NotImage(fault)) => {
            image_line(&fault, line);
            Ok(Status::NotImage(fault))
        }
        Err(why) => Err(why),
    }
}

/// What is told of a volume's world.
fn world_text(volume: &Volume, telling: Telling) -> OutBuf
    requires { IsVolumeReady volume.now }
    ensures { result ≡ told_of telling (told_by volume.now) }
{
    let size = volume.geometry();
    let free = volume.free_count();
    match telling {
        Telling::Clean => clean_line(size.blocks - free, free, volume.pointers()),
        Telling::Info => info_lines(volume.version(), &size, free, volume.pointers()),
    }
}
