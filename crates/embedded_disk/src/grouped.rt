//! An image opened, and frames served in groups.

ghost use Rattle.serving.specs.Faults.{TellsFaults};
ghost use Rattle.serving.specs.Ran.{EndsOnce, moments, taking};
ghost use Rattle.embedded_disk.specs.Calls.{ServedFrames};

use image_device::{Port, Source};
use image_groups::serve_port_in_groups;
use place_policy::Placement;
use request_frames::FrameCutter;
use serving::INPUT_MAX;
use std::alloc::Global;
use tsd_words::Status;

/// Opens an image, answers the frames of an input until it ends, and lets go of the image: with no session open at the
/// start, and those frames committed together that lie there together.
///
/// The status is NotImage where the image stands for no world, NoMemory where none was found, DeviceFault, SourceFault
/// or PutFault where that count rose, TooLong, Truncated, or Done.
pub fn serve_frames<S: Source, P: Port>(
    alloc: Global,
    placement: &Placement,
    source: &mut S,
    port: &mut P,
) -> Status
    /// promise: **What `group` promises, said of the one call**: by the status what came in, what was sent, what a
    /// crash at any moment may have left, and what the disk is after Done; or there was no memory, and nothing was
    /// called.
    ensures ran { ServedFrames result placement.now.kind
        (taking S.told S.taken S.left_bytes S.ended source.old source.new) (moments P.told P.view port.old port.new) }
    /// promise: Nothing is taken after the end of the input was found.
    ensures once { EndsOnce (S.ends source.old) (S.ends source.new) }
    /// promise: A count of faults rose exactly where the status is that fault's.
    ensures faults { TellsFaults result (S.faults source.old) (S.faults source.new) (P.view port.old)
        (P.view port.new) }
{
    match FrameCutter::new(alloc) {
        Ok(mut cutter) => serve_port_in_groups(
            alloc,
            placement,
            &mut cutter,
            source,
            port,
            INPUT_MAX,
        ),
        Err(_) => Status::NoMemory,
    }
}
