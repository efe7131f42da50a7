//! One run over an image.

ghost use Rattle.std.specs.Prelude.{◌≤◌, []};
ghost use Rattle.image_device.specs.Runs.{IsFirm};
ghost use Rattle.image_world.specs.Behind.{LeavesBehind};
ghost use Rattle.recovery.specs.Opening.{IsForeign, IsUntouched, SparesDamaged};
ghost use Rattle.serving.specs.Faults.{TellsFaults};
ghost use Rattle.serving.specs.Prompt.{IsOfPort};
ghost use Rattle.serving.specs.Ran.{EndsOnce, moments, taking};
ghost use Rattle.image_runs.specs.Opened.{IsJudged};
ghost use Rattle.image_runs.specs.Served.{ImageRan, IsPromptRun};

use crate::opening::open_core;
use crate::run::serve_core_in;
use image_device::{Port, Source};
use place_policy::Placement;
use serving::{INPUT_MAX, Intake, Protocol, Replies};
use std::alloc::Global;
use tsd_model::Request;
use tsd_words::Status;

/// Opens an image and serves the requests of an input until it ends, with no session open at the start. Free blocks are
/// taken by `placement`, and at most `limit` bytes are served.
///
/// The status is NotImage where the image stands for no world, NoMemory where none was found to open it, DeviceFault
/// where that count rose, or else how the loop ended: Done, SourceFault or PutFault where that count rose, TooLong, or
/// Truncated.
#[tactic(none)]
pub fn serve_image<S: Source, P: Port, R: Protocol<Request = Request> + Replies>(
    alloc: Global,
    placement: &Placement,
    protocol: &mut R,
    source: &mut S,
    port: &mut P,
    limit: u64,
) -> Status
    requires few { limit ≤ INPUT_MAX }
    requires fresh { R.was_fed [] protocol.old }
    /// promise (with ran): **The headline, from the image at the start to the last byte sent**: an image opened and
    /// served, or why it wasn't opened; by the status what came in, what was sent and what a crash leaves, opening
    /// included; with bounds on writes and on what waits to be reclaimed.
    ensures read { P.told → IsJudged (P.view port.old).reads result }
    // What came in and what was sent, by status; what a crash at any moment may have left; and what the disk is after
    // Done.
    ensures ran { ImageRan result R.voice R.spelling placement.now.kind limit
        (taking S.told S.taken S.left_bytes S.ended source.old source.new) (moments P.told P.view port.old port.new) }
    /// promise: Each reply is prompt, as for `serve_core_in`.
    ensures prompt { P.told → IsPromptRun result R.voice placement.now.kind (IsOfPort P.view) R.spelling limit
        (taking S.told S.taken S.left_bytes S.ended source.old source.new) (P.view port.old) (P.view port.new) }
    /// promise (with spared): Where the image fails one of the first three tests, nothing is written, and it reads as
    /// before; where it fails another, nothing is lost that a repair could use, whatever is answered.
    ensures untouched { P.told → IsForeign (P.view port.old).reads
        → IsUntouched (P.view port.old) (P.view port.new) }
    ensures spared { P.told → SparesDamaged (P.view port.old) (P.view port.new) }
    /// promise: What lies after the image is as it was in each image that a crash leaves, however the run ended.
    ensures behind { P.told → IsFirm (P.view port.old) → LeavesBehind (P.view port.old) (P.view port.new) }
    ensures once { EndsOnce (S.ends source.old) (S.ends source.new) }
    ensures faults { TellsFaults result (S.faults source.old) (S.faults source.new) (P.view port.old)
        (P.view port.new) }
{
    match open_core(alloc, port) {
        Ok(mut core) => {
            let mut intake = Intake::new(limit);
            serve_core_in(
                &mut core,
                placement,
                protocol,
                source,
                port,
                limit,
                &mut intake,
            )
        }
        Err(why) => why,
    }
}
