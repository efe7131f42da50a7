//! An image opened and served in groups.

ghost use Rattle.std.specs.Prelude.{◌≤◌, []};
ghost use Rattle.image_device.specs.Runs.{IsFirm};
ghost use Rattle.image_world.specs.Behind.{LeavesBehind};
ghost use Rattle.recovery.specs.Opening.{IsForeign, IsUntouched, SparesDamaged};
ghost use Rattle.serving.specs.Faults.{TellsFaults};
ghost use Rattle.serving.specs.Prompt.{IsOfPort};
ghost use Rattle.serving.specs.Ran.{EndsOnce, moments, taking};
ghost use Rattle.image_runs.specs.Opened.{IsJudged};
ghost use Rattle.image_groups.specs.Served.{ImageRanByRounds, ImageRanInGroups};

use crate::server::GroupServer;
use gathering_runs::serve_in_groups;
use image_device::{Port, Source};
use image_runs::open_core;
use place_policy::Placement;
use serving::{INPUT_MAX, Protocol, Replies};
use std::alloc::Global;
use tsd_model::Request;
use tsd_words::Status;

/// Opens an image and serves the requests of an input until it ends, with no session open at the start: those that lie
/// there together are committed as one batch, and then their replies are sent. Free blocks are taken by `placement`,
/// and at most `limit` bytes are served. It gives the port back.
///
/// The status is NotImage where the image stands for no world, NoMemory where none was found or a group had no room,
/// DeviceFault where that count rose, or else how the loop ended: Done, SourceFault or PutFault where that count rose,
/// TooLong, or Truncated.
pub fn serve_image_in_groups<S: Source, P: Port, R: Protocol<Request = Request> + Replies>(
    alloc: Global,
    placement: &Placement,
    protocol: &mut R,
    source: &mut S,
    port: P,
    limit: u64,
) -> (P, Status)
    requires few { limit ≤ INPUT_MAX }
    requires fresh { R.was_fed [] protocol.old }
    ensures read { P.told → IsJudged (P.view port).reads result.1 }
    // What came in and what was sent, by status; what a crash at any moment may have left; and what the disk is after
    // Done.
    /// promise (with read): **What `group` promises, from the image at the start to the last byte sent**: an image
    /// opened, and served in groups; by the status what came in, what was sent and what a crash leaves.
    ensures ran { ImageRanInGroups result.1 R.voice R.spelling placement.now.kind limit
        (taking S.told S.taken S.left_bytes S.ended source.old source.new) (moments P.told P.view port result.0) }
    // Round by round: no request that is whole waits while more input is taken.
    /// promise: What `serve_in_groups` says of its rounds, from a moment at which the image was opened, nothing was
    /// sent, and nothing was left to be reclaimed.
    ensures rounds { P.told → ImageRanByRounds result.1 R.voice R.spelling placement.now.kind (IsOfPort P.view) limit
        (taking S.told S.taken S.left_bytes S.ended source.old source.new) (P.view port) (P.view result.0) }
    // Where the image fails one of the tests that need no write, nothing is written, and the disk reads as before;
    // where it fails another, nothing is lost that a repair could use, whatever is answered.
    /// promise (with spared): Where the image fails one of the first three tests, nothing is written; where it fails
    /// another, nothing is lost that a repair could use, whatever is answered.
    ensures untouched { P.told → IsForeign (P.view port).reads → IsUntouched (P.view port) (P.view result.0) }
    ensures spared { P.told → SparesDamaged (P.view port) (P.view result.0) }
    /// promise: A crash at any moment leaves what lies after the end of the image as it was; of the records that say so
    /// there is one, and none is picked.
    ensures behind { P.told → IsFirm (P.view port) → ∥ LeavesBehind (P.view port) (P.view result.0) ∥₁ }
    /// promise: Nothing is taken after the end of the input was found.
    ensures once { EndsOnce (S.ends source.old) (S.ends source.new) }
    ensures faults { TellsFaults result.1 (S.faults source.old) (S.faults source.new) (P.view port) (P.view result.0) }
{
    let mut port = port;
    match open_core(alloc, &mut port) {
        Ok(mut core) => {
            let mut server = GroupServer {
                core: &mut core,
                placement,
                owes: false,
            };
            serve_in_groups(alloc, &mut server, protocol, source, port, limit)
        }
        Err(why) => (port, why),
    }
}
