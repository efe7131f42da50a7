//! The loop over a core.

ghost use Rattle.std.specs.Prelude.{◌≡◌, ◌≢◌, ◌≤◌, [], true};
ghost use Rattle.image_device.specs.Runs.{LeavesPart};
ghost use Rattle.image_world.specs.Behind.{behind};
ghost use Rattle.serving.specs.Faults.{TellsFaults};
ghost use Rattle.serving.specs.Goes.{IsFresh};
ghost use Rattle.serving.specs.Prompt.{IsOfPort, Promptly, mark};
ghost use Rattle.serving.specs.Ran.{EndsOnce, Ran, moments, taking};
ghost use Rattle.serving.specs.Voice.{spoken};
ghost use Rattle.tsd_core.specs.Core.{IsCoreAt, IsCoreReady};
ghost use Rattle.volume_laws.specs.Quiet.{IsQuiet};
ghost use Rattle.volume_laws.specs.Writes.{due};
ghost use Rattle.image_runs.specs.Server.{disk_rules, disk_work, placed_on};

use crate::server::CoreServer;
use image_device::{Port, Source};
use place_policy::Placement;
use serving::{INPUT_MAX, Intake, Protocol, Replies, serve_in};
use tsd_core::Core;
use tsd_model::Request;
use tsd_words::Status;

/// Serves the requests of an input by a core until it ends, as `serving::serve_in` does, in the room of an intake. Free
/// blocks are taken by `placement`.
pub fn serve_core_in<S: Source, P: Port, R: Protocol<Request = Request> + Replies>(
    core: &mut Core,
    placement: &Placement,
    protocol: &mut R,
    source: &mut S,
    port: &mut P,
    limit: u64,
    intake: &mut Intake,
) -> Status
    requires few { limit ≤ INPUT_MAX }
    requires fresh { R.was_fed [] protocol.old }
    requires room { IsFresh intake.old limit }
    requires ready { IsCoreReady core.old }
    requires at { P.told → IsCoreAt core.old (P.view port.old) }
    /// promise: As for `serving::serve`, by the rules of the abstract disk.
    ensures ran { Ran result (spoken disk_rules R.voice) disk_work R.spelling
        (placed_on placement.now.kind core.old (P.view port.old).reads)
        (placed_on placement.now.kind core.new (P.view port.new).reads) limit
        (taking S.told S.taken S.left_bytes S.ended source.old source.new) (due core.old.volume)
        (moments P.told P.view port.old port.new) }
    /// promise: The requests that were answered so are the first of those that came in, and all of them unless the
    /// device or the sending failed. No write comes before the reply of a request that is refused, nor before that of a
    /// `Begin`, `End`, `Read`, `List` or `GetFree`; at most 131 before that of a `Write`, 124 before that of a
    /// `SetCap`, 125 before that of a `Delete`, and 600 before that of an allocation or a `Create`, with 12 for each
    /// block and pair that waits; and at most 400 after a reply.
    ensures prompt { P.told → Promptly result (spoken disk_rules R.voice) disk_work (IsOfPort P.view) R.spelling limit
        (placed_on placement.now.kind core.old (P.view port.old).reads)
        (taking S.told S.taken S.left_bytes S.ended source.old source.new) (mark (P.view port.old))
        (mark (P.view port.new)) }
    // Unless the device failed, the core may be used again; else it is spent.
    ensures ready { result ≢ Status.DeviceFault → IsCoreReady core.new }
    ensures at { result ≢ Status.DeviceFault → P.told → IsCoreAt core.new (P.view port.new) }
    ensures spent { result ≡ Status.DeviceFault → core.new.volume.is_spent ≡ true }
    ensures closed { result ≡ Status.Done → P.told → IsQuiet (P.view port.new).reads }
    /// promise: What lies after the image is as it was in each image that a crash leaves.
    ensures behind { P.told → LeavesPart (behind core.old.volume.tables.geometry) (P.view port.old) (P.view port.new) }
    ensures once { EndsOnce (S.ends source.old) (S.ends source.new) }
    ensures faults { TellsFaults result (S.faults source.old) (S.faults source.new) (P.view port.old)
        (P.view port.new) }
{
    let mut server = CoreServer { core, placement };
    serve_in(&mut server, protocol, source, port, limit, intake)
}
