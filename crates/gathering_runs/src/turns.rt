// Turns: groups, and requests on the device itself, one after another.
ghost use Rattle.std.specs.Prelude.{◌≡◌, ◌<◌, ◌≤◌, ◌++◌, ◌∷◌, [], List, OnOk, IfOk, IfErr, true, false};
ghost use Rattle.image_device.specs.Counts.{CountsFaultOf};
ghost use Rattle.gathering.specs.Gathered.{cleared};
ghost use Rattle.serving.specs.Goes.{remaining, unread};
ghost use Rattle.serving.specs.Prompt.{IsOfPort, mark};
ghost use Rattle.serving.specs.Voice.{spoken};
ghost use Rattle.gathering_runs.specs.ByTurns.{AnswersByTurns, IsTurn};
ghost use Rattle.gathering_runs.specs.Turns.{HandsOut, StandsBetween, StopsBy, Turned, waits_by};
ghost use Rattle.tsd_model.specs.declared.requests.Request.{Request as Asked};

use crate::direct::serve_direct;
use crate::group::{Disk, serve_group};
use crate::handler::GroupHandler;
use crate::room::HOMES_MAX;
use crate::settle::settle_in_groups;
use image_device::Port;
use serving::{Intake, Protocol, Replies};
use std::marker::Brand;
use tsd_model::Request;
use tsd_words::Status;

/// Serves the request that stands in the room, and all behind it that lie there.
pub(crate) fn serve_in_hand<P: Port, R: Protocol<Request = Request> + Replies, H: GroupHandler>(
    server: &mut H,
    protocol: &mut R,
    intake: &mut Intake,
    request: &mut Request,
    disk: Disk<P>,
) -> (Disk<P>, Result<(), Status>)
    requires ready { H.is_ready server.old }
    requires between { P.told → StandsBetween (H.holds server.old) disk.ring (P.view disk.port) }
    ensures did { (done : List Asked) × HandsOut R.spelling (λ x. R.was_fed x protocol.old)
        (λ x. R.was_fed x protocol.new) intake.old intake.new done
        × (P.told → Turned result.1 (spoken H.rules R.voice) (H.aside server.old)
        (H.state server.old (cleared (P.view disk.port).reads))
        (H.state server.new (cleared (P.view result.0.port).reads)) (P.view disk.port) (P.view result.0.port)
        (request.old ∷ done))
        × (P.told → AnswersByTurns result.1 (spoken H.rules R.voice) H.work H.may_wait (IsOfPort P.view)
        (H.state server.old (cleared (P.view disk.port).reads))
        (H.state server.new (cleared (P.view result.0.port).reads)) (request.old ∷ done) (mark (P.view disk.port))
        (mark (P.view result.0.port))) }
    // All bytes that were taken are read.
    ensures read { OnOk result.1 (intake.old.over ≡ false → unread intake.new ≡ []) }
    ensures fewer { remaining intake.new ≤ remaining intake.old }
    ensures aside { H.aside server.new ≡ H.aside server.old }
    ensures ready { OnOk result.1 (H.is_ready server.new) }
    ensures between { P.told → OnOk result.1 (StandsBetween (H.holds server.new) result.0.ring
        (P.view result.0.port)) }
    ensures stops { IfErr result.1 StopsBy }
    ensures device_fault { CountsFaultOf Status.DeviceFault result.1 (P.view disk.port).faults
        (P.view result.0.port).faults }
    ensures put_fault { CountsFaultOf Status.PutFault result.1 (P.view disk.port).put_faults
        (P.view result.0.port).put_faults }
{
    let mut disk = disk;
    loop {
        let (left, turned) = serve_turn::<P, R, H>(server, protocol, intake, request, disk);
        disk = left;
        match turned {
            Ok(true) => {}
            Ok(false) => return (disk, Ok(())),
            Err(why) => return (disk, Err(why)),
        }
    }
}

/// Serves the request that stands in the room; whether one waits there then. Where it doesn't fit a batch, what is
/// left to be done is done first, since it may have to wait for that.
fn serve_turn<P: Port, R: Protocol<Request = Request> + Replies, H: GroupHandler>(
    server: &mut H,
    protocol: &mut R,
    intake: &mut Intake,
    request: &mut Request,
    disk: Disk<P>,
) -> (Disk<P>, Result<bool, Status>)
    requires ready { H.is_ready server.old }
    requires between { P.told → StandsBetween (H.holds server.old) disk.ring (P.view disk.port) }
    ensures did { (done : List Asked) × HandsOut R.spelling (λ x. R.was_fed x protocol.old)
        (λ x. R.was_fed x protocol.new) intake.old intake.new (done ++ waits_by result.1 request.new)
        × (P.told → Turned result.1 (spoken H.rules R.voice) (H.aside server.old)
        (H.state server.old (cleared (P.view disk.port).reads))
        (H.state server.new (cleared (P.view result.0.port).reads)) (P.view disk.port) (P.view result.0.port)
        (request.old ∷ done))
        × (P.told → OnOk result.1 (IsTurn (spoken H.rules R.voice) H.work H.may_wait (IsOfPort P.view)
        (H.state server.old (cleared (P.view disk.port).reads)) (request.old ∷ done)
        (H.state server.new (cleared (P.view result.0.port).reads)) (mark (P.view disk.port))
        (mark (P.view result.0.port)))) }
    ensures less { IfOk result.1 (λ waits. waits ≡ true → remaining intake.new < remaining intake.old) }
    ensures read { IfOk result.1 (λ waits. waits ≡ false → intake.old.over ≡ false → unread intake.new ≡ []) }
    ensures fewer { remaining intake.new ≤ remaining intake.old }
    ensures aside { H.aside server.new ≡ H.aside server.old }
    ensures ready { OnOk result.1 (H.is_ready server.new) }
    ensures between { P.told → OnOk result.1 (StandsBetween (H.holds server.new) result.0.ring
        (P.view result.0.port)) }
    ensures stops { IfErr result.1 StopsBy }
    ensures device_fault { CountsFaultOf Status.DeviceFault result.1 (P.view disk.port).faults
        (P.view result.0.port).faults }
    ensures put_fault { CountsFaultOf Status.PutFault result.1 (P.view disk.port).put_faults
        (P.view result.0.port).put_faults }
{
    if server.homes(request) <= HOMES_MAX {
        return serve_caught_up::<P, R, H>(server, protocol, intake, request, disk);
    }
    let (left, settled) = settle_in_groups::<P, R, H>(server, disk, true, 0);
    match settled {
        Ok(()) => serve_settled::<P, R, H>(server, protocol, intake, request, left),
        Err(why) => (left, Err(why)),
    }
}

/// Serves the request that stands in the room: as a group with those behind it, or where no batch holds it alone, on
/// the device itself; whether a request waits in the room then.
fn serve_settled<P: Port, R: Protocol<Request = Request> + Replies, H: GroupHandler>(
    server: &mut H,
    protocol: &mut R,
    intake: &mut Intake,
    request: &mut Request,
    disk: Disk<P>,
) -> (Disk<P>, Result<bool, Status>)
    requires ready { H.is_ready server.old }
    requires between { P.told → StandsBetween (H.holds server.old) disk.ring (P.view disk.port) }
    ensures did { (done : List Asked) × HandsOut R.spelling (λ x. R.was_fed x protocol.old)
        (λ x. R.was_fed x protocol.new) intake.old intake.new (done ++ waits_by result.1 request.new)
        × (P.told → Turned result.1 (spoken H.rules R.voice) (H.aside server.old)
        (H.state server.old (cleared (P.view disk.port).reads))
        (H.state server.new (cleared (P.view result.0.port).reads)) (P.view disk.port) (P.view result.0.port)
        (request.old ∷ done))
        × (P.told → OnOk result.1 (IsTurn (spoken H.rules R.voice) H.work H.may_wait (IsOfPort P.view)
        (H.state server.old (cleared (P.view disk.port).reads)) (request.old ∷ done)
        (H.state server.new (cleared (P.view result.0.port).reads)) (mark (P.view disk.port))
        (mark (P.view result.0.port)))) }
    ensures less { IfOk result.1 (λ waits. waits ≡ true → remaining intake.new < remaining intake.old) }
    ensures read { IfOk result.1 (λ waits. waits ≡ false → intake.old.over ≡ false → unread intake.new ≡ []) }
    ensures fewer { remaining intake.new ≤ remaining intake.old }
    ensures aside { H.aside server.new ≡ H.aside server.old }
    ensures ready { OnOk result.1 (H.is_ready server.new) }
    ensures between { P.told → OnOk result.1 (StandsBetween (H.holds server.new) result.0.ring
        (P.view result.0.port)) }
    ensures stops { IfErr result.1 StopsBy }
    ensures device_fault { CountsFaultOf Status.DeviceFault result.1 (P.view disk.port).faults
        (P.view result.0.port).faults }
    ensures put_fault { CountsFaultOf Status.PutFault result.1 (P.view disk.port).put_faults
        (P.view result.0.port).put_faults }
{
    if server.homes(request) <= HOMES_MAX {
        return serve_caught_up::<P, R, H>(server, protocol, intake, request, disk);
    }
    let mut disk = disk;
    match serve_direct::<P, R, H>(server, request, &mut disk) {
        Ok(()) => {
            let waits = intake.next_held(protocol, request);
            (disk, Ok(waits))
        }
        Err(why) => (disk, Err(why)),
    }
}

/// Serves the request that stands in the room and those behind it that lie there, as one group, and then makes the
/// steps of what is left to be done that lack behind the last one, in groups of their own.
fn serve_caught_up<P: Port, R: Protocol<Request = Request> + Replies, H: GroupHandler>(
    server: &mut H,
    protocol: &mut R,
    intake: &mut Intake,
    request: &mut Request,
    disk: Disk<P>,
) -> (Disk<P>, Result<bool, Status>)
    requires ready { H.is_ready server.old }
    requires between { P.told → StandsBetween (H.holds server.old) disk.ring (P.view disk.port) }
    ensures did { (done : List Asked) × HandsOut R.spelling (λ x. R.was_fed x protocol.old)
        (λ x. R.was_fed x protocol.new) intake.old intake.new (done ++ waits_by result.1 request.new)
        × (P.told → Turned result.1 (spoken H.rules R.voice) (H.aside server.old)
        (H.state server.old (cleared (P.view disk.port).reads))
        (H.state server.new (cleared (P.view result.0.port).reads)) (P.view disk.port) (P.view result.0.port)
        (request.old ∷ done))
        × (P.told → OnOk result.1 (IsTurn (spoken H.rules R.voice) H.work H.may_wait (IsOfPort P.view)
        (H.state server.old (cleared (P.view disk.port).reads)) (request.old ∷ done)
        (H.state server.new (cleared (P.view result.0.port).reads)) (mark (P.view disk.port))
        (mark (P.view result.0.port)))) }
    ensures less { IfOk result.1 (λ waits. waits ≡ true → remaining intake.new < remaining intake.old) }
    ensures read { IfOk result.1 (λ waits. waits ≡ false → intake.old.over ≡ false → unread intake.new ≡ []) }
    ensures fewer { remaining intake.new ≤ remaining intake.old }
    ensures aside { H.aside server.new ≡ H.aside server.old }
    ensures ready { OnOk result.1 (H.is_ready server.new) }
    ensures between { P.told → OnOk result.1 (StandsBetween (H.holds server.new) result.0.ring
        (P.view result.0.port)) }
    ensures stops { IfErr result.1 StopsBy }
    ensures device_fault { CountsFaultOf Status.DeviceFault result.1 (P.view disk.port).faults
        (P.view result.0.port).faults }
    ensures put_fault { CountsFaultOf Status.PutFault result.1 (P.view disk.port).put_faults
        (P.view result.0.port).put_faults }
{
    let mut lacking = 0;
    let (left, served) = serve_group::<P, R, H, Brand>(
        server,
        protocol,
        intake,
        request,
        disk,
        &mut lacking,
    );
    match served {
        Ok(waits) => {
            let (disk, settled) = settle_in_groups::<P, R, H>(server, left, false, lacking);
            match settled {
                Ok(()) => (disk, Ok(waits)),
                Err(why) => (disk, Err(why)),
            }
        }
        Err(why) => (left, Err(why)),
    }
}
