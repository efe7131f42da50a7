// One group, from its first request to its flush.
ghost use Rattle.std.specs.Prelude.{◌≡◌, ◌<◌, ◌≤◌, ◌++◌, ◌∷◌, [], List, OnOk, IfOk, IfErr, true, false};
ghost use Rattle.image_device.specs.Calls.{Uses};
ghost use Rattle.image_device.specs.Counts.{CountsFaultOf};
ghost use Rattle.gathering.specs.Gathered.{cleared, HasRested};
ghost use Rattle.serving.specs.Goes.{remaining, unread};
ghost use Rattle.serving.specs.Prompt.{mark};
ghost use Rattle.serving.specs.Voice.{spoken};
ghost use Rattle.gathering_runs.specs.ByTurns.{IsGroup, LeavesBut};
ghost use Rattle.gathering_runs.specs.Turns.{HandsOut, StandsBetween, StopsBy, Turned, waits_by, status_by};
ghost use Rattle.tsd_model.specs.declared.requests.Request.{Request as Asked};

use crate::gather::gather;
use crate::handler::GroupHandler;
use gathering::{Began, FlushFault, Flushed, Gather, Room};
use image_device::Port;
use intent_journal::Ring;
use serving::{Intake, Protocol, Replies};
use tsd_model::Request;
use tsd_words::Status;

/// The device, the records that are on it and not in place yet, and room for a group.
#[derive(Drop)]
pub(crate) struct Disk<P: Port> {
    pub(crate) port: P,
    pub(crate) ring: Ring,
    pub(crate) room: Room,
}

/// Carries out requests as one group, from the one that stands in the room on, and commits them; whether a request
/// waits in the room then, and how many steps of what is left to be done lack behind the last one.
pub(crate) fn serve_group<
    P: Port,
    R: Protocol<Request = Request> + Replies,
    H: GroupHandler,
    K: Began,
>(
    server: &mut H,
    protocol: &mut R,
    intake: &mut Intake,
    request: &mut Request,
    disk: Disk<P>,
    lacking: &mut u32,
) -> (Disk<P>, Result<bool, Status>)
    requires rests { P.told → HasRested K.start (P.view disk.port) }
    requires counts { Uses 0 K.start (P.view disk.port) }
    requires faults { (P.view disk.port).faults ≡ K.start.faults }
    requires ready { H.is_ready server.old }
    requires between { P.told → StandsBetween (H.holds server.old) disk.ring K.start }
    ensures did { (done : List Asked) × HandsOut R.spelling (λ x. R.was_fed x protocol.old)
        (λ x. R.was_fed x protocol.new) intake.old intake.new (done ++ waits_by result.1 request.new)
        × (P.told → Turned result.1 (spoken H.rules R.voice) (H.aside server.old)
        (H.state server.old (cleared K.start.reads)) (H.state server.new (cleared (P.view result.0.port).reads)) K.start
        (P.view result.0.port) (request.old ∷ done))
        × (P.told → OnOk result.1 (LeavesBut (spoken H.rules R.voice) H.work
        (H.state server.old (cleared K.start.reads)) K.start.sent (request.old ∷ done)
        (H.state server.new (cleared (P.view result.0.port).reads)) (P.view result.0.port).sent (H.owed server.old)
        (H.owed server.new) lacking.new)) }
    ensures lacks { OnOk result.1 (lacking.new ≤ 4) }
    ensures writes { IsGroup (mark K.start) (mark (P.view result.0.port)) }
    ensures less { IfOk result.1 (λ waits. waits ≡ true → remaining intake.new < remaining intake.old) }
    // Where none waits, all bytes that were taken are read.
    ensures read { IfOk result.1 (λ waits. waits ≡ false → intake.old.over ≡ false → unread intake.new ≡ []) }
    ensures fewer { remaining intake.new ≤ remaining intake.old }
    ensures aside { H.aside server.new ≡ H.aside server.old }
    ensures ready { OnOk result.1 (H.is_ready server.new) }
    ensures between { P.told → OnOk result.1 (StandsBetween (H.holds server.new) result.0.ring
        (P.view result.0.port)) }
    ensures stops { IfErr result.1 StopsBy }
    ensures device_fault { CountsFaultOf Status.DeviceFault result.1 K.start.faults (P.view result.0.port).faults }
    ensures put_fault { CountsFaultOf Status.PutFault result.1 K.start.put_faults (P.view result.0.port).put_faults }
{
    let Disk { port, ring, room } = disk;
    let mut gathering = Gather::<P, K>::new(port, ring, room);
    let gathered = gather::<R, H, Gather<P, K>>(
        server,
        protocol,
        intake,
        request,
        &mut gathering,
        lacking,
    );
    let Flushed {
        inner,
        ring,
        room,
        result,
    } = gathering.flush();
    let disk = Disk {
        port: inner,
        ring,
        room,
    };
    match result {
        Ok(()) => (disk, Ok(gathered.unwrap_or(false))),
        Err(fault) => (disk, Err(status_of(fault))),
    }
}

/// The status that tells of a fault.
pub(crate) fn status_of(fault: FlushFault) -> Status
    ensures { result ≡ status_by fault }
{
    match fault {
        FlushFault::Device => Status::DeviceFault,
        FlushFault::Put => Status::PutFault,
        FlushFault::Room => Status::NoMemory,
    }
}
