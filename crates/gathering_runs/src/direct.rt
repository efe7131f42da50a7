// A request that no batch holds.
ghost use Rattle.std.specs.Prelude.{◌≡◌, ◌≤◌, ◌+◌, ◌-◌, ◌∷◌, [], OnOk, IfErr};
ghost use Rattle.image_device.specs.Calls.{Uses};
ghost use Rattle.image_device.specs.Counts.{CountsFault, CountsFaultOf};
ghost use Rattle.image_device.specs.Runs.{IsFirm, LeavesOnly};
ghost use Rattle.intent_journal.specs.Crash.{IsBefore};
ghost use Rattle.intent_journal.specs.Home.{home, is_journal, AgreeBut};
ghost use Rattle.intent_journal.specs.Records.{AreClosed};
ghost use Rattle.intent_journal.specs.Ring.{IsRingAt};
ghost use Rattle.gathering.specs.Gathered.{cleared};
ghost use Rattle.serving.specs.Handling.{FitsDevice};
ghost use Rattle.serving.specs.Prompt.{IsOfPort, mark};
ghost use Rattle.serving.specs.Voice.{spoken};
ghost use Rattle.gathering_runs.specs.ByTurns.{IsReplied, IsTurn};
ghost use Rattle.gathering_runs.specs.Turns.{StandsBetween, StopsBy, Turned};

use crate::group::Disk;
use crate::handler::GroupHandler;
use image_device::{Failed, Port};
use intent_journal::Ring;
use serving::{Protocol, Replies};
use tsd_model::{Reply, Request};
use tsd_words::Status;

/// Carries out a request on the device itself, whose journal is emptied before it and behind it.
pub(crate) fn serve_direct<P: Port, R: Protocol<Request = Request> + Replies, H: GroupHandler>(
    server: &mut H,
    request: &Request,
    disk: &mut Disk<P>,
) -> Result<(), Status>
    requires ready { H.is_ready server.old }
    requires waits { H.may_wait request.now }
    requires between { P.told → StandsBetween (H.holds server.old) disk.old.ring (P.view disk.old.port) }
    ensures did { P.told → Turned result (spoken H.rules R.voice) (H.aside server.old)
        (H.state server.old (cleared (P.view disk.old.port).reads))
        (H.state server.new (cleared (P.view disk.new.port).reads)) (P.view disk.old.port) (P.view disk.new.port)
        (request.now ∷ []) }
    ensures turn { P.told → OnOk result (IsTurn (spoken H.rules R.voice) H.work H.may_wait (IsOfPort P.view)
        (H.state server.old (cleared (P.view disk.old.port).reads)) (request.now ∷ [])
        (H.state server.new (cleared (P.view disk.new.port).reads)) (mark (P.view disk.old.port))
        (mark (P.view disk.new.port))) }
    ensures aside { H.aside server.new ≡ H.aside server.old }
    ensures ready { OnOk result (H.is_ready server.new) }
    ensures between { P.told → OnOk result (StandsBetween (H.holds server.new) disk.new.ring (P.view disk.new.port)) }
    ensures stops { IfErr result StopsBy }
    ensures device_fault { CountsFaultOf Status.DeviceFault result (P.view disk.old.port).faults
        (P.view disk.new.port).faults }
    ensures put_fault { CountsFaultOf Status.PutFault result (P.view disk.old.port).put_faults
        (P.view disk.new.port).put_faults }
{
    if empty_journal(&mut disk.ring, &mut disk.port).is_err() {
        return Err(Status::DeviceFault);
    }
    answer::<P, R, H>(server, request, &mut disk.port)
}

/// Puts the records of the journal in place and closes its gates, on the device itself. `Failed` comes only where the
/// device's count of faults rose.
fn empty_journal<P: Port>(ring: &mut Ring, port: &mut P) -> Result<(), Failed>
    requires { P.told → IsRingAt ring.old (P.view port.old) }
    ensures at { P.told → OnOk result (IsRingAt [] (P.view port.new)) }
    ensures empty { OnOk result (ring.new ≡ []) }
    ensures done { P.told → OnOk result (AgreeBut is_journal (home (P.view port.old).reads) (P.view port.new).reads) }
    ensures firm { P.told → OnOk result (IsFirm (P.view port.new)) }
    ensures sent { P.told → (P.view port.new).sent ≡ (P.view port.old).sent }
    ensures any_moment { P.told → LeavesOnly (P.view port.old) (P.view port.new)
        (λ x f. IsBefore (P.view port.old) x × (f ≡ (P.view port.old).sent)) }
    ensures uses { Uses 121 (P.view port.old) (P.view port.new) }
    ensures faults { CountsFault result (P.view port.old).faults (P.view port.new).faults }
{
    ring.checkpoint(port)
}

/// Carries out a request on a device whose journal is closed, sends its reply, does some of what is left to be done,
/// and closes the journal again.
fn answer<P: Port, R: Protocol<Request = Request> + Replies, H: GroupHandler>(
    server: &mut H,
    request: &Request,
    port: &mut P,
) -> Result<(), Status>
    requires ready { H.is_ready server.old }
    requires at { P.told → FitsDevice (H.holds server.old) (P.view port.old) }
    ensures did { P.told → Turned result (spoken H.rules R.voice) (H.aside server.old)
        (H.state server.old (P.view port.old).reads) (H.state server.new (P.view port.new).reads) (P.view port.old)
        (P.view port.new) (request.now ∷ []) }
    ensures prompt { P.told → OnOk result (IsReplied H.work (IsOfPort P.view)
        (H.state server.old (P.view port.old).reads) request.now (mark (P.view port.old)) (mark (P.view port.new))) }
    ensures left { P.told → H.work.bounded request.now → OnOk result (H.owed server.new ≤ H.owed server.old
        + H.work.made (H.state server.old (P.view port.old).reads) request.now - 4) }
    ensures aside { H.aside server.new ≡ H.aside server.old }
    ensures ready { OnOk result (H.is_ready server.new) }
    ensures at { P.told → OnOk result (FitsDevice (H.holds server.new) (P.view port.new)) }
    ensures closed { P.told → OnOk result (AreClosed (P.view port.new).reads) }
    ensures stops { IfErr result StopsBy }
    ensures device_fault { CountsFaultOf Status.DeviceFault result (P.view port.old).faults (P.view port.new).faults }
    ensures put_fault { CountsFaultOf Status.PutFault result (P.view port.old).put_faults
        (P.view port.new).put_faults }
{
    let mut reply = Reply::Done;
    match server.apply(port, request, &mut reply) {
        Ok(()) => {}
        Err(_) => return Err(Status::DeviceFault),
    }
    if R::put_reply(port, &reply).is_err() {
        return Err(Status::PutFault);
    }
    if server.settle_some(port).is_err() {
        return Err(Status::DeviceFault);
    }
    if server.empty_ring(port).is_err() {
        return Err(Status::DeviceFault);
    }
    Ok(())
}
