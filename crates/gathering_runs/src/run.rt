//! The loop over an input.

ghost use Rattle.std.specs.Prelude.{◌≡◌, ◌≤◌, ◌+◌, [], OnOk, IfOk, IfErr};
ghost use Rattle.image_device.specs.Counts.{CountsFaultOf};
ghost use Rattle.gathering.specs.Gathered.{cleared};
ghost use Rattle.serving.specs.Faults.{TellsFaults};
ghost use Rattle.serving.specs.Handling.{FitsDevice};
ghost use Rattle.serving.specs.Prompt.{IsOfPort, mark};
ghost use Rattle.serving.specs.Ran.{EndsOnce, moments, taking};
ghost use Rattle.serving.specs.Voice.{spoken};
ghost use Rattle.gathering_runs.specs.ByTurns.{IsFinished};
ghost use Rattle.gathering_runs.specs.Rounds.{RanByRounds};
ghost use Rattle.gathering_runs.specs.Run.{RanInGroups};
ghost use Rattle.gathering_runs.specs.Turns.{StandsBetween, StopsBy, Turned};

use crate::group::Disk;
use crate::handler::GroupHandler;
use crate::settle::settle_in_groups;
use crate::turns::serve_in_hand;
use gathering::Room;
use image_device::{Port, Source};
use intent_journal::Ring;
use serving::{INPUT_MAX, Intake, Next, Protocol, Replies};
use std::alloc::Global;
use tsd_model::Request;
use tsd_words::Status;

/// Serves the requests of an input until it ends, in groups: those that lie there together are committed as one batch,
/// and then their replies are sent. In the end all that is left to be done is done.
///
/// The status is Done, or SourceFault, DeviceFault or PutFault where that count rose, NoMemory where none was found or
/// a group had no room, TooLong where a byte after the first `limit` came, or Truncated where the input ended inside a
/// request.
///
/// Between two rounds (`rounds`) the loop takes more input, and at no other time: that is shown by the code, since a
/// source and a port have no clock together.
pub fn serve_in_groups<
    S: Source,
    P: Port,
    R: Protocol<Request = Request> + Replies,
    H: GroupHandler,
>(
    alloc: Global,
    server: &mut H,
    protocol: &mut R,
    source: &mut S,
    port: P,
    limit: u64,
) -> (P, Status)
    requires few { limit ≤ INPUT_MAX }
    requires fresh { R.was_fed [] protocol.old }
    requires ready { H.is_ready server.old }
    requires at { P.told → FitsDevice (H.holds server.old) (P.view port) }
    // What came in and what was sent, by status; and where the device tells, what a crash at any moment may have left.
    /// promise: **Each image that a crash at any moment leaves, with the bytes sent by then, is of a prefix**: it
    /// stands for the state after the first requests of the input, and no more was sent than the replies that the rules
    /// give to those, in order. So it holds each request of whose reply something was sent. What no request touches is
    /// as it was. By the status all replies were sent; where the device failed or there was no memory, those to the
    /// first requests, each whole; where a put failed, a front of such. (There is such a record of what is left; none
    /// is picked.)
    ensures ran { RanInGroups result.1 (spoken H.rules R.voice) R.spelling (H.aside server.old)
        (H.state server.old (P.view port).reads) (H.state server.new (P.view result.0).reads) limit
        (taking S.told S.taken S.left_bytes S.ended source.old source.new) (moments P.told P.view port result.0) }
    // Round by round: no request that is whole waits while more input is taken.
    /// promise: **Round by round**: bytes came, and then all requests were answered by turns, and their replies sent,
    /// that were whole in what had come. A turn answers one request at least: it is a group, with at most 236 writes
    /// from its first call to its last reply, or a request on the device itself. Behind a turn no more is left to be
    /// reclaimed than where each of its requests is served alone, with four steps behind it, where none is a sweep.
    /// Groups that only reclaim send nothing, and each lowers what is left: before a turn only where its first request
    /// may have to wait for them, behind a turn four at most, and in the end until nothing is left. Of what comes in a
    /// round but the last 65,536 bytes make one request whole at most. The moments that are named follow one another by
    /// the port's clock. Where the input was cut short, nothing was written or sent behind the last round.
    ensures rounds { P.told → RanByRounds result.1 (spoken H.rules R.voice) H.work H.may_wait (IsOfPort P.view)
        R.spelling limit
        (H.state server.old (P.view port).reads)
        (taking S.told S.taken S.left_bytes S.ended source.old source.new) (mark (P.view port))
        (mark (P.view result.0)) }
    /// promise (with closed): After Done nothing is loose, what is held in memory fits the device, all that was left to
    /// be done is done, and the gates of the journal are closed.
    ensures at { result.1 ≡ Status.Done → P.told → FitsDevice (H.holds server.new) (P.view result.0) }
    ensures closed { result.1 ≡ Status.Done → P.told → H.is_closed (P.view result.0).reads }
    // Nothing more is taken once the end was found.
    /// promise: Nothing is taken after the end of the input was found.
    ensures once { EndsOnce (S.ends source.old) (S.ends source.new) }
    /// promise: A count of faults rose exactly where the status is that fault's.
    ensures faults { TellsFaults result.1 (S.faults source.old) (S.faults source.new) (P.view port) (P.view result.0) }
{
    let mut port = port;
    let (ring, room) = match begin::<P, R, H>(alloc, server, &mut port) {
        Ok(rooms) => rooms,
        Err(why) => return (port, why),
    };
    let mut disk = Disk { port, ring, room };
    let mut intake = Intake::new(limit);
    let mut request = Request::Bad;
    loop {
        match intake.next::<S, R>(protocol, source, &mut request) {
            Next::Request => {
                let (left, served) = serve_in_hand::<P, R, H>(
                    server,
                    protocol,
                    &mut intake,
                    &mut request,
                    disk,
                );
                disk = left;
                match served {
                    Ok(()) => {}
                    Err(why) => return (disk.port, why),
                }
            }
            Next::End => {
                let (left, finished) = finish::<P, R, H>(server, disk);
                match finished {
                    Ok(()) => return (left.port, Status::Done),
                    Err(why) => return (left.port, why),
                }
            }
            Next::CutOff => return (disk.port, Status::Truncated),
            Next::Fault => return (disk.port, Status::SourceFault),
            Next::TooLong => return (disk.port, Status::TooLong),
        }
    }
}

/// Empties the journal of the device, and finds room for groups.
fn begin<P: Port, R: Protocol<Request = Request> + Replies, H: GroupHandler>(
    alloc: Global,
    server: &mut H,
    port: &mut P,
) -> Result<(Ring, Room), Status>
    requires ready { H.is_ready server.old }
    requires at { P.told → FitsDevice (H.holds server.old) (P.view port.old) }
    ensures did { P.told → Turned result (spoken H.rules R.voice) (H.aside server.old)
        (H.state server.old (P.view port.old).reads) (H.state server.new (cleared (P.view port.new).reads))
        (P.view port.old) (P.view port.new) [] }
    ensures sent { P.told → (P.view port.new).sent ≡ (P.view port.old).sent }
    ensures owes { OnOk result (H.owed server.new ≡ H.owed server.old) }
    ensures aside { H.aside server.new ≡ H.aside server.old }
    ensures ready { OnOk result (H.is_ready server.new) }
    ensures between { P.told → IfOk result (λ rooms. StandsBetween (H.holds server.new) rooms.0 (P.view port.new)) }
    ensures stops { IfErr result StopsBy }
    ensures device_fault { CountsFaultOf Status.DeviceFault result (P.view port.old).faults (P.view port.new).faults }
    ensures put_fault { CountsFaultOf Status.PutFault result (P.view port.old).put_faults
        (P.view port.new).put_faults }
{
    let ring = match Ring::new(alloc) {
        Ok(ring) => ring,
        Err(_) => return Err(Status::NoMemory),
    };
    let room = match Room::new(alloc) {
        Ok(room) => room,
        Err(_) => return Err(Status::NoMemory),
    };
    match server.empty_ring(port) {
        Ok(()) => Ok((ring, room)),
        Err(_) => Err(Status::DeviceFault),
    }
}

/// Does all that is left to be done, in groups, and puts all records of the journal in place.
fn finish<P: Port, R: Protocol<Request = Request> + Replies, H: GroupHandler>(
    server: &mut H,
    disk: Disk<P>,
) -> (Disk<P>, Result<(), Status>)
    requires ready { H.is_ready server.old }
    requires between { P.told → StandsBetween (H.holds server.old) disk.ring (P.view disk.port) }
    ensures did { P.told → Turned result.1 (spoken H.rules R.voice) (H.aside server.old)
        (H.state server.old (cleared (P.view disk.port).reads)) (H.state server.new (P.view result.0.port).reads)
        (P.view disk.port) (P.view result.0.port) [] }
    ensures finished { P.told → OnOk result.1 (IsFinished H.work (IsOfPort P.view) (mark (P.view disk.port))
        (mark (P.view result.0.port))) }
    ensures aside { H.aside server.new ≡ H.aside server.old }
    ensures at { P.told → OnOk result.1 (FitsDevice (H.holds server.new) (P.view result.0.port)) }
    ensures closed { P.told → OnOk result.1 (H.is_closed (P.view result.0.port).reads) }
    ensures stops { IfErr result.1 StopsBy }
    ensures device_fault { CountsFaultOf Status.DeviceFault result.1 (P.view disk.port).faults
        (P.view result.0.port).faults }
    ensures put_fault { CountsFaultOf Status.PutFault result.1 (P.view disk.port).put_faults
        (P.view result.0.port).put_faults }
{
    let (left, settled) = settle_in_groups::<P, R, H>(server, disk, true, 0);
    match settled {
        Ok(()) => {
            let mut disk = left;
            let closed = close::<P, R, H>(server, &mut disk);
            (disk, closed)
        }
        Err(why) => (left, Err(why)),
    }
}

/// Puts all records of the journal in place, on the device itself, where nothing is left to be done.
fn close<P: Port, R: Protocol<Request = Request> + Replies, H: GroupHandler>(
    server: &mut H,
    disk: &mut Disk<P>,
) -> Result<(), Status>
    requires ready { H.is_ready server.old }
    requires between { P.told → StandsBetween (H.holds server.old) disk.old.ring (P.view disk.old.port) }
    requires settled { H.owed server.old ≡ 0 }
    ensures did { P.told → Turned result (spoken H.rules R.voice) (H.aside server.old)
        (H.state server.old (cleared (P.view disk.old.port).reads)) (H.state server.new (P.view disk.new.port).reads)
        (P.view disk.old.port) (P.view disk.new.port) [] }
    ensures sent { P.told → OnOk result ((P.view disk.new.port).sent ≡ (P.view disk.old.port).sent) }
    ensures writes { P.told → OnOk result ((P.view disk.new.port).writes ≤ (P.view disk.old.port).writes + 121) }
    ensures none { P.told → OnOk result (H.work.debt (P.view disk.new.port).reads ≡ 0) }
    ensures aside { H.aside server.new ≡ H.aside server.old }
    ensures at { P.told → OnOk result (FitsDevice (H.holds server.new) (P.view disk.new.port)) }
    ensures closed { P.told → OnOk result (H.is_closed (P.view disk.new.port).reads) }
    ensures stops { IfErr result StopsBy }
    ensures device_fault { CountsFaultOf Status.DeviceFault result (P.view disk.old.port).faults
        (P.view disk.new.port).faults }
    ensures put_fault { CountsFaultOf Status.PutFault result (P.view disk.old.port).put_faults
        (P.view disk.new.port).put_faults }
{
    if disk.ring.checkpoint(&mut disk.port).is_err() {
        return Err(Status::DeviceFault);
    }
    match server.close(&mut disk.port) {
        Ok(()) => Ok(()),
        Err(_) => Err(Status::DeviceFault),
    }
}
