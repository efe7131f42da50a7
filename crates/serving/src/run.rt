//! The loop over an input.

ghost use Rattle.std.specs.Prelude.{◌≡◌, ◌≢◌, ◌≤◌, []};
ghost use Rattle.image_device.specs.Runs.{LeavesPart};
ghost use Rattle.serving.specs.Faults.{TellsFaults};
ghost use Rattle.serving.specs.Goes.{IsFresh};
ghost use Rattle.serving.specs.Handling.{FitsDevice};
ghost use Rattle.serving.specs.Prompt.{EndsBySending, IsCutShort, IsOfPort, Promptly, mark};
ghost use Rattle.serving.specs.Ran.{EndsOnce, Ran, moments, taking};

use crate::intake::{INPUT_MAX, Intake, Next};
use crate::protocol::Protocol;
use crate::server::Server;
use image_device::{Port, Source};
use tsd_words::Status;

/// Serves the requests of an input until it ends. Each answer is sent whole before the next request is carried out.
/// In the end all that is left to be done is done.
///
/// The status is Done, or SourceFault, DeviceFault or PutFault where that count rose, TooLong where a byte after the
/// first `limit` came, or Truncated where the input ended inside a request.
///
/// That no answer waits for a further take is shown by the code, and no clause says it.
pub fn serve<S: Source, P: Port, R: Protocol, H: Server<R>>(
    server: &mut H,
    protocol: &mut R,
    source: &mut S,
    port: &mut P,
    limit: u64,
) -> Status
    requires few { limit ≤ INPUT_MAX }
    requires fresh { R.was_fed [] protocol.old }
    requires ready { H.is_ready server.old }
    requires at { P.told → FitsDevice (H.holds server.old) (P.view port.old) }
    /// promise: **What came in, what was sent and what a crash leaves, by the status.** Every image that a crash at any
    /// moment may leave, with the bytes sent by then, is acknowledged: where these have A whole answers, it stands for
    /// the state after the first A requests or, where there is a next one, for that, the state after it or something
    /// between; the bytes are those answers and a proper front of the next. The state in which a next one is answered
    /// is one that was seen. Where no request is a sweep, how often was written and how much is left to be reclaimed
    /// have their bounds.
    ensures ran { Ran result H.service H.work R.spelling (H.state server.old (P.view port.old).reads)
        (H.state server.new (P.view port.new).reads) limit
        (taking S.told S.taken S.left_bytes S.ended source.old source.new)
        (H.due server.old (P.view port.old).reads) (moments P.told P.view port.old port.new) }
    /// promise: **Each answer is prompt**: the requests that were answered so are the first of those that came in, and
    /// all of them unless the device or the sending failed. Where a request isn't a sweep, there is a state of the
    /// port's type, in time between the one at which the request came and the one at which the next did, at which the
    /// whole answer was sent and no more was written since the request came than the server's work has before an
    /// answer, and after which no more came before the next request than it has after one. After SourceFault, TooLong
    /// and Truncated nothing more is written.
    ensures prompt { P.told → Promptly result H.service H.work (IsOfPort P.view) R.spelling limit
        (H.state server.old (P.view port.old).reads)
        (taking S.told S.taken S.left_bytes S.ended source.old source.new) (mark (P.view port.old))
        (mark (P.view port.new)) }
    /// promise: Where nothing is done behind an answer and the input was cut short, a crash leaves the disk as it reads
    /// in the end once all was sent: nothing is settled behind the last answer.
    ensures still { P.told → H.ends_by_sending → IsCutShort result → EndsBySending (P.view port.old) (P.view
        port.new) }
    /// promise: However the run ends, a crash at any moment leaves what no request touches as it was.
    ensures aside_kept { P.told → LeavesPart (H.aside server.old) (P.view port.old) (P.view port.new) }
    ensures aside { H.aside server.new ≡ H.aside server.old }
    ensures lender { H.lender server.new ≡ H.lender server.old }
    /// promise (with at, spent): Unless the device failed, the server may be used again; where it failed, it is spent.
    ensures ready { result ≢ Status.DeviceFault → H.is_ready server.new }
    ensures at { result ≢ Status.DeviceFault → P.told → FitsDevice (H.holds server.new) (P.view port.new) }
    ensures spent { result ≡ Status.DeviceFault → H.is_spent server.new }
    /// promise: On Done all that was left to be done is done.
    ensures closed { result ≡ Status.Done → P.told → H.is_closed (P.view port.new).reads }
    /// promise: Nothing is taken after the end of the input was found.
    ensures once { EndsOnce (S.ends source.old) (S.ends source.new) }
    /// promise: A count of faults rose exactly where the status is that fault's.
    ensures faults { TellsFaults result (S.faults source.old) (S.faults source.new) (P.view port.old)
        (P.view port.new) }
{
    let mut intake = Intake::new(limit);
    serve_in(server, protocol, source, port, limit, &mut intake)
}

/// Serves the requests of an input until it ends, as [`serve`] does, in the room of an intake that is there already: so
/// a caller that serves many short inputs clears none for each.
pub fn serve_in<S: Source, P: Port, R: Protocol, H: Server<R>>(
    server: &mut H,
    protocol: &mut R,
    source: &mut S,
    port: &mut P,
    limit: u64,
    intake: &mut Intake,
) -> Status
    requires few { limit ≤ INPUT_MAX }
    requires fresh { R.was_fed [] protocol.old }
    requires room { IsFresh intake.old limit }
    requires ready { H.is_ready server.old }
    requires at { P.told → FitsDevice (H.holds server.old) (P.view port.old) }
    /// promise: As for `serve`.
    ensures ran { Ran result H.service H.work R.spelling (H.state server.old (P.view port.old).reads)
        (H.state server.new (P.view port.new).reads) limit
        (taking S.told S.taken S.left_bytes S.ended source.old source.new)
        (H.due server.old (P.view port.old).reads) (moments P.told P.view port.old port.new) }
    ensures prompt { P.told → Promptly result H.service H.work (IsOfPort P.view) R.spelling limit
        (H.state server.old (P.view port.old).reads)
        (taking S.told S.taken S.left_bytes S.ended source.old source.new) (mark (P.view port.old))
        (mark (P.view port.new)) }
    ensures still { P.told → H.ends_by_sending → IsCutShort result → EndsBySending (P.view port.old) (P.view
        port.new) }
    ensures aside_kept { P.told → LeavesPart (H.aside server.old) (P.view port.old) (P.view port.new) }
    ensures aside { H.aside server.new ≡ H.aside server.old }
    ensures lender { H.lender server.new ≡ H.lender server.old }
    ensures ready { result ≢ Status.DeviceFault → H.is_ready server.new }
    ensures at { result ≢ Status.DeviceFault → P.told → FitsDevice (H.holds server.new) (P.view port.new) }
    ensures spent { result ≡ Status.DeviceFault → H.is_spent server.new }
    ensures closed { result ≡ Status.Done → P.told → H.is_closed (P.view port.new).reads }
    ensures once { EndsOnce (S.ends source.old) (S.ends source.new) }
    ensures faults { TellsFaults result (S.faults source.old) (S.faults source.new) (P.view port.old)
        (P.view port.new) }
{
    let mut request = R::blank();
    loop {
        match intake.next::<S, R>(protocol, source, &mut request) {
            Next::Request => match server.answer(port, &request) {
                Ok(()) => {}
                Err(why) => return why,
            },
            Next::End => match server.close(port) {
                Ok(()) => return Status::Done,
                Err(_) => return Status::DeviceFault,
            },
            Next::CutOff => return Status::Truncated,
            Next::Fault => return Status::SourceFault,
            Next::TooLong => return Status::TooLong,
        }
    }
}
