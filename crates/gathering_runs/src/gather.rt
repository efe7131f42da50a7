// Requests carried out on a disk in memory.
ghost use Rattle.std.specs.Prelude.{◌≡◌, ◌<◌, ◌≤◌, ◌+◌, ◌-◌, ◌++◌, ◌⊎◌, ◌∷◌, [], ℕ, List, Ok, OnOk, OnErr, IfOk};
ghost use Rattle.std.specs.Prelude.{true, false};
ghost use Rattle.image_device.specs.Counts.{Rose};
ghost use Rattle.intent_journal.specs.Records.{AreClosed};
ghost use Rattle.serving.specs.Goes.{remaining, unread};
ghost use Rattle.serving.specs.Handling.{FitsDevice};
ghost use Rattle.serving.specs.Voice.{spoken};
ghost use Rattle.gathering_runs.specs.ByTurns.{LeavesBut};
ghost use Rattle.gathering_runs.specs.Turns.{HandsOut, waits_by};
ghost use Rattle.tsd_model.specs.declared.requests.Request.{Request as Asked};

use crate::handler::GroupHandler;
use crate::room::HasRoom;
use crate::settle::settle_few;
use image_device::{Failed, Port};
use serving::{Intake, Protocol, Replies};
use tsd_model::{Reply, Request};

/// How many steps of what is left to be done are made behind a request at most.
const STEPS: u32 = 4;

/// Carries out the request that stands in the room, and then those behind it that lie there, as long as they fit, and
/// the steps behind them; whether one waits in the room then, and how many steps behind the last one lack. `Failed`
/// comes only where a count rose.
pub(crate) fn gather<R: Protocol<Request = Request> + Replies, H: GroupHandler, G: Port + HasRoom>(
    server: &mut H,
    protocol: &mut R,
    intake: &mut Intake,
    request: &mut Request,
    port: &mut G,
    lacking: &mut u32,
) -> Result<bool, Failed>
    requires ready { H.is_ready server.old }
    requires at { G.told → FitsDevice (H.holds server.old) (G.view port.old) }
    // Behind the first request these were handed out and answered, or the last of them failed.
    ensures did { (done : List Asked) × HandsOut R.spelling (λ x. R.was_fed x protocol.old)
        (λ x. R.was_fed x protocol.new) intake.old intake.new (done ++ waits_by result request.new)
        × (G.told → OnOk result (LeavesBut (spoken H.rules R.voice) H.work
        (H.state server.old (G.view port.old).reads) (G.view port.old).sent (request.old ∷ done)
        (H.state server.new (G.view port.new).reads) (G.view port.new).sent (H.owed server.old) (H.owed server.new)
        lacking.new)) }
    ensures lacks { OnOk result (lacking.new ≤ 4) }
    ensures less { IfOk result (λ waits. waits ≡ true → remaining intake.new < remaining intake.old) }
    // Where none waits, all bytes that were taken are read.
    ensures read { IfOk result (λ waits. waits ≡ false → intake.old.over ≡ false → unread intake.new ≡ []) }
    ensures fewer { remaining intake.new ≤ remaining intake.old }
    ensures aside { H.aside server.new ≡ H.aside server.old }
    ensures ready { OnOk result (H.is_ready server.new) }
    ensures at { G.told → OnOk result (FitsDevice (H.holds server.new) (G.view port.new)) }
    ensures closed { G.told → OnOk result (AreClosed (G.view port.new).reads) }
    ensures part { G.told → OnOk result (H.aside server.old (G.view port.new).reads
        ≡ H.aside server.old (G.view port.old).reads) }
    ensures failed { OnErr result (Rose (G.view port.old).faults (G.view port.new).faults
        ⊎ Rose (G.view port.old).put_faults (G.view port.new).put_faults) }
{
    loop {
        match carry_out::<R, H, G>(server, port, request) {
            Ok(lack) => *lacking = lack,
            Err(_) => return Err(Failed),
        }
        if !intake.next_held(protocol, request) {
            return Ok(false);
        }
        if *lacking > 0 {
            return Ok(true);
        }
        if !port.has_room(server.homes(request)) {
            return Ok(true);
        }
    }
}

/// Carries out a request, puts its reply, and makes four steps of what is left to be done, as far as they fit; how many
/// of them lack. The journal is closed behind it. `Failed` comes only where a count rose.
fn carry_out<R: Protocol<Request = Request> + Replies, H: GroupHandler, G: Port + HasRoom>(
    server: &mut H,
    port: &mut G,
    request: &Request,
) -> Result<u32, Failed>
    requires ready { H.is_ready server.old }
    requires at { G.told → FitsDevice (H.holds server.old) (G.view port.old) }
    ensures answered { G.told → OnOk result ((answer : List ℕ) × (spoken H.rules R.voice).gives
        (H.state server.old (G.view port.old).reads) request.now answer (H.state server.new (G.view port.new).reads)
        × ((G.view port.new).sent ≡ (G.view port.old).sent ++ answer)) }
    ensures left { G.told → H.work.bounded request.now → IfOk result (λ lack. H.owed server.new ≤ H.owed server.old
        + H.work.made (H.state server.old (G.view port.old).reads) request.now - 4 + lack) }
    ensures lacks { IfOk result (λ lack. lack ≤ 4) }
    ensures aside { H.aside server.new ≡ H.aside server.old }
    ensures ready { OnOk result (H.is_ready server.new) }
    ensures at { G.told → OnOk result (FitsDevice (H.holds server.new) (G.view port.new)) }
    ensures closed { G.told → OnOk result (AreClosed (G.view port.new).reads) }
    ensures part { G.told → OnOk result (H.aside server.old (G.view port.new).reads
        ≡ H.aside server.old (G.view port.old).reads) }
    ensures faults { OnOk result ((G.view port.new).faults ≡ (G.view port.old).faults) }
    ensures put_faults { OnOk result ((G.view port.new).put_faults ≡ (G.view port.old).put_faults) }
    ensures failed { OnErr result (Rose (G.view port.old).faults (G.view port.new).faults
        ⊎ Rose (G.view port.old).put_faults (G.view port.new).put_faults) }
{
    let mut reply = Reply::Done;
    server.apply(port, request, &mut reply)?;
    R::put_reply(port, &reply)?;
    server.empty_ring(port)?;
    settle_few(server, port, STEPS)
}
