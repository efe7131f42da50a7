// What is left to be done, in groups.
ghost use Rattle.std.specs.Prelude.{◌≡◌, ◌⊎◌, ◌≤◌, ◌<◌, ◌+◌, ◌-◌, [], ℕ, true, false, OnOk, IfOk, IfErr};
ghost use Rattle.image_device.specs.Calls.{Uses};
ghost use Rattle.image_device.specs.Counts.{CountsFault, CountsFaultOf};
ghost use Rattle.intent_journal.specs.Records.{AreClosed};
ghost use Rattle.gathering.specs.Gathered.{cleared, HasRested};
ghost use Rattle.serving.specs.Handling.{FitsDevice};
ghost use Rattle.serving.specs.Prompt.{IsOfPort, mark};
ghost use Rattle.serving.specs.Voice.{spoken};
ghost use Rattle.gathering_runs.specs.ByTurns.{IsReclaiming, Reclaims};
ghost use Rattle.gathering_runs.specs.Turns.{StandsBetween, StopsBy, Turned};

use crate::group::{Disk, status_of};
use crate::handler::GroupHandler;
use crate::room::HasRoom;
use gathering::{Began, Flushed, Gather};
use image_device::{Failed, Port};
use serving::{Protocol, Replies};
use std::marker::Brand;
use tsd_model::Request;
use tsd_words::Status;

/// How many homes one step has at most.
const STEP_HOMES: usize = 33;

/// Does what is left to be done, in groups of its own: all of it, or so many steps.
pub(crate) fn settle_in_groups<P: Port, R: Protocol<Request = Request> + Replies, H: GroupHandler>(
    server: &mut H,
    disk: Disk<P>,
    all: bool,
    lacking: u32,
) -> (Disk<P>, Result<(), Status>)
    requires ready { H.is_ready server.old }
    requires between { P.told → StandsBetween (H.holds server.old) disk.ring (P.view disk.port) }
    ensures did { P.told → Turned result.1 (spoken H.rules R.voice) (H.aside server.old)
        (H.state server.old (cleared (P.view disk.port).reads))
        (H.state server.new (cleared (P.view result.0.port).reads)) (P.view disk.port) (P.view result.0.port) [] }
    // Each group lowers what is left, so there are no more of them than that; nor than there are steps.
    ensures groups { P.told → OnOk result.1 ((groups : ℕ) × Reclaims H.work (IsOfPort P.view) groups
        (mark (P.view disk.port)) (mark (P.view result.0.port)) × (all ≡ false → groups ≤ lacking)) }
    ensures less { OnOk result.1 (all ≡ false → H.owed server.new ≤ H.owed server.old - lacking) }
    ensures none { OnOk result.1 (all ≡ true → H.owed server.new ≡ 0) }
    ensures aside { H.aside server.new ≡ H.aside server.old }
    ensures ready { OnOk result.1 (H.is_ready server.new) }
    ensures between { P.told → OnOk result.1 (StandsBetween (H.holds server.new) result.0.ring
        (P.view result.0.port)) }
    ensures stops { IfErr result.1 StopsBy }
    ensures device_fault { CountsFaultOf Status.DeviceFault result.1 (P.view disk.port).faults
        (P.view result.0.port).faults }
    ensures put_fault { CountsFaultOf Status.PutFault result.1 (P.view disk.port).put_faults
        (P.view result.0.port).put_faults }
{
    let mut disk = disk;
    let mut lacking = lacking;
    loop {
        if is_settled(server, all, lacking) {
            return (disk, Ok(()));
        }
        let most = steps_of(all, lacking);
        let (left, settled) = settle_group::<P, R, H, Brand>(server, disk, most);
        disk = left;
        match settled {
            Ok(lack) => lacking = lack,
            Err(why) => return (disk, Err(why)),
        }
    }
}

/// Whether nothing is left to be done, or where not all is to be done, no step.
fn is_settled<H: GroupHandler>(server: &H, all: bool, lacking: u32) -> bool
    requires ready { H.is_ready server.now }
    ensures settled { result ≡ true → (H.owed server.now ≡ 0) ⊎ ((all ≡ false) × (lacking ≡ 0)) }
    ensures owed { result ≡ false → 0 < H.owed server.now }
    ensures lacks { result ≡ false → all ≡ false → 0 < lacking }
{
    !server.is_owed() || (!all && lacking == 0)
}

/// How many steps are to be made at most.
fn steps_of(all: bool, lacking: u32) -> u32
    requires some { all ≡ false → 0 < lacking }
    ensures some { 0 < result }
    ensures lacking { all ≡ false → result ≡ lacking }
{
    if all { u32::MAX } else { lacking }
}

/// Does some of what is left to be done, as one group: so many steps at most, and one at least; how many of them lack,
/// for want of room.
fn settle_group<P: Port, R: Protocol<Request = Request> + Replies, H: GroupHandler, K: Began>(
    server: &mut H,
    disk: Disk<P>,
    most: u32,
) -> (Disk<P>, Result<u32, Status>)
    requires rests { P.told → HasRested K.start (P.view disk.port) }
    requires counts { Uses 0 K.start (P.view disk.port) }
    requires faults { (P.view disk.port).faults ≡ K.start.faults }
    requires ready { H.is_ready server.old }
    requires between { P.told → StandsBetween (H.holds server.old) disk.ring K.start }
    requires some { 0 < most }
    requires owed { 0 < H.owed server.old }
    ensures did { P.told → Turned result.1 (spoken H.rules R.voice) (H.aside server.old)
        (H.state server.old (cleared K.start.reads)) (H.state server.new (cleared (P.view result.0.port).reads)) K.start
        (P.view result.0.port) [] }
    ensures group { P.told → OnOk result.1 (IsReclaiming H.work (IsOfPort P.view) (mark K.start)
        (mark (P.view result.0.port))) }
    ensures lowered { OnOk result.1 (H.owed server.new < H.owed server.old) }
    ensures less { IfOk result.1 (λ lack. H.owed server.new ≤ H.owed server.old + lack - most) }
    ensures fewer { IfOk result.1 (λ lack. lack < most) }
    ensures aside { H.aside server.new ≡ H.aside server.old }
    ensures ready { OnOk result.1 (H.is_ready server.new) }
    ensures between { P.told → OnOk result.1 (StandsBetween (H.holds server.new) result.0.ring
        (P.view result.0.port)) }
    ensures stops { IfErr result.1 StopsBy }
    ensures device_fault { CountsFaultOf Status.DeviceFault result.1 K.start.faults (P.view result.0.port).faults }
    ensures put_fault { CountsFaultOf Status.PutFault result.1 K.start.put_faults (P.view result.0.port).put_faults }
{
    let Disk { port, ring, room } = disk;
    let mut gathering = Gather::<P, K>::new(port, ring, room);
    let settled = settle_first::<H, Gather<P, K>>(server, &mut gathering, most);
    let Flushed {
        inner,
        ring,
        room,
        result,
    } = gathering.flush();
    let disk = Disk {
        port: inner,
        ring,
        room,
    };
    match result {
        Ok(()) => (disk, Ok(settled.unwrap_or(0))),
        Err(fault) => (disk, Err(status_of(fault))),
    }
}

/// Makes a step of what is left to be done, which fits where there are no homes yet, and then as many more as fit, so
/// many in all at most; how many of them lack.
fn settle_first<H: GroupHandler, G: Port + HasRoom>(
    server: &mut H,
    port: &mut G,
    most: u32,
) -> Result<u32, Failed>
    requires ready { H.is_ready server.old }
    requires at { G.told → FitsDevice (H.holds server.old) (G.view port.old) }
    requires some { 0 < most }
    requires owed { 0 < H.owed server.old }
    ensures lowered { OnOk result (H.owed server.new < H.owed server.old) }
    ensures less { IfOk result (λ lack. H.owed server.new ≤ H.owed server.old + lack - most) }
    ensures fewer { IfOk result (λ lack. lack < most) }
    ensures aside { H.aside server.new ≡ H.aside server.old }
    ensures ready { OnOk result (H.is_ready server.new) }
    ensures at { G.told → OnOk result (FitsDevice (H.holds server.new) (G.view port.new)) }
    ensures closed { G.told → OnOk result (AreClosed (G.view port.new).reads) }
    ensures state { G.told → OnOk result (H.state server.new (G.view port.new).reads ≡ H.state server.old
        (G.view port.old).reads) }
    ensures sent { G.told → OnOk result ((G.view port.new).sent ≡ (G.view port.old).sent) }
    ensures part { G.told → OnOk result (H.aside server.old (G.view port.new).reads
        ≡ H.aside server.old (G.view port.old).reads) }
    ensures put_faults { (G.view port.new).put_faults ≡ (G.view port.old).put_faults }
    ensures faults { CountsFault result (G.view port.old).faults (G.view port.new).faults }
{
    step(server, port)?;
    settle_few(server, port, most - 1)
}

/// Makes so many steps of what is left to be done, as long as they fit; how many of them lack, though something is
/// left. The journal is closed before it and behind it, so that the homes of each step are counted before the next one.
/// The state stays. `Failed` comes only where `faults` rose.
pub(crate) fn settle_few<H: GroupHandler, G: Port + HasRoom>(
    server: &mut H,
    port: &mut G,
    most: u32,
) -> Result<u32, Failed>
    requires ready { H.is_ready server.old }
    requires at { G.told → FitsDevice (H.holds server.old) (G.view port.old) }
    requires closed { G.told → AreClosed (G.view port.old).reads }
    ensures less { IfOk result (λ lack. H.owed server.new ≤ H.owed server.old + lack - most) }
    ensures no_more { OnOk result (H.owed server.new ≤ H.owed server.old) }
    ensures few { IfOk result (λ lack. lack ≤ most) }
    ensures aside { H.aside server.new ≡ H.aside server.old }
    ensures ready { OnOk result (H.is_ready server.new) }
    ensures at { G.told → OnOk result (FitsDevice (H.holds server.new) (G.view port.new)) }
    ensures closed { G.told → OnOk result (AreClosed (G.view port.new).reads) }
    ensures state { G.told → OnOk result (H.state server.new (G.view port.new).reads ≡ H.state server.old
        (G.view port.old).reads) }
    ensures sent { G.told → OnOk result ((G.view port.new).sent ≡ (G.view port.old).sent) }
    ensures part { G.told → OnOk result (H.aside server.old (G.view port.new).reads
        ≡ H.aside server.old (G.view port.old).reads) }
    ensures put_faults { (G.view port.new).put_faults ≡ (G.view port.old).put_faults }
    ensures faults { CountsFault result (G.view port.old).faults (G.view port.new).faults }
{
    for made in 0..most {
        if !port.fits(STEP_HOMES) && server.is_owed() {
            return Ok(most - made);
        }
        let some = step(server, port)?;
        if !some {
            return Ok(0);
        }
    }
    Ok(0)
}

/// Makes one step of what is left to be done, if one is left, and closes the journal; whether it did. The state stays.
/// `Failed` comes only where `faults` rose.
fn step<H: GroupHandler, G: Port>(server: &mut H, port: &mut G) -> Result<bool, Failed>
    requires ready { H.is_ready server.old }
    requires at { G.told → FitsDevice (H.holds server.old) (G.view port.old) }
    ensures lowered { IfOk result (λ some. some ≡ true → H.owed server.new < H.owed server.old) }
    ensures none { IfOk result (λ some. some ≡ false → H.owed server.new ≡ 0) }
    ensures aside { H.aside server.new ≡ H.aside server.old }
    ensures ready { OnOk result (H.is_ready server.new) }
    ensures at { G.told → OnOk result (FitsDevice (H.holds server.new) (G.view port.new)) }
    ensures closed { G.told → OnOk result (AreClosed (G.view port.new).reads) }
    ensures state { G.told → OnOk result (H.state server.new (G.view port.new).reads ≡ H.state server.old
        (G.view port.old).reads) }
    ensures sent { G.told → OnOk result ((G.view port.new).sent ≡ (G.view port.old).sent) }
    ensures part { G.told → OnOk result (H.aside server.old (G.view port.new).reads
        ≡ H.aside server.old (G.view port.old).reads) }
    ensures put_faults { (G.view port.new).put_faults ≡ (G.view port.old).put_faults }
    ensures faults { CountsFault result (G.view port.old).faults (G.view port.new).faults }
{
    let some = server.settle_one(port)?;
    server.empty_ring(port)?;
    Ok(some)
}
