//! `load`: the requests of a seed, carried out.

ghost use Rattle.std.specs.Prelude.{◌≡◌, ◌≢◌, ℕ, ◌+◌, ◌<◌, ◌≤◌, ◌⊎◌, ◌^◌, IfOk, OnOk, IfErr};
ghost use Rattle.image_device.specs.Counts.{CountsFaultOf};
ghost use Rattle.image_device.specs.Runs.{IsFirm, LeavesOnly, LeavesPart};
ghost use Rattle.image_world.specs.Behind.{LeavesBehind, behind};
ghost use Rattle.image_world.specs.Stands.{world_of};
ghost use Rattle.tsd_model.specs.Run.{at_rest};
ghost use Rattle.load_gen.specs.Load.{load_after};
ghost use Rattle.recovery.specs.Opening.{IsForeign, IsUntouched, SparesDamaged, StandAlike};
ghost use Rattle.recovery.specs.Spared.{SparesImage};
ghost use Rattle.volume_laws.specs.Writes.{Works};
ghost use Rattle.tsd_core.specs.Core.{IsCoreAt, IsCoreReady, state_on, told_world};
ghost use Rattle.tsd_model.specs.declared.replies.Reply.TheVariants as replied;
ghost use Rattle.serving.specs.Faults.{TellsPortFaults};
ghost use Rattle.image_runs.specs.Looking.{OnlyLooks};
ghost use Rattle.image_runs.specs.Sending.{IsEnding, IsStopped};
ghost use Rattle.image_runs.specs.Load.{HasLoaded, IsLeftOfLoad, IsLoadDone, IsLoadedBy};
ghost use Rattle.image_runs.specs.Applying.{IsSummary, LeavesRun, more_granted, more_refused};
ghost use Rattle.image_runs.specs.Opened.{IsJudged, IsUnopened};

use crate::ending::put_text;
use crate::opening::open_volume;
use image_device::{Device, Port, WorkDone};
use load_gen::LoadGen;
use place_policy::Placement;
use std::alloc::Global;
use tsd_core::Core;
use tsd_model::Reply;
use tsd_words::{Load, Status, Summary, load_line};

/// How many requests were granted and how many refused.
#[derive(Clone, Copy)]
struct Tally {
    granted: u32,
    refused: u32,
}

impl Tally {
    /// Counts a reply. Want of memory is none.
    fn count(&mut self, reply: &Reply) -> Result<(), Status>
        requires { self.old.granted + self.old.refused < 2 ^ 31 }
        ensures granted { OnOk result (self.new.granted ≡ self.old.granted + more_granted reply.now) }
        ensures refused { OnOk result (self.new.refused ≡ self.old.refused + more_refused reply.now) }
        ensures one { OnOk result (self.new.granted + self.new.refused ≡ self.old.granted + self.old.refused + 1) }
        ensures memory { OnOk result (reply.now ≢ replied.NoMemory) }
        ensures stops { IfErr result IsStopped }
        ensures none { IfErr result (λ why. (why ≡ Status.NoMemory) × (reply.now ≡ replied.NoMemory)) }
    {
        match reply {
            Reply::NoMemory => return Err(Status::NoMemory),
            Reply::Refused(_) => self.refused += 1,
            _ => self.granted += 1,
        }
        Ok(())
    }
}

/// Opens an image, carries out the first COUNT requests of the seed, with no session open at the start, does what is
/// left to be done, and puts one line: how many were granted and how many refused, and how many blocks are free and
/// pointers held in the end. Free blocks are taken by `placement`.
///
/// The status is Done, NotImage where the image stands for no world, DeviceFault or PutFault where that count rose, or
/// NoMemory where none was found to open the image or its session.
pub fn load_image<P: Port>(
    alloc: Global,
    load: &Load,
    placement: &Placement,
    port: &mut P,
) -> Status
    requires few { load.now.count ≤ 200000 }
    ensures ending { IsEnding result }
    /// promise: After Done the disk stands for the world after the first COUNT requests of the seed by the rules of the
    /// disk, nothing is doomed, and all gates are closed; the numbers in the line are those of the replies by these
    /// rules, and of that world.
    ensures loaded { P.told → HasLoaded result placement.now.kind load.now.seed load.now.count (P.view port.old)
        (P.view port.new) }
    // Where the image fails one of the tests that need no write, nothing is written, and the disk reads as before;
    // where it fails another, nothing is lost that a repair could use, whatever is answered.
    ensures untouched { P.told → IsForeign (P.view port.old).reads
        → IsUntouched (P.view port.old) (P.view port.new) }
    ensures spared { P.told → SparesDamaged (P.view port.old) (P.view port.new) }
    /// promise: Each image left stands for the world after some of these requests; wherever a byte was sent, after all
    /// of them.
    ensures any_moment { P.told → IsFirm (P.view port.old) → LeavesOnly (P.view port.old) (P.view port.new)
        (IsLeftOfLoad placement.now.kind load.now.seed load.now.count (P.view port.old)) }
    // Memory is wanting at the opening, or at request 0, which opens the session.
    /// promise (with looked): Without memory no request is carried out, and no more was written than an opening writes.
    ensures no_memory { P.told → result ≡ Status.NoMemory → IsFirm (P.view port.old)
        → LeavesOnly (P.view port.old) (P.view port.new) (λ x f. StandAlike (P.view port.old).reads x
        × (f ≡ (P.view port.old).sent)) }
    ensures looked { P.told → result ≡ Status.NoMemory → OnlyLooks (P.view port.old) (P.view port.new) }
    // A crash at any moment leaves what lies behind the image as it was.
    ensures behind { P.told → IsFirm (P.view port.old) → LeavesBehind (P.view port.old) (P.view port.new) }
    ensures faults { TellsPortFaults result (P.view port.old) (P.view port.new) }
{
    match carry_out(alloc, load, placement, port) {
        Ok(summary) => put_text(port, &load_line(&summary), Status::Done),
        Err(why) => why,
    }
}

/// Opens an image and carries out the requests.
fn carry_out<D: Device>(
    alloc: Global,
    load: &Load,
    placement: &Placement,
    dev: &mut D,
) -> Result<Summary, Status>
    requires few { load.now.count ≤ 200000 }
    ensures loaded { D.told → OnOk result (IsLoadDone placement.now.kind load.now.seed (D.view dev.old).reads
        load.now.count (D.view dev.new)) }
    ensures summary { D.told
        → IfOk result (λ s. IsSummary placement.now.kind load.now.seed (world_of (D.view dev.old).reads) load.now.count
        s) }
    ensures judged { D.told → IfErr result (IsJudged (D.view dev.old).reads) }
    ensures stops { IfErr result IsUnopened }
    ensures sent { D.told → (D.view dev.new).sent ≡ (D.view dev.old).sent }
    ensures spares { SparesImage D.told (D.view dev.old) (D.view dev.new) }
    ensures any_moment { D.told → IsFirm (D.view dev.old) → LeavesOnly (D.view dev.old) (D.view dev.new)
        (λ x f. (StandAlike (D.view dev.old).reads x ⊎ ((n : ℕ) × (n ≤ load.now.count)
        × IsLoadedBy placement.now.kind load.now.seed (D.view dev.old).reads n x)) × (f ≡ (D.view dev.old).sent)) }
    ensures no_memory { D.told → IfErr result (λ why. why ≡ Status.NoMemory → IsFirm (D.view dev.old)
        → LeavesOnly (D.view dev.old) (D.view dev.new) (λ x f. StandAlike (D.view dev.old).reads x
        × (f ≡ (D.view dev.old).sent))) }
    ensures looked { D.told → IfErr result (λ why. why ≡ Status.NoMemory
        → OnlyLooks (D.view dev.old) (D.view dev.new)) }
    ensures works { Works (D.view dev.old) (D.view dev.new) }
    ensures faults { CountsFaultOf Status.DeviceFault result (D.view dev.old).faults (D.view dev.new).faults }
{
    match open_volume(alloc, dev) {
        Ok(volume) => {
            let mut draws = LoadGen::new(&load.seed, &volume.geometry());
            let mut core = Core::new(alloc, volume);
            run(&mut core, dev, placement, &mut draws, load)
        }
        Err(why) => Err(why),
    }
}

/// Carries out the requests on a disk with no session open, and does what is left to be done.
fn run<D: Device>(
    core: &mut Core,
    dev: &mut D,
    placement: &Placement,
    draws: &mut LoadGen,
    load: &Load,
) -> Result<Summary, Status>
    requires few { load.now.count ≤ 200000 }
    requires ready { IsCoreReady core.old }
    requires at { D.told → IsCoreAt core.old (D.view dev.old) }
    requires start { D.told → state_on core.old (D.view dev.old).reads ≡ at_rest (world_of (D.view dev.old).reads) }
    requires draws { draws.old ≡ load_after load.now.seed (told_world core.old).geometry 0 }
    ensures loaded { D.told → OnOk result (IsLoadDone placement.now.kind load.now.seed (D.view dev.old).reads
        load.now.count (D.view dev.new)) }
    ensures summary { D.told
        → IfOk result (λ s. IsSummary placement.now.kind load.now.seed (world_of (D.view dev.old).reads) load.now.count
        s) }
    ensures stops { IfErr result IsStopped }
    ensures sent { D.told → (D.view dev.new).sent ≡ (D.view dev.old).sent }
    ensures any_moment { D.told → LeavesRun placement.now.kind load.now.seed load.now.count (D.view dev.old)
        (D.view dev.new) }
    // Memory is wanting at request 0 alone, and then nothing is done.
    ensures first { D.told → IfErr result (λ why. why ≡ Status.NoMemory → dev.new ≡ dev.old) }
    ensures behind { D.told → LeavesPart (behind core.old.volume.tables.geometry) (D.view dev.old) (D.view dev.new) }
    ensures works { Works (D.view dev.old) (D.view dev.new) }
    ensures faults { CountsFaultOf Status.DeviceFault result (D.view dev.old).faults (D.view dev.new).faults }
{
    let mut tally = Tally {
        granted: 0,
        refused: 0,
    };
    for number in 0..load.count {
        let Ok(reply) = core.apply(dev, placement, &draws.next_request()) else {
            return Err(Status::DeviceFault);
        };
        tally.count(&reply)?;
        dev.show_work_done(WorkDone::Requests {
            done: number + 1,
            of: load.count,
        });
    }
    match core.close(dev) {
        Ok(()) => Ok(Summary {
            count: load.count,
            granted: tally.granted,
            refused: tally.refused,
            free: core.free_count(),
            pointers: core.pointers(),
        }),
        Err(_) => Err(Status::DeviceFault),
    }
}
