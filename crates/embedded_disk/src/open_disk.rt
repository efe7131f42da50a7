//! A disk that stays open from call to call.

ghost use Rattle.std.specs.Prelude.{◌≡◌, ◌≢◌, ◌⊎◌, ◌^◌, true, false, OnOk, IfOk, IfErr};
ghost use Rattle.tsd_model.specs.Run.{at_rest};
ghost use Rattle.tsd_model.specs.Sessions.{no_sessions};
ghost use Rattle.image_device.specs.Counts.{CountsFault, CountsFaultOf};
ghost use Rattle.image_device.specs.Runs.{IsFirm, LeavesOnly, LeavesPart};
ghost use Rattle.image_world.specs.Behind.{LeavesBehind, behind};
ghost use Rattle.image_world.specs.Stands.{world_of};
ghost use Rattle.recovery.specs.Opening.{IsForeign, IsUntouched, SparesDamaged, StandAlike};
ghost use Rattle.serving.specs.Faults.{TellsFaults, TellsPortFaults};
ghost use Rattle.serving.specs.Ran.{EndsOnce, moments, taking};
ghost use Rattle.tsd_core.specs.Core.{IsCoreAt, IsCoreReady, state_on};
ghost use Rattle.volume_laws.specs.Quiet.{IsQuiet};
ghost use Rattle.volume_laws.specs.Writes.{due};
ghost use Rattle.image_runs.specs.Opened.{IsOpened, IsUnopened};
ghost use Rattle.image_runs.specs.Server.{placed_on};
ghost use Rattle.embedded_disk.specs.Calls.{AnsweredFrames, Applied, shown};

use image_device::{Device, Failed, Port, Source};
use image_runs::{open_core, serve_core_in};
use place_policy::Placement;
use request_frames::FrameCutter;
use serving::{INPUT_MAX, Intake};
use std::alloc::Global;
use tsd_core::Core;
use tsd_map::FramesAtHand;
use tsd_words::Status;

/// A disk with its sessions, which stays open until a call on its device fails.
#[derive(Drop)]
pub struct OpenDisk {
    core: Core,

    /// Room for what comes in, which stays from call to call so that no call clears it.
    intake: Intake,

    /// Whether a call on the device failed: then it may not be used again.
    failed: bool,
    ghost sound: { failed ≡ false → IsCoreReady core },
}

impl OpenDisk {
    /// Opens the disk of an image, with no session open. What is wrong comes as the status that says so: NotImage,
    /// NoMemory, or DeviceFault where that count rose.
    pub fn open<D: Device>(alloc: Global, dev: &mut D) -> Result<OpenDisk, Status>
        /// promise (with at, state, none): The disk of the world for which the image stands, with no session open and
        /// with nothing left to be done, or why it wasn't opened as a status.
        ensures read { D.told → IsOpened (D.view dev.old).reads result }
        ensures stops { IfErr result IsUnopened }
        ensures usable { IfOk result (λ d. d.failed ≡ false) }
        ensures none { IfOk result (λ d. d.core.grants.sessions ≡ no_sessions) }
        ensures at { D.told → IfOk result (λ d. IsCoreAt d.core (D.view dev.new)) }
        ensures state { D.told → IfOk result (λ d. state_on d.core (D.view dev.new).reads
            ≡ at_rest (world_of (D.view dev.old).reads)) }
        ensures sent { D.told → (D.view dev.new).sent ≡ (D.view dev.old).sent }
        /// promise: A crash at any moment leaves an image that stands for the same world, or for none as before.
        ensures any_moment { D.told → IsFirm (D.view dev.old) → LeavesOnly (D.view dev.old) (D.view dev.new)
            (λ x f. StandAlike (D.view dev.old).reads x × (f ≡ (D.view dev.old).sent)) }
        /// promise (with spared): Where the image fails one of the first three tests, nothing is written; where it
        /// fails another, nothing is lost that a repair could use, whatever is answered.
        ensures untouched { D.told → IsForeign (D.view dev.old).reads
            → IsUntouched (D.view dev.old) (D.view dev.new) }
        ensures spared { D.told → SparesDamaged (D.view dev.old) (D.view dev.new) }
        /// promise: A crash at any moment leaves what lies after the end of the image as it was.
        ensures behind { D.told → IsFirm (D.view dev.old) → LeavesBehind (D.view dev.old) (D.view dev.new) }
        ensures faults { CountsFaultOf Status.DeviceFault result (D.view dev.old).faults (D.view dev.new).faults }
    {
        let core = open_core(alloc, dev)?;
        Ok(OpenDisk {
            core,
            intake: Intake::new(INPUT_MAX),
            failed: false,
        })
    }

    /// Whether a call on the device failed, so that it may not be used again.
    pub fn has_failed(&self) -> bool
        ensures { result ≡ self.now.failed }
    {
        self.failed
    }

    /// Answers the frames of an input one after another, each reply sent whole before the next request is carried out.
    /// Free blocks are taken by `placement`. What a request leaves to be done may be left to a later call, unless the
    /// input ends.
    ///
    /// The status is NoMemory where there was no room for a frame, and then nothing is called; DeviceFault, SourceFault
    /// or PutFault where that count rose; TooLong, Truncated, or Done.
    pub fn serve<S: Source, P: Port>(
        &mut self,
        alloc: Global,
        placement: &Placement,
        source: &mut S,
        port: &mut P,
    ) -> Status
        requires usable { self.old.failed ≡ false }
        requires at { P.told → IsCoreAt self.old.core (P.view port.old) }
        /// promise: **What the loop over requests promises, said of the one call**: by the status what came in, which
        /// requests that holds, what was sent, what a crash at any moment leaves, and the state of the disk with its
        /// sessions before and after; or there was no room for a frame, and nothing was called.
        ensures ran { Applied result
            (placed_on placement.now.kind self.old.core (P.view port.old).reads)
            (placed_on placement.now.kind self.new.core (P.view port.new).reads)
            (taking S.told S.taken S.left_bytes S.ended source.old source.new) (due self.old.core.volume)
            (moments P.told P.view port.old port.new) }
        /// promise (with at): It may be used again exactly where the device didn't fail.
        ensures failed { self.new.failed ≡ true → result ≡ Status.DeviceFault }
        ensures usable { result ≢ Status.DeviceFault → self.new.failed ≡ false }
        ensures at { result ≢ Status.DeviceFault → P.told → IsCoreAt self.new.core (P.view port.new) }
        /// promise: After Done nothing is left to be done.
        ensures closed { result ≡ Status.Done → P.told → IsQuiet (P.view port.new).reads }
        /// promise: What lies after the image is as it was in each image that a crash leaves.
        ensures behind { P.told → LeavesPart (behind self.old.core.volume.tables.geometry) (P.view port.old)
            (P.view port.new) ⊎ (port.new ≡ port.old) }
        ensures once { EndsOnce (S.ends source.old) (S.ends source.new) }
        /// promise: A count of faults rose exactly where the status is that fault's.
        ensures faults { TellsFaults result (S.faults source.old) (S.faults source.new) (P.view port.old)
            (P.view port.new) }
    {
        match FrameCutter::new(alloc) {
            Ok(mut cutter) => {
                self.intake.renew(INPUT_MAX);
                let status = serve_core_in(
                    &mut self.core,
                    placement,
                    &mut cutter,
                    source,
                    port,
                    INPUT_MAX,
                    &mut self.intake,
                );
                self.failed = matches!(status, Status::DeviceFault);
                status
            }
            Err(_) => Status::NoMemory,
        }
    }

    /// Answers the frames in memory one after another, each reply sent whole before the next request is carried out.
    /// What they leave to be done may be left to a later call. Bytes behind the last whole frame count for nothing.
    ///
    /// The status is Done where all were answered; NoMemory where there was no room for a frame, and then nothing is
    /// called; DeviceFault or PutFault where that count rose; or TooLong.
    pub fn apply<P: Port>(
        &mut self,
        alloc: Global,
        placement: &Placement,
        frames: &[u8],
        port: &mut P,
    ) -> Status
        requires usable { self.old.failed ≡ false }
        requires at { P.told → IsCoreAt self.old.core (P.view port.old) }
        /// promise: **The frames of a call are answered in order, as the abstract disk answers them**: after Done the
        /// answer to each was sent whole, and the disk with its sessions is in the state that they lead to, from the
        /// one in which the call before left it; else the answers to a front of them, by the status. A crash at any
        /// moment leaves the state after as many of these requests as whole answers were sent, or after one more, so
        /// with every request of each call before.
        ensures answered { AnsweredFrames result frames.now
            (placed_on placement.now.kind self.old.core (P.view port.old).reads)
            (placed_on placement.now.kind self.new.core (P.view port.new).reads)
            (due self.old.core.volume) (moments P.told P.view port.old port.new) }
        ensures failed { self.new.failed ≡ true → result ≡ Status.DeviceFault }
        /// promise (with at): It may be used again unless the device failed.
        ensures usable { result ≢ Status.DeviceFault → self.new.failed ≡ false }
        ensures at { result ≢ Status.DeviceFault → P.told → IsCoreAt self.new.core (P.view port.new) }
        /// promise: A count of faults rose exactly where the status is that fault's.
        ensures faults { TellsPortFaults result (P.view port.old) (P.view port.new) }
    {
        let mut source = FramesAtHand::new(frames);
        let status = self.serve(alloc, placement, &mut source, port);
        shown(status)
    }

    /// Does all that is left to be done. `Failed` comes only where the count of faults rose, and then it may not be
    /// used again.
    pub fn close<D: Device>(&mut self, dev: &mut D) -> Result<(), Failed>
        requires usable { self.old.failed ≡ false }
        requires at { D.told → IsCoreAt self.old.core (D.view dev.old) }
        ensures usable { OnOk result (self.new.failed ≡ false) }
        ensures at { D.told → OnOk result (IsCoreAt self.new.core (D.view dev.new)) }
        /// promise (with closed): The state stays, and nothing is left to be done.
        ensures state { D.told → OnOk result (state_on self.new.core (D.view dev.new).reads
            ≡ state_on self.old.core (D.view dev.old).reads) }
        ensures closed { D.told → OnOk result (IsQuiet (D.view dev.new).reads) }
        ensures sent { D.told → (D.view dev.new).sent ≡ (D.view dev.old).sent }
        ensures faults { CountsFault result (D.view dev.old).faults (D.view dev.new).faults }
    {
        let closed = self.core.close(dev);
        self.failed = closed.is_err();
        closed
    }
}

/// The status of a call whose frames came to an end in memory.
fn shown(status: Status) -> Status
    ensures { result ≡ shown status }
{
    match status {
        Status::SourceFault => Status::Done,
        other => other,
    }
}
