//! A copy on a core that is open.

ghost use Rattle.std.specs.Prelude.{◌≡◌, OnOk};
ghost use Rattle.tsd_model.specs.Sessions.{no_sessions};
ghost use Rattle.image_world.specs.Stands.{world_of};
ghost use Rattle.volume_laws.specs.Quiet.{IsQuiet};
ghost use Rattle.gathered_tasks.specs.Rooms.{IsFree};
ghost use Rattle.image_copy.specs.Steps.{CopiesOn, IsSharing, IsStartOf};

use crate::ending::CopyEnd;
use crate::gathered::copy_committed;
use core_blocks::Placing;
use fs_port::Files;
use fs_walks::Walks;
use gathered_tasks::AskRoom;
use image_device::Device;
use image_shell::begin_session;
use tsd_core::Core;
use tsd_words::Status;

/// The session as which the source is asked.
pub(crate) const SOURCE_SESSION: u32 = 1;

/// The session as which the target is asked.
pub(crate) const TARGET_SESSION: u32 = 2;

/// Copies where no block is shared, and then does what is left to be done on the disk and puts the records of its
/// journal in place.
pub(crate) fn copy_and_close<A: Walks, B: Files, L: Placing, D: Device>(
    shared: Option<u32>,
    core: &mut Core,
    from: &mut A,
    into: &mut B,
    placement: &L,
    dev: &mut D,
    room: &mut AskRoom,
) -> Result<CopyEnd, Status>
    requires start { IsStartOf D.told (A.view from.old) (B.view into.old) core.old (D.view dev.old) }
    requires none { core.old.grants.sessions ≡ no_sessions }
    requires shared { D.told → IsSharing (world_of (D.view dev.old).reads) (A.view from.old).root (B.view into.old).root
        shared }
    requires room { IsFree room.old }
    ensures copies { CopiesOn D.told (A.view from.old) (B.view into.old) core.new (D.view dev.old) (D.view dev.new)
        result }
    ensures closed { D.told → OnOk result (IsQuiet (D.view dev.new).reads) }
{
    match copy_unless_shared(shared, core, from, into, placement, dev, room) {
        Ok(end) => match core.close(dev) {
            Ok(()) => Ok(end),
            Err(_) => Err(Status::DeviceFault),
        },
        Err(why) => Err(why),
    }
}

/// Opens the sessions, mounts the source and copies, where no block is shared.
fn copy_unless_shared<A: Walks, B: Files, L: Placing, D: Device>(
    shared: Option<u32>,
    core: &mut Core,
    from: &mut A,
    into: &mut B,
    placement: &L,
    dev: &mut D,
    room: &mut AskRoom,
) -> Result<CopyEnd, Status>
    requires start { IsStartOf D.told (A.view from.old) (B.view into.old) core.old (D.view dev.old) }
    requires none { core.old.grants.sessions ≡ no_sessions }
    requires shared { D.told → IsSharing (world_of (D.view dev.old).reads) (A.view from.old).root (B.view into.old).root
        shared }
    requires room { IsFree room.old }
    ensures { CopiesOn D.told (A.view from.old) (B.view into.old) core.new (D.view dev.old) (D.view dev.new) result }
{
    if let Some(block) = shared {
        return Ok(CopyEnd::Shared { block });
    }
    begin_session(core, placement, dev, SOURCE_SESSION)?;
    begin_session(core, placement, dev, TARGET_SESSION)?;
    copy_committed(core, from, into, placement, dev, room)
}
