//! A copy carried out in memory as long as there is room, and committed.

ghost use Rattle.std.specs.Prelude.{◌≡◌, true, is_some};
ghost use Rattle.image_world.specs.Stands.{world_of};
ghost use Rattle.fs_laws.specs.Apart.{AreApart};
ghost use Rattle.gathered_tasks.specs.Held.{IsReadyInMemory};
ghost use Rattle.gathered_tasks.specs.Rooms.{IsFree};
ghost use Rattle.image_copy.specs.Gathered.{IsCopyGathered, IsCopyReady};
ghost use Rattle.image_copy.specs.Steps.{AreBothOpen, CopiesOn, IsStartOf};

use crate::between::copy_between;
use crate::ending::CopyEnd;
use core_blocks::Placing;
use fs_port::Files;
use fs_walks::Walks;
use gathered_tasks::{AskOn, AskRoom, GatheredBlocks, Lending, begin, finish};
use image_device::Device;
use std::marker::Brand;
use tsd_core::Core;
use tsd_words::Status;

/// Mounts the source and copies, on a core with both sessions open. It commits each time when a batch is full, and once
/// in the end.
pub(crate) fn copy_committed<A: Walks, B: Files, L: Placing, D: Device>(
    core: &mut Core,
    from: &mut A,
    into: &mut B,
    placement: &L,
    dev: &mut D,
    room: &mut AskRoom,
) -> Result<CopyEnd, Status>
    requires start { IsStartOf D.told (A.view from.old) (B.view into.old) core.old (D.view dev.old) }
    requires open { AreBothOpen core.old }
    requires apart { D.told → AreApart (world_of (D.view dev.old).reads) (A.view from.old).root (B.view into.old).root }
    requires room { IsFree room.old }
    ensures { CopiesOn D.told (A.view from.old) (B.view into.old) core.new (D.view dev.old) (D.view dev.new) result }
{
    begin(core, room);
    let mut outcome = Err(Status::DeviceFault);
    let on = AskOn { core, dev, room };
    let _left = gather_copy::<A, B, D, L, Brand>(from, into, on, placement, &mut outcome);
    match outcome {
        Ok(end) => match finish(core, dev, room) {
            Ok(()) => Ok(end),
            Err(_) => Err(Status::DeviceFault),
        },
        Err(why) => Err(why),
    }
}

/// Copies with nothing committed in the end. What was lent is given back.
fn gather_copy<'a, A: Walks, B: Files, D: Device, L: Placing, K: Lending>(
    from: &mut A,
    into: &mut B,
    on: AskOn<'a, D>,
    placement: &'a L,
    outcome: &mut Result<CopyEnd, Status>,
) -> AskOn<'a, D>
    requires lent_core { on.core.ghost_name ≡ K.core }
    requires lent_dev { on.dev.ghost_name ≡ K.dev }
    requires lent_room { on.room.ghost_name ≡ K.room }
    requires ready { IsReadyInMemory on.core.now }
    requires here { is_some on.room.now.room ≡ true }
    requires start { IsCopyReady D.told D.view (A.view from.old) (B.view into.old) on.core.now on.room.now on.dev.now }
    ensures lent_core { result.core.ghost_name ≡ K.core }
    ensures lent_dev { result.dev.ghost_name ≡ K.dev }
    ensures lent_room { result.room.ghost_name ≡ K.room }
    ensures gathered { IsCopyGathered D.told D.view K.start (A.view from.old) (B.view into.old)
        (record { core = on.entry.core.now; room = on.entry.room.now; dev = on.entry.dev.now })
        (record { core = result.core.now; room = result.room.now; dev = result.dev.now }) outcome.new }
{
    let mut blocks = GatheredBlocks::<D, L, K>::new(on, placement);
    *outcome = copy_between(&mut blocks, from, into);
    blocks.leave()
}
