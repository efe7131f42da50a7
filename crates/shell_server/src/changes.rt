//! Asks that change the tree.

ghost use Rattle.std.specs.Prelude.{◌≡◌, ◌≢◌, true, false, is_some, Err, IsTrue};
ghost use Rattle.tsd_model.specs.Sessions.{Fits};
ghost use Rattle.tsd_model.specs.Valid.{IsValid};
ghost use Rattle.tsd_core.specs.Core.{sessions_of};
ghost use Rattle.fs_trees.specs.Tree.{is_there};
ghost use Rattle.fs_trees.specs.declared.refusal.FsRefusal.TheVariants as no;
ghost use Rattle.fs_port.specs.Calls.{IsValidNow};
ghost use Rattle.fs_port.specs.Files.{HasTree, IsClientReady, OnAnswer};
ghost use Rattle.gathered_tasks.specs.Blocks.{held_world};
ghost use Rattle.gathered_tasks.specs.Held.{IsInMemory, IsReadyInMemory};
ghost use Rattle.gathered_tasks.specs.Rooms.{IsFree, gathered};
ghost use Rattle.serving.specs.Handling.{FitsDevice};
ghost use Rattle.shell_server.specs.Carried.{IsCarried};
ghost use Rattle.shell_server.specs.Changed.{IsChanged, IsGathered, IsOneCommit, is_change};
ghost use Rattle.shell_server.specs.Kept.{AreReady, FitsShell, IsClient};
ghost use Rattle.shell_server.specs.Shell.{is_heard, tree_under};

use crate::started::Started;
use core_blocks::Placing;
use fs_port::{Blocks, Files, FsRefusal};
use fs_trees::ShellAsk;
use gathered_tasks::{AskOn, AskRoom, GatheredBlocks, Lending, begin, finish};
use image_device::Device;
use std::marker::Brand;
use tsd_core::Core;

/// Carries out an ask that changes the tree, on a disk of blocks.
pub fn change<F: Files, B: Blocks>(
    files: &mut F,
    disk: &mut B,
    request: &ShellAsk,
) -> Result<(), FsRefusal>
    requires changes { IsTrue (is_change request.now) }
    requires heard { IsTrue (is_heard (F.view files.old).kind request.now) }
    requires ready { IsClientReady (F.view files.old) (B.view disk.old) }
    requires valid { B.told → IsValidNow (B.view disk.old) }
    requires tree { B.told → HasTree (F.view files.old) (B.view disk.old) }
    ensures { IsChanged B.told (F.view files.old) (F.view files.new) (B.view disk.old) (B.view disk.new) request.now
        result }
{
    match request {
        ShellAsk::Make => files.make(disk),
        ShellAsk::Put { path, bytes } => files.put(disk, path, bytes),
        ShellAsk::Append { path, bytes } => files.append(disk, path, bytes),
        ShellAsk::MakeDir { path } => files.make_dir(disk, path),
        ShellAsk::Rm { path } => files.remove(disk, path),
        ShellAsk::Copy { path, new } => files.copy(disk, path, new),
        ShellAsk::Bad | ShellAsk::Cat { .. } | ShellAsk::Ls { .. } | ShellAsk::Df => unreachable!(),
    }
}

/// Carries it out on the disk of a core, as one commit where that has room for it, and answers nothing yet. The room is
/// free before it, and unless the device failed, behind it.
pub fn change_on<F: Files, D: Device, L: Placing, K: Started>(
    files: &mut F,
    core: &mut Core,
    placement: &L,
    dev: &mut D,
    room: &mut AskRoom,
    request: &ShellAsk,
) -> Result<(), FsRefusal>
    requires changes { IsTrue (is_change request.now) }
    requires heard { IsTrue (is_heard (F.view files.old).kind request.now) }
    requires ready { AreReady (F.view files.old) core.old }
    requires at { D.told → FitsDevice (FitsShell K.start (F.view files.old) core.old) (D.view dev.old) }
    requires room { IsFree room.old }
    ensures carried { IsCarried D.told K.start request.now (F.view files.old) (F.view files.new) core.old core.new
        (D.view dev.old) (D.view dev.new) result }
    ensures room { OnAnswer result (IsFree room.new) }
    /// promise: Where a batch has room for all that its requests change, it is one commit: 236 sectors are written at
    /// most.
    ensures once { D.told → IsOneCommit D.view (D.view dev.old) (D.view dev.new) }
{
    begin(core, room);
    let mut outcome = Err(FsRefusal::Device);
    let on = AskOn { core, dev, room };
    let _left = gather::<F, D, L, Brand>(files, on, placement, request, &mut outcome);
    if is_fault(&outcome) {
        return Err(FsRefusal::Device);
    }
    if finish(core, dev, room).is_err() {
        return Err(FsRefusal::Device);
    }
    outcome
}

/// Carries it out in memory as far as there is room, without a commit at its end. What was lent is given back.
fn gather<'a, F: Files, D: Device, L: Placing, K: Lending>(
    files: &mut F,
    on: AskOn<'a, D>,
    placement: &'a L,
    request: &ShellAsk,
    outcome: &mut Result<(), FsRefusal>,
) -> AskOn<'a, D>
    requires changes { IsTrue (is_change request.now) }
    requires heard { IsTrue (is_heard (F.view files.old).kind request.now) }
    requires lent_core { on.core.ghost_name ≡ K.core }
    requires lent_dev { on.dev.ghost_name ≡ K.dev }
    requires lent_room { on.room.ghost_name ≡ K.room }
    requires ready { IsReadyInMemory on.core.now }
    requires client { IsClient (F.view files.old) on.core.now }
    requires here { is_some on.room.now.room ≡ true }
    requires at { D.told → IsInMemory on.core.now on.room.now.ring (gathered on.room.now) (D.view on.dev.now) }
    requires valid { D.told → IsValid (held_world D.view on.room.now on.dev.now) }
    requires fits { D.told → Fits (held_world D.view on.room.now on.dev.now) (sessions_of on.core.now) }
    requires tree { D.told → (F.view files.old).mounted ≡ true → IsTrue (is_there (tree_under (F.view files.old)
        (held_world D.view on.room.now on.dev.now))) }
    ensures lent_core { result.core.ghost_name ≡ K.core }
    ensures lent_dev { result.dev.ghost_name ≡ K.dev }
    ensures lent_room { result.room.ghost_name ≡ K.room }
    ensures gathered { IsGathered D.told D.view K.start (F.view files.old) (F.view files.new)
        (record { core = on.entry.core.now; room = on.entry.room.now; dev = on.entry.dev.now })
        (record { core = result.core.now; room = result.room.now; dev = result.dev.now }) request.now outcome.new }
{
    let mut blocks = GatheredBlocks::<D, L, K>::new(on, placement);
    *outcome = change(files, &mut blocks, request);
    blocks.leave()
}

/// Whether the device failed.
fn is_fault(outcome: &Result<(), FsRefusal>) -> bool
    ensures is { result ≡ true → outcome.now ≡ Err no.Device }
    ensures is_not { result ≡ false → outcome.now ≢ Err no.Device }
{
    matches!(outcome, Err(FsRefusal::Device))
}
