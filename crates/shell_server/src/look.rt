//! A file or a directory read, part by part.

ghost use Rattle.std.specs.Prelude.{◌≡◌, ◌+◌, [], IfErr, IfOk, IfSome};
ghost use Rattle.fs_trees.specs.declared.ask.ShellAsk.TheVariants as ask;
ghost use Rattle.fs_port.specs.Files.{TellsNext, TellsPart, TellsSize};
ghost use Rattle.fs_walks.specs.Nexts.{AreBehind, TellsNames};
ghost use Rattle.serving.specs.Handling.{FitsDevice};
ghost use Rattle.shell_server.specs.Carried.{IsLooked};
ghost use Rattle.shell_server.specs.Kept.{AreReady, FitsShell, disk_state, shell_state};
ghost use Rattle.shell_server.specs.Shell.{shell_step};

use crate::started::Started;
use arrayvec::ArrayVec;
use core_blocks::{CoreBlocks, Placing};
use fs_port::{Files, FsRefusal, Path};
use fs_trees::Name;
use fs_walks::{NAMES_AT_ONCE, Place, Walks};
use image_device::Device;
use tsd_core::Core;
use tsd_model::Data;

/// How many bytes a file has.
pub fn size_on<F: Files, D: Device, L: Placing, K: Started>(
    files: &mut F,
    core: &mut Core,
    placement: &L,
    dev: &mut D,
    path: &Path,
) -> Result<u64, FsRefusal>
    requires ready { AreReady (F.view files.old) core.old }
    requires at { D.told → FitsDevice (FitsShell K.start (F.view files.old) core.old) (D.view dev.old) }
    ensures { IsLooked D.told K.start (ask.Cat path.now) (F.view files.old) (F.view files.new) core.old core.new
        (D.view dev.old) (D.view dev.new) TellsSize result }
{
    path.known();
    let mut blocks = CoreBlocks::new(core, placement, dev);
    files.size(&mut blocks, path)
}

/// The bytes of a file from an offset on, at most 4,096; none after an `Err`. Where a place is given, that is where
/// they begin; the answer is the place behind them.
pub fn part_on<F: Walks, D: Device, L: Placing, K: Started>(
    files: &mut F,
    core: &mut Core,
    placement: &L,
    dev: &mut D,
    path: &Path,
    start: u64,
    place: Option<Place>,
    into: &mut Data,
) -> Result<Option<Place>, FsRefusal>
    requires ready { AreReady (F.view files.old) core.old }
    requires at { D.told → FitsDevice (FitsShell K.start (F.view files.old) core.old) (D.view dev.old) }
    requires place { D.told → IfSome place (F.leads (F.view files.old) (disk_state core.old (D.view dev.old)) path.now
        start) }
    ensures looked { IsLooked D.told K.start (ask.Cat path.now) (F.view files.old) (F.view files.new) core.old core.new
        (D.view dev.old) (D.view dev.new) (λ _. TellsPart start into.new) result }
    ensures place { D.told → IfOk result (λ next. IfSome next (F.leads (F.view files.new) (disk_state core.new (D.view
        dev.new)) path.now (start + 4096))) }
    /// promise: A part that isn't read is empty.
    ensures nothing { IfErr result (λ _. into.new ≡ []) }
{
    path.known();
    let mut blocks = CoreBlocks::new(core, placement, dev);
    files.read_on(&mut blocks, path, start, place, into)
}

/// Some of the names in a directory that come next after another, in order; none where none comes.
fn names_on<F: Walks, D: Device, L: Placing, K: Started>(
    files: &mut F,
    core: &mut Core,
    placement: &L,
    dev: &mut D,
    path: &Path,
    after: &Name,
    into: &mut ArrayVec<Name, NAMES_AT_ONCE>,
) -> Result<(), FsRefusal>
    requires ready { AreReady (F.view files.old) core.old }
    requires at { D.told → FitsDevice (FitsShell K.start (F.view files.old) core.old) (D.view dev.old) }
    ensures { IsLooked D.told K.start (ask.Ls path.now) (F.view files.old) (F.view files.new) core.old core.new
        (D.view dev.old) (D.view dev.new) (λ _. TellsNames after.now into.new.items) result }
{
    path.known();
    let mut blocks = CoreBlocks::new(core, placement, dev);
    files.names_after(&mut blocks, path, after, into)
}

/// The least name in a directory above another; the empty name is below all. It is the first of those that were read
/// ahead; where there are none, some are read.
pub fn next_on<F: Walks, D: Device, L: Placing, K: Started>(
    files: &mut F,
    core: &mut Core,
    placement: &L,
    dev: &mut D,
    path: &Path,
    after: &Name,
    ahead: &mut ArrayVec<Name, NAMES_AT_ONCE>,
) -> Result<Option<Name>, FsRefusal>
    requires ready { AreReady (F.view files.old) core.old }
    requires at { D.told → FitsDevice (FitsShell K.start (F.view files.old) core.old) (D.view dev.old) }
    requires ahead { D.told → AreBehind after.now ahead.old.items (shell_step (shell_state (F.view files.old) (D.view
        dev.old).reads) (ask.Ls path.now)).answer }
    ensures looked { IsLooked D.told K.start (ask.Ls path.now) (F.view files.old) (F.view files.new) core.old core.new
        (D.view dev.old) (D.view dev.new) (TellsNext after.now) result }
    ensures ahead { D.told → IfOk result (λ next. IfSome next (λ name. AreBehind name ahead.new.items (shell_step
        (shell_state (F.view files.new) (D.view dev.new).reads) (ask.Ls path.now)).answer)) }
{
    if let Some(next) = ahead.pop_at(0) {
        return Ok(Some(next));
    }
    match names_on::<F, D, L, K>(files, core, placement, dev, path, after, ahead) {
        Ok(()) => Ok(ahead.pop_at(0)),
        Err(why) => Err(why),
    }
}
