//! Calls one after the other over a disk that tells its world: what is put is read back, and what a crash leaves is
//! mounted.

ghost use Rattle.std.specs.Prelude.{◌≡◌, ◌⊎◌, take, false, OnOk, IfErr};
ghost use Rattle.tsd_model.specs.Sessions.{Fits};
ghost use Rattle.fs_trees.specs.Layouts.{tree_at, IsTidy};
ghost use Rattle.fs_trees.specs.Outside.{OthersStay};
ghost use Rattle.fs_trees.specs.Tree.{nothing};
ghost use Rattle.fs_trees.specs.declared.ask.ShellAsk.{ShellAsk};
ghost use Rattle.fs_trees.specs.declared.refusal.FsRefusal.TheVariants as no;
ghost use Rattle.fs_port.specs.Calls.{IsValidNow};
ghost use Rattle.fs_port.specs.Files.{IsClientReady, IsEitherTree, tree_after};
ghost use Rattle.fs_port.specs.Plain.{plain_view};
ghost use Rattle.fs_port.specs.declared.plain.PlainBlocks.{PlainBlocks};

use fs_port::{Files, PlainBlocks};
use fs_trees::{FsRefusal, Path};
use tsd_model::Data;

/// Makes an empty tree, puts a file into it and reads that: its bytes come back.
pub fn put_and_read_back<F: Files>(
    files: &mut F,
    disk: &mut PlainBlocks,
    path: &Path,
    bytes: &Data,
    into: &mut Data,
) -> Result<(), FsRefusal>
    requires ready { IsClientReady (F.view files.old) (plain_view disk.old) }
    requires valid { IsValidNow (plain_view disk.old) }
    ensures { OnOk result (into.new ≡ take 4096 bytes.now) }
{
    match files.make(disk) {
        Ok(()) => {}
        Err(refusal) => return Err(refusal),
    }
    match files.put(disk, path, bytes) {
        Ok(()) => {}
        Err(refusal) => return Err(refusal),
    }
    files.read_part(disk, path, 0, into)
}

/// Mounts a world that a crash within an ask left: the tree is the one before it or the one after it, and the world is
/// tidy. NotThisFs only where there is no tree, and else only a fault refuses it.
pub fn mount_what_is_left<F: Files>(files: &mut F, disk: &mut PlainBlocks) -> Result<(), FsRefusal>
    ghost was: { PlainBlocks × ShellAsk }
    requires ready { IsClientReady (F.view files.old) (plain_view disk.old) }
    requires left { IsEitherTree (F.view files.old) (plain_view was.0) was.1 disk.old.world }
    requires fits { Fits disk.old.world disk.old.sessions }
    ensures tree { OnOk result ((tree_at (F.view files.old).kind disk.new.world (F.view files.old).root
        ≡ tree_at (F.view files.old).kind was.0.world (F.view files.old).root)
        ⊎ (tree_at (F.view files.old).kind disk.new.world (F.view files.old).root
        ≡ tree_after (F.view files.old) (plain_view was.0) was.1)) }
    ensures tidy { OnOk result (IsTidy (F.view files.old).kind disk.new.world (F.view files.old).root) }
    ensures others { OnOk result (OthersStay (F.view files.old).root was.0.world disk.new.world) }
    ensures none { IfErr result (λ e. (e ≡ no.Device) ⊎ (tree_at (F.view files.old).kind disk.old.world
        (F.view files.old).root ≡ nothing)) }
{
    files.mount(disk)
}
