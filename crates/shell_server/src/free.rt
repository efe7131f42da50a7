//! The number of free blocks, answered.

ghost use Rattle.std.specs.Prelude.{◌≡◌};
ghost use Rattle.fs_trees.specs.Answer.{available};
ghost use Rattle.fs_trees.specs.declared.ask.ShellAsk.TheVariants as ask;
ghost use Rattle.shell_text.specs.declared.file_ask.FileAsk.TheVariants as file;
ghost use Rattle.serving.specs.Handling.{FitsDevice};
ghost use Rattle.shell_server.specs.Carried.{IsLooked, IsServed};
ghost use Rattle.shell_server.specs.Kept.{AreReady, FitsShell};

use crate::send::{send_change, send_free};
use crate::started::Started;
use core_blocks::{CoreBlocks, Placing};
use fs_port::{Files, FsRefusal, free_blocks};
use image_device::{Device, Port};
use tsd_core::Core;
use tsd_words::Status;

/// How many blocks are free, whatever is mounted. The file system is not asked.
pub fn free_on<F: Files, D: Device, L: Placing, K: Started>(
    files: &F,
    core: &mut Core,
    placement: &L,
    dev: &mut D,
) -> Result<u32, FsRefusal>
    requires ready { AreReady (F.view files.now) core.old }
    requires at { D.told → FitsDevice (FitsShell K.start (F.view files.now) core.old) (D.view dev.old) }
    ensures { IsLooked D.told K.start ask.Df (F.view files.now) (F.view files.now) core.old core.new (D.view dev.old)
        (D.view dev.new) (λ n answer. answer ≡ available n) result }
{
    let mut blocks = CoreBlocks::new(core, placement, dev);
    free_blocks(&mut blocks)
}

/// Sends the number of free blocks.
pub fn answer_df<F: Files, P: Port, L: Placing, K: Started>(
    files: &mut F,
    core: &mut Core,
    placement: &L,
    port: &mut P,
) -> Result<(), Status>
    requires ready { AreReady (F.view files.old) core.old }
    requires at { P.told → FitsDevice (FitsShell K.start (F.view files.old) core.old) (P.view port.old) }
    ensures { IsServed P.told K.start (file.Shell ask.Df) (F.view files.old) (F.view files.new) core.old core.new
        (P.view port.old) (P.view port.new) result }
{
    match free_on::<F, P, L, K>(files, core, placement, port) {
        Ok(count) => send_free(port, count),
        Err(why) => send_change(port, Err(why)),
    }
}
