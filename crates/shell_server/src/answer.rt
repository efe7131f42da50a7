//! One ask, answered.

ghost use Rattle.std.specs.Prelude.{◌≡◌, ◌≢◌, IsTrue, Err};
ghost use Rattle.fs_trees.specs.declared.ask.ShellAsk.TheVariants as ask;
ghost use Rattle.shell_text.specs.declared.file_ask.FileAsk.TheVariants as file;
ghost use Rattle.gathered_tasks.specs.Rooms.{IsFree};
ghost use Rattle.serving.specs.Handling.{FitsDevice};
ghost use Rattle.shell_server.specs.Carried.{IsServed};
ghost use Rattle.shell_server.specs.Changed.{is_change};
ghost use Rattle.fs_port.specs.Files.{TellsSize};
ghost use Rattle.shell_server.specs.Kept.{AreReady, FitsShell, shell_state};
ghost use Rattle.shell_server.specs.Shell.{is_heard, shell_step};

use crate::changes::change_on;
use crate::free::answer_df;
use crate::listing::answer_ls;
use crate::look::{part_on, size_on};
use crate::looking::{answer_next, answer_read, answer_size};
use crate::send::{send_bad, send_change, send_end, send_text};
use crate::started::Started;
use core_blocks::Placing;
use fs_port::{Files, FsRefusal, Path};
use fs_trees::ShellAsk;
use fs_walks::Walks;
use gathered_tasks::AskRoom;
use image_device::Port;
use script_text::OutBuf;
use shell_text::{FileAsk, print_data_head, print_data_part};
use tsd_core::Core;
use tsd_model::Data;
use tsd_words::Status;

/// Answers an ask of a tree: one of the shell as it is carried out, and any other by what it sees.
pub fn answer_file<F: Walks, P: Port, L: Placing, K: Started>(
    files: &mut F,
    core: &mut Core,
    placement: &L,
    port: &mut P,
    room: &mut AskRoom,
    request: &FileAsk,
) -> Result<(), Status>
    requires ready { AreReady (F.view files.old) core.old }
    requires at { P.told → FitsDevice (FitsShell K.start (F.view files.old) core.old) (P.view port.old) }
    requires room { IsFree room.old }
    ensures served { IsServed P.told K.start request.now (F.view files.old) (F.view files.new) core.old core.new
        (P.view port.old) (P.view port.new) result }
    ensures room { result ≢ Err Status.DeviceFault → IsFree room.new }
{
    match request {
        FileAsk::Shell { ask } => answer_ask::<F, P, L, K>(files, core, placement, port, room, ask),
        FileAsk::Size { path } => answer_size::<F, P, L, K>(files, core, placement, port, path),
        FileAsk::Read { path, start, count } => {
            answer_read::<F, P, L, K>(files, core, placement, port, path, *start, *count)
        }
        FileAsk::Next { path, after } => {
            answer_next::<F, P, L, K>(files, core, placement, port, path, after)
        }
    }
}

/// Carries out an ask that changes the tree, and sends the answer whole.
pub fn answer_change<F: Files, P: Port, L: Placing, K: Started>(
    files: &mut F,
    core: &mut Core,
    placement: &L,
    port: &mut P,
    room: &mut AskRoom,
    request: &ShellAsk,
) -> Result<(), Status>
    requires changes { IsTrue (is_change request.now) }
    requires heard { IsTrue (is_heard (F.view files.old).kind request.now) }
    requires ready { AreReady (F.view files.old) core.old }
    requires at { P.told → FitsDevice (FitsShell K.start (F.view files.old) core.old) (P.view port.old) }
    requires room { IsFree room.old }
    ensures served { IsServed P.told K.start (file.Shell request.now) (F.view files.old) (F.view files.new) core.old
        core.new (P.view port.old) (P.view port.new) result }
    ensures room { result ≢ Err Status.DeviceFault → IsFree room.new }
{
    let outcome = change_on::<F, P, L, K>(files, core, placement, port, room, request);
    send_change(port, outcome)
}

/// Sends the bytes of a file, part by part.
pub fn answer_cat<F: Walks, P: Port, L: Placing, K: Started>(
    files: &mut F,
    core: &mut Core,
    placement: &L,
    port: &mut P,
    path: &Path,
) -> Result<(), Status>
    requires ready { AreReady (F.view files.old) core.old }
    requires at { P.told → FitsDevice (FitsShell K.start (F.view files.old) core.old) (P.view port.old) }
    ensures { IsServed P.told K.start (file.Shell (ask.Cat path.now)) (F.view files.old) (F.view files.new) core.old
        core.new (P.view port.old) (P.view port.new) result }
{
    path.known();
    match size_on::<F, P, L, K>(files, core, placement, port, path) {
        Ok(size) => send_file::<F, P, L, K>(files, core, placement, port, path, size),
        Err(why) => send_change(port, Err(why)),
    }
}

/// Sends the bytes of a file of this size, part by part. A disk that tells its world has all of them.
fn send_file<F: Walks, P: Port, L: Placing, K: Started>(
    files: &mut F,
    core: &mut Core,
    placement: &L,
    port: &mut P,
    path: &Path,
    size: u64,
) -> Result<(), Status>
    requires ready { AreReady (F.view files.old) core.old }
    requires at { P.told → FitsDevice (FitsShell K.start (F.view files.old) core.old) (P.view port.old) }
    requires told { P.told → TellsSize size (shell_step (shell_state (F.view files.old) (P.view port.old).reads)
        (ask.Cat path.now)).answer }
    ensures { IsServed P.told K.start (file.Shell (ask.Cat path.now)) (F.view files.old) (F.view files.new) core.old
        core.new (P.view port.old) (P.view port.new) result }
{
    path.known();
    let mut line = OutBuf::new();
    print_data_head(size == 0, &mut line);
    send_text(port, line.as_slice())?;
    let mut part = Data::new();
    let mut place = None;
    let mut start: u64 = 0;
    while start < size {
        match part_on::<F, P, L, K>(files, core, placement, port, path, start, place, &mut part) {
            Ok(next) => place = next,
            Err(FsRefusal::Device) => return Err(Status::DeviceFault),
            Err(_) => return send_end(port),
        }
        print_data_part(part.as_slice(), &mut line);
        send_text(port, line.as_slice())?;
        start = start.saturating_add(4096);
    }
    send_end(port)
}

/// Carries out an ask of the shell and sends its answer. One that is not heard counts as one that asks nothing.
pub fn answer_ask<F: Walks, P: Port, L: Placing, K: Started>(
    files: &mut F,
    core: &mut Core,
    placement: &L,
    port: &mut P,
    room: &mut AskRoom,
    request: &ShellAsk,
) -> Result<(), Status>
    requires ready { AreReady (F.view files.old) core.old }
    requires at { P.told → FitsDevice (FitsShell K.start (F.view files.old) core.old) (P.view port.old) }
    requires room { IsFree room.old }
    ensures served { IsServed P.told K.start (file.Shell request.now) (F.view files.old) (F.view files.new) core.old
        core.new (P.view port.old) (P.view port.new) result }
    ensures room { result ≢ Err Status.DeviceFault → IsFree room.new }
{
    if !is_heard(files, request) {
        return send_bad(port);
    }
    match request {
        ShellAsk::Bad => send_bad(port),
        ShellAsk::Cat { path } => answer_cat::<F, P, L, K>(files, core, placement, port, path),
        ShellAsk::Ls { path } => answer_ls::<F, P, L, K>(files, core, placement, port, path),
        ShellAsk::Df => answer_df::<F, P, L, K>(files, core, placement, port),
        _ => answer_change::<F, P, L, K>(files, core, placement, port, room, request),
    }
}

/// Whether the layout has it.
fn is_heard<F: Files>(files: &F, request: &ShellAsk) -> bool
    ensures { result ≡ is_heard (F.view files.now).kind request.now }
{
    match request {
        ShellAsk::Put { path, .. }
        | ShellAsk::Append { path, .. }
        | ShellAsk::Cat { path }
        | ShellAsk::Ls { path }
        | ShellAsk::Rm { path } => {
            path.known();
            true
        }
        ShellAsk::MakeDir { path } => {
            path.known();
            files.has_dirs()
        }
        ShellAsk::Copy { path, new } => {
            path.known();
            new.known();
            files.has_dirs()
        }
        ShellAsk::Bad | ShellAsk::Make | ShellAsk::Df => true,
    }
}
