//! The names in a directory, answered name by name.

ghost use Rattle.std.specs.Prelude.{[], IfSome};
ghost use Rattle.fs_trees.specs.declared.ask.ShellAsk.TheVariants as ask;
ghost use Rattle.shell_text.specs.declared.file_ask.FileAsk.TheVariants as file;
ghost use Rattle.fs_port.specs.Files.{TellsNext};
ghost use Rattle.fs_walks.specs.Nexts.{AreBehind};
ghost use Rattle.serving.specs.Handling.{FitsDevice};
ghost use Rattle.shell_server.specs.Carried.{IsServed};
ghost use Rattle.shell_server.specs.Kept.{AreReady, FitsShell, shell_state};
ghost use Rattle.shell_server.specs.Shell.{shell_step};

use crate::look::next_on;
use crate::send::{send_change, send_end, send_text};
use crate::started::Started;
use arrayvec::ArrayVec;
use core_blocks::Placing;
use fs_port::{FsRefusal, Path};
use fs_trees::{NAMES_MAX, Name};
use fs_walks::{NAMES_AT_ONCE, Walks};
use image_device::Port;
use script_text::OutBuf;
use shell_text::{print_name, print_names_head};
use tsd_core::Core;
use tsd_words::Status;

/// Sends the names in a directory, name by name.
pub fn answer_ls<F: Walks, P: Port, L: Placing, K: Started>(
    files: &mut F,
    core: &mut Core,
    placement: &L,
    port: &mut P,
    path: &Path,
) -> Result<(), Status>
    requires ready { AreReady (F.view files.old) core.old }
    requires at { P.told → FitsDevice (FitsShell K.start (F.view files.old) core.old) (P.view port.old) }
    ensures { IsServed P.told K.start (file.Shell (ask.Ls path.now)) (F.view files.old) (F.view files.new) core.old
        core.new (P.view port.old) (P.view port.new) result }
{
    path.known();
    let none = Name::new();
    let mut ahead = ArrayVec::new();
    match next_on::<F, P, L, K>(files, core, placement, port, path, &none, &mut ahead) {
        Ok(first) => {
            send_names::<F, P, L, K>(files, core, placement, port, path, first, &mut ahead)
        }
        Err(why) => send_change(port, Err(why)),
    }
}

/// Sends the names in a directory, of which this is the first, and of which some were read ahead. A disk that tells its
/// world has all of them.
fn send_names<F: Walks, P: Port, L: Placing, K: Started>(
    files: &mut F,
    core: &mut Core,
    placement: &L,
    port: &mut P,
    path: &Path,
    first: Option<Name>,
    ahead: &mut ArrayVec<Name, NAMES_AT_ONCE>,
) -> Result<(), Status>
    requires ready { AreReady (F.view files.old) core.old }
    requires at { P.told → FitsDevice (FitsShell K.start (F.view files.old) core.old) (P.view port.old) }
    requires told { P.told → TellsNext [] first (shell_step (shell_state (F.view files.old) (P.view port.old).reads)
        (ask.Ls path.now)).answer }
    requires ahead { P.told → IfSome first (λ name. AreBehind name ahead.old.items (shell_step (shell_state (F.view
        files.old) (P.view port.old).reads) (ask.Ls path.now)).answer) }
    ensures { IsServed P.told K.start (file.Shell (ask.Ls path.now)) (F.view files.old) (F.view files.new) core.old
        core.new (P.view port.old) (P.view port.new) result }
{
    path.known();
    let mut line = OutBuf::new();
    print_names_head(first.is_none(), &mut line);
    send_text(port, line.as_slice())?;
    let mut next = first;
    let mut left = NAMES_MAX;
    while left > 0 {
        let name = match next {
            Some(name) => name,
            None => return send_end(port),
        };
        print_name(&name, &mut line);
        send_text(port, line.as_slice())?;
        match next_on::<F, P, L, K>(files, core, placement, port, path, &name, ahead) {
            Ok(more) => next = more,
            Err(FsRefusal::Device) => return Err(Status::DeviceFault),
            Err(_) => return send_end(port),
        }
        left -= 1;
    }
    send_end(port)
}
