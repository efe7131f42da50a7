//! Asks that only look, answered.

ghost use Rattle.std.specs.Prelude.{◌≡◌, IsTrue, Some, take};
ghost use Rattle.fs_trees.specs.declared.ask.ShellAsk.TheVariants as ask;
ghost use Rattle.fs_port.specs.Files.{TellsNext};
ghost use Rattle.serving.specs.Handling.{FitsDevice};
ghost use Rattle.shell_server.specs.Carried.{IsServed};
ghost use Rattle.shell_server.specs.Kept.{AreReady, FitsShell, shell_state};
ghost use Rattle.shell_server.specs.Shell.{shell_step};
ghost use Rattle.shell_text.specs.FileBodies.{is_after};
ghost use Rattle.shell_text.specs.declared.file_ask.FileAsk.TheVariants as file;

use crate::look::{next_on, part_on, size_on};
use crate::seen::{send_dir, send_next_dir, send_next_file, send_no_name, send_part, send_size};
use crate::send::{send_bad, send_change};
use crate::started::Started;
use arrayvec::ArrayVec;
use core_blocks::Placing;
use fs_port::{FsRefusal, Path};
use fs_trees::{Name, is_name};
use fs_walks::Walks;
use image_device::Port;
use tsd_core::Core;
use tsd_model::Data;
use tsd_words::Status;

/// Sends what stands at a path: a file, with how many bytes it has, or a directory.
pub fn answer_size<F: Walks, P: Port, L: Placing, K: Started>(
    files: &mut F,
    core: &mut Core,
    placement: &L,
    port: &mut P,
    path: &Path,
) -> Result<(), Status>
    requires ready { AreReady (F.view files.old) core.old }
    requires at { P.told → FitsDevice (FitsShell K.start (F.view files.old) core.old) (P.view port.old) }
    ensures { IsServed P.told K.start (file.Size path.now) (F.view files.old) (F.view files.new) core.old
        core.new (P.view port.old) (P.view port.new) result }
{
    match size_on::<F, P, L, K>(files, core, placement, port, path) {
        Ok(size) => send_size(port, size),
        Err(FsRefusal::IsDir) => send_dir(port),
        Err(why) => send_change(port, Err(why)),
    }
}

/// Sends the bytes of a file from an offset on, so many and 4,096 at most.
pub fn answer_read<F: Walks, P: Port, L: Placing, K: Started>(
    files: &mut F,
    core: &mut Core,
    placement: &L,
    port: &mut P,
    path: &Path,
    start: u64,
    count: u32,
) -> Result<(), Status>
    requires ready { AreReady (F.view files.old) core.old }
    requires at { P.told → FitsDevice (FitsShell K.start (F.view files.old) core.old) (P.view port.old) }
    ensures { IsServed P.told K.start (file.Read path.now start count) (F.view files.old) (F.view files.new) core.old
        core.new (P.view port.old) (P.view port.new) result }
{
    let mut part = Data::new();
    match part_on::<F, P, L, K>(files, core, placement, port, path, start, None, &mut part) {
        Ok(_) => send_part(port, first_of(part.as_slice(), count)),
        Err(why) => send_change(port, Err(why)),
    }
}

/// So many bytes at the front, or all.
fn first_of(bytes: &[u8], count: u32) -> &[u8]
    ensures { result.now ≡ take count bytes.now }
{
    let used = bytes.len().min(count as usize);
    &bytes[..used]
}

/// Whether a name may stand above it: it is empty, or a name.
fn is_after(name: &Name) -> bool
    ensures { result ≡ is_after name.now }
{
    name.len() == 0 || is_name(name.as_slice())
}

/// Sends the least name in a directory above another, and what it names.
pub fn answer_next<F: Walks, P: Port, L: Placing, K: Started>(
    files: &mut F,
    core: &mut Core,
    placement: &L,
    port: &mut P,
    path: &Path,
    after: &Name,
) -> Result<(), Status>
    requires ready { AreReady (F.view files.old) core.old }
    requires at { P.told → FitsDevice (FitsShell K.start (F.view files.old) core.old) (P.view port.old) }
    ensures { IsServed P.told K.start (file.Next path.now after.now) (F.view files.old) (F.view files.new) core.old
        core.new (P.view port.old) (P.view port.new) result }
{
    if !is_after(after) {
        return send_bad(port);
    }
    let mut ahead = ArrayVec::new();
    match next_on::<F, P, L, K>(files, core, placement, port, path, after, &mut ahead) {
        Ok(Some(name)) => {
            answer_child::<F, P, L, K>(files, core, placement, port, path, after, &name)
        }
        Ok(None) => send_no_name(port),
        Err(why) => send_change(port, Err(why)),
    }
}

/// Sends the next name, and what it names. Nothing in a tree stands deeper than paths may be long, so where the disk
/// tells its world the path of the name is one.
fn answer_child<F: Walks, P: Port, L: Placing, K: Started>(
    files: &mut F,
    core: &mut Core,
    placement: &L,
    port: &mut P,
    path: &Path,
    after: &Name,
    name: &Name,
) -> Result<(), Status>
    requires ready { AreReady (F.view files.old) core.old }
    requires at { P.told → FitsDevice (FitsShell K.start (F.view files.old) core.old) (P.view port.old) }
    requires after { IsTrue (is_after after.now) }
    requires told { P.told → TellsNext after.now (Some name.now) (shell_step (shell_state (F.view files.old) (P.view
        port.old).reads) (ask.Ls path.now)).answer }
    ensures { IsServed P.told K.start (file.Next path.now after.now) (F.view files.old) (F.view files.new) core.old
        core.new (P.view port.old) (P.view port.new) result }
{
    let child = match path.with(name) {
        Ok(child) => child,
        Err(_) => return send_bad(port),
    };
    match size_on::<F, P, L, K>(files, core, placement, port, &child) {
        Ok(size) => send_next_file(port, name, size),
        Err(FsRefusal::IsDir) => send_next_dir(port, name),
        Err(why) => send_change(port, Err(why)),
    }
}
