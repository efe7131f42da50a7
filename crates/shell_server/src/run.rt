//! The loop over the shell.

ghost use Rattle.std.specs.Prelude.{◌≡◌, ◌≢◌, ◌≤◌, [], true, None};
ghost use Rattle.gathered_tasks.specs.Rooms.{IsFree};
ghost use Rattle.image_device.specs.Runs.{LeavesPart};
ghost use Rattle.image_world.specs.Behind.{behind};
ghost use Rattle.image_world.specs.Stands.{world_of};
ghost use Rattle.serving.specs.Faults.{TellsFaults};
ghost use Rattle.serving.specs.Handling.{FitsDevice};
ghost use Rattle.serving.specs.Prompt.{EndsBySending, IsCutShort, IsOfPort, Promptly, mark};
ghost use Rattle.serving.specs.Ran.{EndsOnce, Ran, moments, taking};
ghost use Rattle.tsd_core.specs.Core.{IsCoreAt, IsCoreReady, told_world};
ghost use Rattle.volume_laws.specs.Quiet.{IsQuiet};
ghost use Rattle.volume_laws.specs.Writes.{due};
ghost use Rattle.shell_server.specs.Kept.{AreReady, FitsShell, shell_state};
ghost use Rattle.shell_server.specs.Shell.{ShellState, shell_service, shell_work};

use crate::server::ShellServer;
use crate::started::Started;
use core_blocks::Placing;
use fs_walks::Walks;
use gathered_tasks::AskRoom;
use image_device::{Port, Source};
use serving::{INPUT_MAX, Protocol, serve};
use shell_text::FileAsk;
use std::marker::PhantomData;
use tsd_core::Core;
use tsd_words::Status;

/// Serves the asks of an input by a file system on a core until it ends, as `serving::serve` does. A protocol
/// says how they are spelled.
pub fn serve_shell<
    F: Walks,
    L: Placing,
    K: Started,
    M: Protocol<Request = FileAsk>,
    S: Source,
    P: Port,
>(
    files: &mut F,
    core: &mut Core,
    placement: &L,
    room: &mut AskRoom,
    protocol: &mut M,
    source: &mut S,
    port: &mut P,
    limit: u64,
) -> Status
    requires few { limit ≤ INPUT_MAX }
    requires ready { AreReady (F.view files.old) core.old }
    requires at { P.told → FitsDevice (FitsShell K.start (F.view files.old) core.old) (P.view port.old) }
    requires room { IsFree room.old }
    requires fresh { M.was_fed [] protocol.old }
    // What came in and what was sent, by status; what a crash at any moment may have left; and in which images the
    // states rested.
    /// promise: What came in and what was sent, by the status: the lines of the answers of the asks, each by the step
    /// of its ask on the tree and the room that the world has then, or where it only looks by what the tree has; and
    /// what a crash at any moment leaves.
    ensures ran { (final : ShellState) × Ran result (shell_service K.start) shell_work M.spelling
        (shell_state (F.view files.old) (P.view port.old).reads) final limit
        (taking S.told S.taken S.left_bytes S.ended source.old source.new) (due core.old.volume)
        (moments P.told P.view port.old port.new) × (final.world ≡ world_of (P.view port.new).reads)
        × (final.under_way ≡ None) }
    /// promise: The asks that were answered are the first of those that came in, and all of them unless the device or
    /// the sending failed. After SourceFault and TooLong the disk is as it was at some state of the port's type, in
    /// time between the start and the end, at which the last answer was sent; where no ask came in, as it was at the
    /// start.
    ensures prompt { P.told → Promptly result (shell_service K.start) shell_work (IsOfPort P.view) M.spelling limit
        (shell_state (F.view files.old) (P.view port.old).reads)
        (taking S.told S.taken S.left_bytes S.ended source.old source.new) (mark (P.view port.old))
        (mark (P.view port.new)) }
    /// promise: Where the input was cut short, nothing is done behind the last answer: once all was sent that is sent
    /// in the end, a crash leaves the disk as it reads in the end.
    ensures still { P.told → IsCutShort result → EndsBySending (P.view port.old) (P.view port.new) }
    // However it ended, a crash at any moment leaves what lies behind the image as it was.
    /// promise: What lies after the image is as it was in each image that a crash leaves.
    ensures behind { P.told → LeavesPart (behind (told_world core.old).geometry) (P.view port.old) (P.view port.new) }
    // Unless the device failed, the core may be used again; else it is spent.
    ensures ready { result ≢ Status.DeviceFault → IsCoreReady core.new }
    ensures at { result ≢ Status.DeviceFault → P.told → IsCoreAt core.new (P.view port.new) }
    ensures spent { result ≡ Status.DeviceFault → core.new.volume.is_spent ≡ true }
    ensures closed { result ≡ Status.Done → P.told → IsQuiet (P.view port.new).reads }
    /// promise: Nothing is taken after the end of the input was found.
    ensures once { EndsOnce (S.ends source.old) (S.ends source.new) }
    ensures faults { TellsFaults result (S.faults source.old) (S.faults source.new) (P.view port.old)
        (P.view port.new) }
{
    let mut server: ShellServer<F, L, K> = ShellServer {
        core,
        placement,
        files,
        room,
        of: PhantomData,
    };
    serve(&mut server, protocol, source, port, limit)
}
