//! One run of the shell over an image.

ghost use Rattle.std.specs.Prelude.{◌≡◌, ◌≤◌, []};
ghost use Rattle.image_device.specs.Runs.{IsFirm};
ghost use Rattle.image_world.specs.Behind.{LeavesBehind};
ghost use Rattle.image_world.specs.Stands.{world_of};
ghost use Rattle.serving.specs.Faults.{TellsFaults};
ghost use Rattle.serving.specs.Prompt.{IsOfPort, mark};
ghost use Rattle.serving.specs.Ran.{EndsOnce, moments, taking};
ghost use Rattle.shell_server.specs.Shell.{unmounted};
ghost use Rattle.recovery.specs.Opening.{IsForeign, IsUntouched, SparesDamaged};
ghost use Rattle.image_shell.specs.Served.{IsNotServed, IsOpeningAlone, IsPromptShell, IsShellJudged, OpensNoMore};
ghost use Rattle.image_shell.specs.Served.{ShellRan};

use crate::opened::serve_opened;
use core_blocks::Placing;
use fs_walks::Walks;
use gathered_tasks::AskRoom;
use image_device::{Port, Source};
use image_runs::open_core;
use serving::{INPUT_MAX, Protocol};
use shell_server::TreeLayout;
use shell_text::FileAsk;
use std::alloc::Global;
use std::marker::Brand;
use tsd_model::Cap;
use tsd_words::Status;

/// Opens an image, mounts the tree under a root, and serves the asks of an input until it ends. Where no tree is there,
/// none is mounted until one is made. A protocol says how asks are spelled.
///
/// The status is NotImage where the image stands for no world, RootDenied where the capability doesn't attain write at
/// the root, NoMemory where none was found, DeviceFault where that count rose, or else how the loop ended: Done,
/// SourceFault or PutFault where that count rose, TooLong, or Truncated.
#[tactic(auto, using(crate::proofs::StartLaws::idle))]
pub fn serve_shell_image<
    F: Walks,
    L: Placing,
    Y: TreeLayout,
    M: Protocol<Request = FileAsk>,
    S: Source,
    P: Port,
>(
    alloc: Global,
    files: &mut F,
    root: u32,
    cap: &Cap,
    placement: &L,
    protocol: &mut M,
    source: &mut S,
    port: &mut P,
    limit: u64,
) -> Status
    requires few { limit ≤ INPUT_MAX }
    requires fresh { M.was_fed [] protocol.old }
    requires files { F.view files.old ≡ unmounted Y.layout root cap.now }
    ensures read { P.told → IsShellJudged root cap.now (P.view port.old).reads result }
    // What came in and what was sent, by status; what a crash at any moment may have left; in which images the states
    // rested; and what the disk is after Done.
    ensures ran { ShellRan result Y.layout M.spelling root cap.now limit
        (taking S.told S.taken S.left_bytes S.ended source.old source.new) (moments P.told P.view port.old port.new) }
    // How promptly the asks were answered. Where none was, no more was written than opening writes.
    ensures prompt { P.told → ¬ IsNotServed result → IsPromptShell result (unmounted Y.layout root cap.now)
        (IsOfPort P.view) M.spelling limit (world_of (P.view port.old).reads)
        (taking S.told S.taken S.left_bytes S.ended source.old source.new) (mark (P.view port.old))
        (mark (P.view port.new)) }
    ensures opened { P.told → IsOpeningAlone result → OpensNoMore (P.view port.old) (P.view port.new) }
    // Where the image fails one of the tests that need no write, nothing is written, and the disk reads as before;
    // where it fails another, nothing is lost that a repair could use, whatever is answered.
    ensures untouched { P.told → IsForeign (P.view port.old).reads
        → IsUntouched (P.view port.old) (P.view port.new) }
    ensures spared { P.told → SparesDamaged (P.view port.old) (P.view port.new) }
    // However it ended, a crash at any moment leaves what lies behind the image as it was.
    ensures behind { P.told → IsFirm (P.view port.old) → LeavesBehind (P.view port.old) (P.view port.new) }
    ensures once { EndsOnce (S.ends source.old) (S.ends source.new) }
    ensures faults { TellsFaults result (S.faults source.old) (S.faults source.new) (P.view port.old)
        (P.view port.new) }
{
    match AskRoom::new(alloc) {
        Ok(mut room) => match open_core(alloc, port) {
            Ok(mut core) => {
                serve_opened::<F, L, Brand, Y, M, S, P>(
                    files, root, cap, &mut core, placement, &mut room, protocol, source, port,
                    limit,
                )
            }
            Err(why) => why,
        },
        Err(_) => Status::NoMemory,
    }
}
