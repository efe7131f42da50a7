//! The two file systems, each over an image.

ghost use Rattle.std.specs.Prelude.{◌≤◌, []};
ghost use Rattle.image_device.specs.Runs.{IsFirm};
ghost use Rattle.image_world.specs.Behind.{LeavesBehind};
ghost use Rattle.fs_trees.specs.declared.ask.ShellKind.TheVariants as kind;
ghost use Rattle.image_world.specs.Stands.{world_of};
ghost use Rattle.shell_server.specs.Shell.{unmounted};
ghost use Rattle.serving.specs.Faults.{TellsFaults};
ghost use Rattle.serving.specs.Prompt.{IsOfPort, mark};
ghost use Rattle.serving.specs.Ran.{EndsOnce, moments, taking};
ghost use Rattle.recovery.specs.Opening.{IsForeign, IsUntouched, SparesDamaged};
ghost use Rattle.image_shell.specs.Served.{IsNotServed, IsOpeningAlone, IsPromptShell, IsShellJudged, OpensNoMore};
ghost use Rattle.image_shell.specs.Served.{ShellRan};

use crate::image::serve_shell_image;
use crate::opened::SESSION;
use chain_fs::ChainFs;
use image_device::{Port, Source};
use inode_fs::InodeFs;
use place_policy::Placement;
use serving::{INPUT_MAX, Protocol};
use shell_server::{ChainLayout, InodeLayout};
use shell_text::FileAsk;
use std::alloc::Global;
use tsd_model::Cap;
use tsd_words::Status;

/// Opens an image and serves the tree of inodes until the input ends, as `serve_shell_image` does. A protocol says how
/// asks are spelled: as lines or as frames.
#[tactic(auto, using(crate::proofs::StartLaws::idle))]
pub fn serve_inode_image<M: Protocol<Request = FileAsk>, S: Source, P: Port>(
    alloc: Global,
    root: u32,
    cap: &Cap,
    placement: &Placement,
    protocol: &mut M,
    source: &mut S,
    port: &mut P,
    limit: u64,
) -> Status
    requires few { limit ≤ INPUT_MAX }
    requires fresh { M.was_fed [] protocol.old }
    /// promise: Unless memory or the device is at fault, NotImage comes exactly where the image stands for no world,
    /// and RootDenied exactly where the capability gives no write access to the root, with the access that it gives.
    ensures read { P.told → IsShellJudged root cap.now (P.view port.old).reads result }
    /// promise: **The run begins** with the tree of the image mounted where one is there, and the world tidy: mounting
    /// deletes pairs alone, with what they held, and moves nothing. Where none is there nothing is mounted, and the
    /// world is as it was.
    /// promise: **What was sent** are the lines of the answers of the asks, each by the step of its ask on the tree and
    /// the room that the world has then, or where it only looks by what the tree has; from the state after one answer
    /// to the state after the next the world changes only by an ask that is done, is tidy, and has taken no block that
    /// the tree doesn't name. After a fault of the device within a `cat` or an `ls`, a front of that answer may be sent
    /// after them.
    /// promise: **A crash at any moment**, opening and mounting included, leaves an image of a valid world whose tree
    /// under the root is the one after the asks whose answers were sent whole, or that of the step of one more, from a
    /// state that was seen with those answers sent: so an ask that is refused changes the tree at no moment. The
    /// geometry and what the root doesn't reach are as at the start, and so are the capabilities. Of blocks that the
    /// tree doesn't name it says nothing.
    /// promise: **Where no tree is there**, a crash leaves the world as it is then, but while an empty tree is made in
    /// place of what is there: a tree of another layout stays as it is.
    /// promise: Each state of the run, but for the last one where the device failed, rested in an image that a crash
    /// may have left with exactly the answers before it sent: there the world is valid and tidy. So the numbers of free
    /// blocks and of held pointers in the answers are those of a world that was there.
    /// promise: Where no ask was served, nothing was sent, and a crash leaves the world as it was; where the device
    /// failed while a tree was mounted, the tree under the root.
    /// promise: Where the input was cut short and an answer was sent, nothing is done behind the last one: once all was
    /// sent that is sent in the end, a crash leaves the disk as it reads in the end.
    /// promise: After Done nothing is loose, the disk stands for the last world, and nothing is left to be done.
    ensures ran { ShellRan result kind.Inode M.spelling root cap.now limit
        (taking S.told S.taken S.left_bytes S.ended source.old source.new) (moments P.told P.view port.old port.new) }
    /// promise: The asks that were answered are the first of those that came in, and all of them unless the sending
    /// failed. After SourceFault and TooLong the disk is as it was at some state of the port's type, in time between
    /// the start and the end, at which the last answer was sent; where no ask came in, as it was once the tree was
    /// mounted.
    ensures prompt { P.told → ¬ IsNotServed result → IsPromptShell result (unmounted kind.Inode root cap.now)
        (IsOfPort P.view) M.spelling limit (world_of (P.view port.old).reads)
        (taking S.told S.taken S.left_bytes S.ended source.old source.new) (mark (P.view port.old))
        (mark (P.view port.new)) }
    /// promise: With NotImage, RootDenied and NoMemory no more is written than opening the image writes, and nothing
    /// where nothing was left to be done.
    ensures opened { P.told → IsOpeningAlone result → OpensNoMore (P.view port.old) (P.view port.new) }
    // Where the image fails one of the tests that need no write, nothing is written, and the disk reads as before;
    // where it fails another, nothing is lost that a repair could use, whatever is answered.
    ensures untouched { P.told → IsForeign (P.view port.old).reads
        → IsUntouched (P.view port.old) (P.view port.new) }
    ensures spared { P.told → SparesDamaged (P.view port.old) (P.view port.new) }
    // However it ended, a crash at any moment leaves what lies behind the image as it was.
    ensures behind { P.told → IsFirm (P.view port.old) → LeavesBehind (P.view port.old) (P.view port.new) }
    ensures once { EndsOnce (S.ends source.old) (S.ends source.new) }
    /// promise: A count of faults rose exactly where the status is that fault's.
    ensures faults { TellsFaults result (S.faults source.old) (S.faults source.new) (P.view port.old)
        (P.view port.new) }
{
    match InodeFs::new(alloc, root, cap, SESSION) {
        Ok(mut files) => {
            serve_shell_image::<InodeFs, Placement, InodeLayout, M, S, P>(
                alloc, &mut files, root, cap, placement, protocol, source, port, limit,
            )
        }
        Err(_) => Status::NoMemory,
    }
}

/// Opens an image and serves the tree of chains until the input ends, as `serve_shell_image` does.
#[tactic(auto, using(crate::proofs::StartLaws::idle))]
pub fn serve_chain_image<M: Protocol<Request = FileAsk>, S: Source, P: Port>(
    alloc: Global,
    root: u32,
    cap: &Cap,
    placement: &Placement,
    protocol: &mut M,
    source: &mut S,
    port: &mut P,
    limit: u64,
) -> Status
    requires few { limit ≤ INPUT_MAX }
    requires fresh { M.was_fed [] protocol.old }
    /// promise (with ran): As for `serve_inode_image`, of the tree of chains.
    ensures read { P.told → IsShellJudged root cap.now (P.view port.old).reads result }
    ensures ran { ShellRan result kind.Chain M.spelling root cap.now limit
        (taking S.told S.taken S.left_bytes S.ended source.old source.new) (moments P.told P.view port.old port.new) }
    ensures prompt { P.told → ¬ IsNotServed result → IsPromptShell result (unmounted kind.Chain root cap.now)
        (IsOfPort P.view) M.spelling limit (world_of (P.view port.old).reads)
        (taking S.told S.taken S.left_bytes S.ended source.old source.new) (mark (P.view port.old))
        (mark (P.view port.new)) }
    ensures opened { P.told → IsOpeningAlone result → OpensNoMore (P.view port.old) (P.view port.new) }
    // Where the image fails one of the tests that need no write, nothing is written, and the disk reads as before;
    // where it fails another, nothing is lost that a repair could use, whatever is answered.
    ensures untouched { P.told → IsForeign (P.view port.old).reads
        → IsUntouched (P.view port.old) (P.view port.new) }
    ensures spared { P.told → SparesDamaged (P.view port.old) (P.view port.new) }
    // However it ended, a crash at any moment leaves what lies behind the image as it was.
    ensures behind { P.told → IsFirm (P.view port.old) → LeavesBehind (P.view port.old) (P.view port.new) }
    ensures once { EndsOnce (S.ends source.old) (S.ends source.new) }
    ensures faults { TellsFaults result (S.faults source.old) (S.faults source.new) (P.view port.old)
        (P.view port.new) }
{
    match ChainFs::new(alloc, root, cap, SESSION) {
        Ok(mut files) => {
            serve_shell_image::<ChainFs, Placement, ChainLayout, M, S, P>(
                alloc, &mut files, root, cap, placement, protocol, source, port, limit,
            )
        }
        Err(_) => Status::NoMemory,
    }
}
