//! The two file systems, each as a source and as a target.

ghost use Rattle.std.specs.Prelude.{◌≡◌};
ghost use Rattle.image_device.specs.Runs.{IsFirm, LeavesOnly};
ghost use Rattle.image_world.specs.Behind.{LeavesBehind};
ghost use Rattle.image_runs.specs.Looking.{OnlyLooks};
ghost use Rattle.recovery.specs.Opening.{IsForeign, IsUntouched, SparesDamaged, StandAlike};
ghost use Rattle.fs_trees.specs.declared.ask.ShellKind.TheVariants as kind;
ghost use Rattle.serving.specs.Faults.{TellsPortFaults};
ghost use Rattle.image_copy.specs.Copied.{HasCopied, IsCopyEnding, IsCopyJudged, IsKeptOut, IsLeftOfCopy, IsNotBegun};
ghost use Rattle.image_copy.specs.Copied.{source};

use crate::image::copy_over_image;
use crate::opened::{SOURCE_SESSION, TARGET_SESSION};
use chain_fs::ChainFs;
use fs_trees::ShellKind;
use fs_walks::Walks;
use image_device::Port;
use inode_fs::InodeFs;
use place_policy::Placement;
use std::alloc::Global;
use tsd_words::{CopyFs, Status};

/// Opens an image and copies the tree under one root to another, each in its layout, as `copy_over_image` does. Free
/// blocks are taken by `placement`.
#[tactic(auto, using(crate::proofs::PutLaws::idle))]
pub fn copy_image<P: Port>(
    alloc: Global,
    words: &CopyFs,
    placement: &Placement,
    port: &mut P,
) -> Status
    ensures ending { IsCopyEnding result }
    /// promise: Unless memory or the device is at fault, NotImage comes exactly where the image stands for no world,
    /// and RootDenied exactly where a capability gives no write access to its root, the source's first, with the access
    /// that it gives.
    ensures read { P.told → IsCopyJudged words.now (P.view port.old).reads result }
    // How the copy ended, and what of its line was sent.
    /// promise: After Done one line was sent whole, after PutFault a proper front of it, and else nothing; in both the
    /// copy has ended as the line says, nothing is loose, and nothing is left to be done.
    /// promise: `no shared B`: B is the least block that is reached from both roots, and the world is as at the start.
    /// `no not-this-fs`: there is no tree at the source, and the world is as at the start. `no nested PATH`: the first
    /// directory that the target's layout can't hold, and no step was made.
    /// promise: `no` and a refusal: the step that comes next is refused, by the step of its ask in the world as it is
    /// then, and the target's root has the tree after the steps before it. `copied FILES BYTES`: the target's root has
    /// the source's tree, and these are its files and their bytes.
    ensures copied { P.told → HasCopied result words.now (P.view port.old) (P.view port.new) }
    // A crash at any moment leaves the world at the start, one on the way, or with a front of the line the one that it
    // tells.
    /// promise: **A crash at any moment** leaves an image of a valid world with the source's tree under the source's
    /// root and, under the target's, what was there before or the tree after some of the steps (no step where its
    /// layout can't hold the tree); where a byte of the line was sent, the world that the line tells. What the source's
    /// root doesn't reach is as it was while that is mounted, and what the target's root doesn't reach from then on.
    ensures any_moment { P.told → IsFirm (P.view port.old) → LeavesOnly (P.view port.old) (P.view port.new)
        (IsLeftOfCopy words.now (P.view port.old)) }
    // Where no copy was begun, all is as it was.
    /// promise: Where no copy was begun, each image left stands for what the one at the start stands for, and nothing
    /// was sent.
    ensures not_begun { P.told → IsNotBegun result → IsFirm (P.view port.old)
        → LeavesOnly (P.view port.old) (P.view port.new) (λ x f. StandAlike (P.view port.old).reads x
        × (f ≡ (P.view port.old).sent)) }
    // Where no image was opened, or a capability doesn't attain write, no more is written than an opening writes.
    /// promise: Where the status is NotImage or RootDenied, nothing is written where nothing is left to be done on the
    /// image, and else no more than an opening writes.
    ensures looked { P.told → IsKeptOut result → OnlyLooks (P.view port.old) (P.view port.new) }
    // Where the image fails one of the tests that need no write, nothing is written, and the disk reads as before;
    // where it fails another, nothing is lost that a repair could use, whatever is answered.
    /// promise (with spared, behind): Where the image fails one of the first three tests, nothing is written, and it
    /// reads as before; where it fails another, nothing is lost that a repair could use, whatever is answered; what
    /// lies after the image is as it was.
    ensures untouched { P.told → IsForeign (P.view port.old).reads
        → IsUntouched (P.view port.old) (P.view port.new) }
    ensures spared { P.told → SparesDamaged (P.view port.old) (P.view port.new) }
    // However it ended, a crash at any moment leaves what lies behind the image as it was.
    ensures behind { P.told → IsFirm (P.view port.old) → LeavesBehind (P.view port.old) (P.view port.new) }
    /// promise: A count of faults rose exactly where the status is that fault's.
    ensures faults { TellsPortFaults result (P.view port.old) (P.view port.new) }
{
    let tree = &words.from;
    match tree.layout {
        ShellKind::Inode => match InodeFs::new(alloc, tree.root, &tree.cap, SOURCE_SESSION) {
            Ok(mut from) => copy_from(alloc, &mut from, words, placement, port),
            Err(_) => Status::NoMemory,
        },
        ShellKind::Chain => match ChainFs::new(alloc, tree.root, &tree.cap, SOURCE_SESSION) {
            Ok(mut from) => copy_from(alloc, &mut from, words, placement, port),
            Err(_) => Status::NoMemory,
        },
    }
}

/// The same, from this source.
#[tactic(auto, using(crate::proofs::PutLaws::idle))]
fn copy_from<A: Walks, P: Port>(
    alloc: Global,
    from: &mut A,
    words: &CopyFs,
    placement: &Placement,
    port: &mut P,
) -> Status
    requires source { A.view from.old ≡ source words.now }
    ensures ending { IsCopyEnding result }
    ensures read { P.told → IsCopyJudged words.now (P.view port.old).reads result }
    ensures copied { P.told → HasCopied result words.now (P.view port.old) (P.view port.new) }
    ensures any_moment { P.told → IsFirm (P.view port.old) → LeavesOnly (P.view port.old) (P.view port.new)
        (IsLeftOfCopy words.now (P.view port.old)) }
    ensures not_begun { P.told → IsNotBegun result → IsFirm (P.view port.old)
        → LeavesOnly (P.view port.old) (P.view port.new) (λ x f. StandAlike (P.view port.old).reads x
        × (f ≡ (P.view port.old).sent)) }
    ensures looked { P.told → IsKeptOut result → OnlyLooks (P.view port.old) (P.view port.new) }
    ensures untouched { P.told → IsForeign (P.view port.old).reads
        → IsUntouched (P.view port.old) (P.view port.new) }
    ensures spared { P.told → SparesDamaged (P.view port.old) (P.view port.new) }
    ensures behind { P.told → IsFirm (P.view port.old) → LeavesBehind (P.view port.old) (P.view port.new) }
    ensures faults { TellsPortFaults result (P.view port.old) (P.view port.new) }
{
    let tree = &words.into;
    match tree.layout {
        ShellKind::Inode => match InodeFs::new(alloc, tree.root, &tree.cap, TARGET_SESSION) {
            Ok(mut into) => copy_over_image(alloc, from, &mut into, words, placement, port),
            Err(_) => Status::NoMemory,
        },
        ShellKind::Chain => match ChainFs::new(alloc, tree.root, &tree.cap, TARGET_SESSION) {
            Ok(mut into) => copy_over_image(alloc, from, &mut into, words, placement, port),
            Err(_) => Status::NoMemory,
        },
    }
}
