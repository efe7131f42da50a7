//! One copy over an image.

ghost use Rattle.std.specs.Prelude.{◌≡◌, false, IfErr, IfOk};
ghost use Rattle.image_device.specs.Runs.{IsFirm, LeavesOnly};
ghost use Rattle.image_world.specs.Behind.{LeavesBehind};
ghost use Rattle.image_runs.specs.Looking.{OnlyLooks};
ghost use Rattle.recovery.specs.Opening.{IsForeign, IsUntouched, SparesDamaged, StandAlike};
ghost use Rattle.volume_laws.specs.Volume.{IsVolumeReady, told_by};
ghost use Rattle.serving.specs.Faults.{TellsPortFaults};
ghost use Rattle.image_copy.specs.Copied.{HasCopied, IsCopyEnding, IsCopyJudged, IsKeptOut, IsLeftOfCopy, IsNotBegun};
ghost use Rattle.image_copy.specs.Copied.{source, target};
ghost use Rattle.image_copy.specs.Steps.{CarriesOut, IsAdmitted, IsRefused};

use crate::denied::denied;
use crate::ending::CopyEnd;
use crate::lines::end_line;
use crate::opened::copy_and_close;
use crate::shared::first_shared;
use core_blocks::Placing;
use fs_port::Files;
use fs_walks::Walks;
use gathered_tasks::AskRoom;
use image_device::{Device, Port, put_all};
use image_runs::open_volume;
use std::alloc::Global;
use tsd_core::Core;
use tsd_words::{CopyFs, Status};
use volume::Volume;

/// Opens an image, mounts the tree under one root and copies it under another, in place of what is there, does what is
/// left to be done, and puts one line that says how the copy ended.
///
/// The status is Done, NotImage where the image stands for no world, RootDenied where a capability doesn't attain write
/// at its root, the source's first, DeviceFault or PutFault where that count rose, or NoMemory where none was found
/// before the first step.
pub fn copy_over_image<A: Walks, B: Files, L: Placing, P: Port>(
    alloc: Global,
    from: &mut A,
    into: &mut B,
    words: &CopyFs,
    placement: &L,
    port: &mut P,
) -> Status
    requires source { A.view from.old ≡ source words.now }
    requires target { B.view into.old ≡ target words.now }
    ensures ending { IsCopyEnding result }
    ensures read { P.told → IsCopyJudged words.now (P.view port.old).reads result }
    // How the copy ended, and what of its line was sent.
    ensures copied { P.told → HasCopied result words.now (P.view port.old) (P.view port.new) }
    // A crash at any moment leaves the world at the start, one on the way, or with a front of the line the one that it
    // tells.
    ensures any_moment { P.told → IsFirm (P.view port.old) → LeavesOnly (P.view port.old) (P.view port.new)
        (IsLeftOfCopy words.now (P.view port.old)) }
    // Where no copy was begun, all is as it was.
    ensures not_begun { P.told → IsNotBegun result → IsFirm (P.view port.old)
        → LeavesOnly (P.view port.old) (P.view port.new) (λ x f. StandAlike (P.view port.old).reads x
        × (f ≡ (P.view port.old).sent)) }
    // Where no image was opened, or a capability doesn't attain write, no more is written than an opening writes.
    ensures looked { P.told → IsKeptOut result → OnlyLooks (P.view port.old) (P.view port.new) }
    // Where the image fails one of the tests that need no write, nothing is written, and the disk reads as before;
    // where it fails another, nothing is lost that a repair could use, whatever is answered.
    ensures untouched { P.told → IsForeign (P.view port.old).reads
        → IsUntouched (P.view port.old) (P.view port.new) }
    ensures spared { P.told → SparesDamaged (P.view port.old) (P.view port.new) }
    // However it ended, a crash at any moment leaves what lies behind the image as it was.
    ensures behind { P.told → IsFirm (P.view port.old) → LeavesBehind (P.view port.old) (P.view port.new) }
    ensures faults { TellsPortFaults result (P.view port.old) (P.view port.new) }
{
    match carry_out(alloc, from, into, words, placement, port) {
        Ok(end) => match put_all(port, end_line(&end).as_slice()) {
            Ok(()) => Status::Done,
            Err(_) => Status::PutFault,
        },
        Err(why) => why,
    }
}

/// Takes room for what is gathered, opens an image and copies.
fn carry_out<A: Walks, B: Files, L: Placing, D: Device>(
    alloc: Global,
    from: &mut A,
    into: &mut B,
    words: &CopyFs,
    placement: &L,
    dev: &mut D,
) -> Result<CopyEnd, Status>
    requires source { A.view from.old ≡ source words.now }
    requires target { B.view into.old ≡ target words.now }
    ensures { CarriesOut D.told words.now (D.view dev.old) (D.view dev.new) result }
{
    match AskRoom::new(alloc) {
        Ok(mut room) => match open_volume(alloc, dev) {
            Ok(volume) => match admit(alloc, volume, words) {
                Ok((mut core, shared)) => {
                    copy_and_close(shared, &mut core, from, into, placement, dev, &mut room)
                }
                Err(why) => Err(why),
            },
            Err(why) => Err(why),
        },
        Err(_) => Err(Status::NoMemory),
    }
}

/// The core of a volume, and the least block that both roots reach, where both capabilities attain write.
fn admit(alloc: Global, volume: Volume, words: &CopyFs) -> Result<(Core, Option<u32>), Status>
    requires ready { IsVolumeReady volume }
    requires unspent { volume.is_spent ≡ false }
    ensures admitted { IfOk result (λ a. IsAdmitted volume words.now a.0 a.1) }
    ensures refused { IfErr result (IsRefused (told_by volume) words.now) }
{
    match denied(&volume, words) {
        Some(attained) => {
            let_volume_go(volume);
            Err(Status::RootDenied(attained))
        }
        None => {
            let _size = volume.geometry();
            match first_shared(alloc, &volume, words.from.root, words.into.root) {
                Ok(shared) => Ok((Core::new(alloc, volume), shared)),
                Err(_) => {
                    let_volume_go(volume);
                    Err(Status::NoMemory)
                }
            }
        }
    }
}

/// Gives back the memory of a volume.
fn let_volume_go(_volume: Volume) {}
