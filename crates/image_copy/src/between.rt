//! A tree mounted and copied on a disk.

ghost use Rattle.std.specs.Prelude.{◌≡◌};
ghost use Rattle.fs_laws.specs.Apart.{AreApart};
ghost use Rattle.fs_port.specs.Calls.{IsValidNow};
ghost use Rattle.fs_port.specs.Files.{IsClientReady};
ghost use Rattle.image_copy.specs.Steps.{CopiesBetween, copy_end, unmounted_end};

use crate::ending::CopyEnd;
use fs_copy::{Copied, CopyRefusal, copy_tree};
use fs_port::{Blocks, Files};
use fs_trees::FsRefusal;
use fs_walks::Walks;
use tsd_words::Status;

/// Mounts the source and copies its tree.
pub(crate) fn copy_between<K: Blocks, A: Walks, B: Files>(
    disk: &mut K,
    from: &mut A,
    into: &mut B,
) -> Result<CopyEnd, Status>
    requires from_ready { IsClientReady (A.view from.old) (K.view disk.old) }
    requires into_ready { IsClientReady (B.view into.old) (K.view disk.old) }
    requires valid { K.told → IsValidNow (K.view disk.old) }
    requires apart { K.told → AreApart (K.view disk.old).world (A.view from.old).root (B.view into.old).root }
    ensures { CopiesBetween K.told (A.view from.old) (B.view into.old) (K.view disk.old) (K.view disk.new) result }
{
    match from.mount(disk) {
        Ok(()) => copy_end(copy_tree(disk, from, into)),
        Err(why) => unmounted_end(why),
    }
}

/// What a refusal to mount the source is to the command. A disk that tells nothing may refuse by another name.
fn unmounted_end(why: FsRefusal) -> Result<CopyEnd, Status>
    ensures { result ≡ unmounted_end why }
{
    match why {
        FsRefusal::Device => Err(Status::DeviceFault),
        _ => Ok(CopyEnd::NotThisFs),
    }
}

/// What an answer of the copy is to the command.
fn copy_end(answer: Result<Copied, CopyRefusal>) -> Result<CopyEnd, Status>
    ensures { result ≡ copy_end answer }
{
    match answer {
        Ok(copied) => Ok(CopyEnd::Whole { copied }),
        Err(CopyRefusal::Nested { path }) => Ok(CopyEnd::Nested { path }),
        Err(CopyRefusal::Into { refusal }) => Ok(CopyEnd::Refused { refusal }),
        Err(CopyRefusal::Device) => Err(Status::DeviceFault),
    }
}
