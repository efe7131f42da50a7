//! How many blocks are free.

ghost use Rattle.std.specs.Prelude.{◌≡◌, true, false, IfOk, IfErr};
ghost use Rattle.image_device.specs.Counts.{Rose};
ghost use Rattle.tsd_model.specs.World.{free_count};
ghost use Rattle.tsd_model.specs.declared.requests.Request.TheVariants as ask;
ghost use Rattle.tsd_model.specs.declared.replies.Reply.TheVariants as reply;
ghost use Rattle.fs_trees.specs.declared.refusal.FsRefusal.TheVariants as no;
ghost use Rattle.fs_port.specs.Calls.{Counts, IsAskCarriedOut, IsValidNow, LeavesWorldsOnly, Stays};
ghost use Rattle.fs_port.specs.Files.{OnAnswer};

use crate::blocks::Blocks;
use fs_trees::FsRefusal;
use tsd_model::{Reply, Request};

/// The number of free blocks, whatever is mounted. A disk that tells nothing may answer anything: an answer that no
/// rule of the disk gives is NotThisFs, since Device comes only where the count of faults rose.
pub fn free_blocks<K: Blocks>(disk: &mut K) -> Result<u32, FsRefusal>
    requires { (K.view disk.old).spent ≡ false }
    ensures step { K.told → IfOk result (λ n. IsAskCarriedOut (K.view disk.old) (K.view disk.new) ask.GetFree
        (reply.Free n)) }
    /// promise (with looks): How many blocks are free; the world stays.
    ensures value { K.told → IfOk result (λ n. n ≡ free_count (K.view disk.old).world) }
    ensures only { K.told → IfErr result (λ e. e ≡ no.Device) }
    ensures looks { K.told → OnAnswer result ((K.view disk.new).world ≡ (K.view disk.old).world) }
    ensures crash { K.told → LeavesWorldsOnly (K.view disk.old) (K.view disk.new) (λ w. w ≡ (K.view disk.old).world) }
    ensures valid { K.told → IsValidNow (K.view disk.old) → OnAnswer result (IsValidNow (K.view disk.new)) }
    ensures stays { OnAnswer result (Stays (K.view disk.old) (K.view disk.new)) }
    ensures counts { Counts (K.view disk.old) (K.view disk.new) }
    ensures unspent { OnAnswer result ((K.view disk.new).spent ≡ false) }
    ensures faultless { OnAnswer result ((K.view disk.new).faults ≡ (K.view disk.old).faults) }
    ensures spent { IfErr result (λ e. e ≡ no.Device → (K.view disk.new).spent ≡ true) }
    ensures cause { IfErr result (λ e. e ≡ no.Device → Rose (K.view disk.old).faults (K.view disk.new).faults) }
{
    match disk.ask(&Request::GetFree) {
        Err(_) => Err(FsRefusal::Device),
        Ok(Reply::Free(count)) => Ok(count),
        Ok(_) => Err(FsRefusal::NotThisFs),
    }
}
