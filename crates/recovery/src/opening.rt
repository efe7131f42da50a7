//! Opening.

ghost use Rattle.std.specs.Prelude.{◌≡◌, ◌+◌, ◌≤◌, false, IfOk, OnOk};
ghost use Rattle.image_device.specs.Calls.{Uses};
ghost use Rattle.image_device.specs.Counts.{CountsFaultOf};
ghost use Rattle.image_device.specs.Runs.{IsFirm, LeavesOnly};
ghost use Rattle.image_layout.specs.Areas.{sweep_flag};
ghost use Rattle.image_layout.specs.Image.{says_open};
ghost use Rattle.image_world.specs.Stands.{world_of};
ghost use Rattle.image_world.specs.Tables.{tables_of};
ghost use Rattle.intent_journal.specs.Home.{home};
ghost use Rattle.volume_laws.specs.Moments.{LeavesOwed};
ghost use Rattle.image_world.specs.Debt.{owed};
ghost use Rattle.volume_laws.specs.Quiet.{IsQuiet};
ghost use Rattle.volume_laws.specs.Volume.{IsVolumeAt, IsVolumeReady, world_on};
ghost use Rattle.volume_laws.specs.Writes.{due, Works};
ghost use Rattle.recovery.specs.Opening.{IsForeign, IsOpening, IsUntouched, LeavesData, opening_writes};
ghost use Rattle.recovery.specs.Opening.{SparesDamaged, StandAlike};

use crate::fault::OpenFault;
use crate::head::read_head;
use image_device::Device;
use intent_journal::Ring;
use std::alloc::Global;
use volume::Volume;

/// Opens an image: a sync, the tests that need no write, a replay of the journal, the other tests, and then the end of
/// an open sweep and of what is doomed. The answer is the volume of the world for which the image stands, with nothing
/// doomed. The fault `Image` comes exactly where it stands for none, `Device` only where the device's count of faults
/// rose. Where nothing is left to be done on the image, nothing is written.
pub fn open_image<D: Device>(alloc: Global, dev: &mut D) -> Result<Volume, OpenFault>
    /// promise (with done, at, ready, settled): Unless memory or the device is at fault: Ok exactly where the image
    /// stands for a world, with the volume of that world at the device and nothing left to be reclaimed; `Image`
    /// exactly where it stands for none, with the first test that fails and its values.
    ensures read { D.told → IsOpening (D.view dev.old).reads result }
    ensures at { D.told → IfOk result (λ v. IsVolumeAt v (D.view dev.new)) }
    ensures done { D.told → OnOk result (world_on (D.view dev.new) ≡ world_of (D.view dev.old).reads) }
    ensures ready { IfOk result (λ v. IsVolumeReady v) }
    ensures settled { IfOk result (λ v. owed v.tables ≡ 0) }
    ensures unspent { IfOk result (λ v. v.is_spent ≡ false) }
    ensures sent { D.told → (D.view dev.new).sent ≡ (D.view dev.old).sent }

    // A crash at any moment leaves an image of the same world, or of none where the image stood for none. So opening
    // what an opening left, stopped anywhere and any number of times, opens the same world.
    /// promise: **Every image left within stands for the same world, or for none where the one at the start does.** So
    /// opening what an opening left, stopped anywhere, any number of times, opens the same world.
    ensures any_moment { D.told → IsFirm (D.view dev.old) → LeavesOnly (D.view dev.old) (D.view dev.new)
        (λ x f. StandAlike (D.view dev.old).reads x × (f ≡ (D.view dev.old).sent)) }

    // Where one of the tests fails that need no write, nothing is written, and the disk reads as before.
    /// promise: Where one of the first three tests fails, those of the format gate, the journal and the header, nothing
    /// is written, and the disk reads as before.
    ensures untouched { D.told → IsForeign (D.view dev.old).reads → IsUntouched (D.view dev.old) (D.view dev.new) }

    // Where any test fails, nothing is lost that a repair could use, whatever is answered.
    /// promise: Where the image stands for no world, whatever is answered, want of memory and a fault of the device
    /// too, nothing is lost that a repair could use: in the end and in each image that a crash leaves, each sector
    /// outside the journal is to hold what it was to hold, and no more is written than the replay writes.
    ensures spared { D.told → SparesDamaged (D.view dev.old) (D.view dev.new) }

    // The data of all blocks, of free ones too, and what lies behind the image stay, in each image that a crash leaves.
    /// promise: Where nothing was loose at the start, the data of all blocks, of free ones too, and all that lies after
    /// the image stay, in each image that a crash leaves, whatever is answered.
    ensures data_kept { D.told → IsFirm (D.view dev.old) → LeavesData (D.view dev.old) (D.view dev.new) }

    // It writes by what is replayed, and by what is left to be swept and reclaimed.
    /// promise (with cost): An opening writes as often as the replay does and then, where a sweep is open, 7 for each
    /// block and pair that it still takes away and 5 for its flag, or else 5 for each block and pair that is doomed;
    /// what the volume leaves to be written is counted in this.
    ensures uses { D.told → Uses (opening_writes (D.view dev.old).reads) (D.view dev.old) (D.view dev.new) }
    ensures cost { D.told → IfOk result (λ v. (D.view dev.new).writes + due v ≤ (D.view dev.old).writes
        + opening_writes (D.view dev.old).reads) }

    // Where nothing is left to be done on the image, it writes nothing.
    /// promise: Where nothing is left to be done (all gates of the journal closed, no sweep open, nothing doomed),
    /// nothing is written.
    ensures unwritten { D.told → IsQuiet (D.view dev.old).reads → Uses 0 (D.view dev.old) (D.view dev.new) }
    ensures paid { D.told → IsQuiet (D.view dev.old).reads → IfOk result (λ v. (D.view dev.new).writes + due v
        ≤ (D.view dev.old).writes) }

    // Where no sweep had begun, it never owes more than at the start.
    ensures any_owed { D.told → IsFirm (D.view dev.old) → says_open (home (D.view dev.old).reads sweep_flag) ≡ false
        → LeavesOwed (D.view dev.old) (D.view dev.new) (owed (tables_of (home (D.view dev.old).reads))) }

    ensures works { Works (D.view dev.old) (D.view dev.new) }
    /// promise: `Device` comes only where the count of faults rose; every other answer leaves it.
    ensures faults { CountsFaultOf OpenFault.Device result (D.view dev.old).faults (D.view dev.new).faults }
{
    let mut ring = Ring::new(alloc)?;
    dev.sync()?;
    let header = read_head(dev, &mut ring)?;
    ring.replay(dev)?;
    let mut volume = Volume::load(alloc, dev, &header, ring)?;
    volume.finish(dev)?;
    Ok(volume)
}
