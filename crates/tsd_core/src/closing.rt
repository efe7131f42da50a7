//! Leaving nothing to be done.

ghost use Rattle.std.specs.Prelude.{◌≡◌, [], ◌+◌, ◌≤◌, true, OnOk, OnErr};
ghost use Rattle.image_device.specs.Counts.{CountsFault};
ghost use Rattle.image_device.specs.Runs.{LeavesPart};
ghost use Rattle.image_world.specs.Behind.{behind};
ghost use Rattle.volume_laws.specs.Data.{KeepsData};
ghost use Rattle.volume_laws.specs.Moments.{LeavesWorld};
ghost use Rattle.volume_laws.specs.Quiet.{IsQuiet};
ghost use Rattle.volume_laws.specs.Writes.{due, Works};
ghost use Rattle.tsd_core.specs.Core.{IsCoreReady, IsCoreAt, state_on, told_state};
ghost use Rattle.tsd_core.specs.Work.{LeavesNoDebt, SameSize};

use crate::disk::Core;
use image_device::{Device, Failed};

impl Core {
    /// Makes all steps of reclamation that are left, and puts all records of the journal in place. The state stays.
    /// `Failed` comes only where the device's count of faults rose; the core is spent then.
    pub fn close<D: Device>(&mut self, dev: &mut D) -> Result<(), Failed>
        requires ready { IsCoreReady self.old }
        requires at { D.told → IsCoreAt self.old (D.view dev.old) }
        ensures ready { OnOk result (IsCoreReady self.new) }
        ensures at { D.told → OnOk result (IsCoreAt self.new (D.view dev.new)) }
        /// promise (with closed): The state stays; nothing is doomed afterwards, no sweep is open, and all gates of the
        /// journal are closed.
        ensures state { D.told → OnOk result (state_on self.new (D.view dev.new).reads ≡ state_on self.old
            (D.view dev.old).reads) }
        ensures told { OnOk result (told_state self.new ≡ told_state self.old) }

        // Nothing is doomed, no sweep is open, and all gates of the journal are closed.
        ensures closed { D.told → OnOk result (IsQuiet (D.view dev.new).reads) }

        ensures size { SameSize self.old self.new }
        ensures spent { OnErr result (self.new.volume.is_spent ≡ true) }
        ensures sent { D.told → (D.view dev.new).sent ≡ (D.view dev.old).sent }
        /// promise (with behind): The data of all blocks stays, and what lies after the image.
        ensures data_kept { D.told → KeepsData self.old.volume.tables.geometry [] (D.view dev.old) (D.view dev.new)
            result }
        ensures behind { D.told → LeavesPart (behind self.old.volume.tables.geometry) (D.view dev.old)
            (D.view dev.new) }
        ensures any_moment { D.told → LeavesWorld (D.view dev.old) (D.view dev.new) }
        ensures debt { D.told → LeavesNoDebt (D.view dev.old) (D.view dev.new) }
        ensures paid { OnOk result ((D.view dev.new).writes + due self.new.volume ≤ (D.view dev.old).writes + due
            self.old.volume) }
        ensures most { (D.view dev.new).writes ≤ (D.view dev.old).writes + due self.old.volume }
        ensures works { Works (D.view dev.old) (D.view dev.new) }
        ensures faults { CountsFault result (D.view dev.old).faults (D.view dev.new).faults }
    {
        self.volume.settle_all(dev)?;
        self.volume.empty_ring(dev)
    }
}
