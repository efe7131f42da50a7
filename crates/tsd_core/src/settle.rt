//! What is left to be done between requests.

ghost use Rattle.std.specs.Prelude.{◌≡◌, [], length, ◌↔◌, ◌+◌, ◌-◌, ◌<◌, ◌≤◌, true, OnOk, OnErr, false};
ghost use Rattle.std.specs.Prelude.{IfOk, IsTrue};
ghost use Rattle.image_device.specs.Counts.{CountsFault};
ghost use Rattle.image_device.specs.Runs.{LeavesPart};
ghost use Rattle.image_world.specs.Behind.{behind};
ghost use Rattle.image_world.specs.Debt.{debt, graph_in, owed};
ghost use Rattle.intent_journal.specs.Records.{AreClosed};
ghost use Rattle.tsd_model.specs.Doomed.{doomed};
ghost use Rattle.volume_laws.specs.Data.{KeepsData};
ghost use Rattle.volume_laws.specs.Rings.{HasBatches};
ghost use Rattle.volume_laws.specs.Moments.{LeavesWorld};
ghost use Rattle.volume_laws.specs.Writes.{batch_cost, due, Works};
ghost use Rattle.intent_journal.specs.Ring.{checkpoint_writes};
ghost use Rattle.tsd_core.specs.Core.{IsCoreReady, IsCoreAt, state_on, told_state};
ghost use Rattle.tsd_core.specs.Work.{LeavesNoDebt, SameSize};

use crate::disk::Core;
use image_device::{Device, Failed};

impl Core {
    /// Makes four steps of reclamation, or as many as are left; true where more are left. The state stays. `Failed`
    /// comes only where the device's count of faults rose; the core is spent then.
    pub fn settle_some<D: Device>(&mut self, dev: &mut D) -> Result<bool, Failed>
        requires ready { IsCoreReady self.old }
        requires at { D.told → IsCoreAt self.old (D.view dev.old) }
        ensures ready { OnOk result (IsCoreReady self.new) }
        ensures at { D.told → OnOk result (IsCoreAt self.new (D.view dev.new)) }
        /// promise (with told): The state stays.
        ensures state { D.told → OnOk result (state_on self.new (D.view dev.new).reads ≡ state_on self.old
            (D.view dev.old).reads) }
        ensures told { OnOk result (told_state self.new ≡ told_state self.old) }
        ensures more { IfOk result (λ more. IsTrue more ↔ (0 < owed self.new.volume.tables)) }
        ensures size { SameSize self.old self.new }
        ensures spent { OnErr result (self.new.volume.is_spent ≡ true) }
        ensures sent { D.told → (D.view dev.new).sent ≡ (D.view dev.old).sent }
        /// promise (with behind): The data of all blocks stays, and what lies after the image.
        ensures data_kept { D.told → KeepsData self.old.volume.tables.geometry [] (D.view dev.old) (D.view dev.new)
            result }
        ensures behind { D.told → LeavesPart (behind self.old.volume.tables.geometry) (D.view dev.old)
            (D.view dev.new) }
        ensures any_moment { D.told → LeavesWorld (D.view dev.old) (D.view dev.new) }
        ensures debt { D.told → LeavesNoDebt (D.view dev.old) (D.view dev.new) }
        ensures less { D.told → OnOk result (debt (D.view dev.new).reads ≤ debt (D.view dev.old).reads - 4) }

        // No more than four steps are made: at most four blocks, and 64 pairs from them, in four batches.
        ensures few { OnOk result (owed self.old.volume.tables ≤ owed self.new.volume.tables + 68) }
        /// promise (with few, ring, limit): No more than four steps are made, and at most 400 writes.
        ensures few_blocks { OnOk result (length (doomed (graph_in self.old.volume.tables))
            ≤ length (doomed (graph_in self.new.volume.tables)) + 4) }
        ensures ring { OnOk result (HasBatches 4 33 self.old.volume.ring self.new.volume.ring) }

        ensures paid { OnOk result ((D.view dev.new).writes + due self.new.volume ≤ (D.view dev.old).writes + due
            self.old.volume) }
        ensures most { (D.view dev.new).writes ≤ (D.view dev.old).writes + due self.old.volume }
        ensures limit { (D.view dev.new).writes ≤ (D.view dev.old).writes + 400 }
        ensures works { Works (D.view dev.old) (D.view dev.new) }
        ensures faults { CountsFault result (D.view dev.old).faults (D.view dev.new).faults }
    {
        self.check();
        self.volume.settle_some(dev)
    }

    /// Makes one step of reclamation, if one is left; whether it did. The state stays. `Failed` comes only where the
    /// device's count of faults rose; the core is spent then.
    pub fn settle_one<D: Device>(&mut self, dev: &mut D) -> Result<bool, Failed>
        requires ready { IsCoreReady self.old }
        requires at { D.told → IsCoreAt self.old (D.view dev.old) }
        ensures ready { OnOk result (IsCoreReady self.new) }
        ensures at { D.told → OnOk result (IsCoreAt self.new (D.view dev.new)) }
        ensures state { D.told → OnOk result (state_on self.new (D.view dev.new).reads ≡ state_on self.old
            (D.view dev.old).reads) }
        ensures told { OnOk result (told_state self.new ≡ told_state self.old) }
        ensures lowered { IfOk result (λ some. some ≡ true → owed self.new.volume.tables < owed
            self.old.volume.tables) }
        ensures none { IfOk result (λ some. some ≡ false → owed self.new.volume.tables ≡ 0) }
        /// promise (with most): A step of reclamation costs at most 69 writes, those that it leaves for later included.
        ensures used { OnOk result ((D.view dev.new).writes + checkpoint_writes self.new.volume.ring
            ≤ (D.view dev.old).writes + checkpoint_writes self.old.volume.ring + batch_cost 33) }
        ensures most { (D.view dev.new).writes ≤ (D.view dev.old).writes + checkpoint_writes
            self.old.volume.ring + batch_cost 33 }
        ensures size { SameSize self.old self.new }
        ensures spent { OnErr result (self.new.volume.is_spent ≡ true) }
        ensures sent { D.told → (D.view dev.new).sent ≡ (D.view dev.old).sent }
        ensures behind { D.told → LeavesPart (behind self.old.volume.tables.geometry) (D.view dev.old)
            (D.view dev.new) }
        ensures any_moment { D.told → LeavesWorld (D.view dev.old) (D.view dev.new) }
        ensures works { Works (D.view dev.old) (D.view dev.new) }
        ensures faults { CountsFault result (D.view dev.old).faults (D.view dev.new).faults }
    {
        self.check();
        self.volume.settle_one(dev)
    }

    /// Puts all records of the journal in place and closes its gates. The state stays, and what is left to be
    /// reclaimed. `Failed` comes only where the device's count of faults rose; the core is spent then.
    pub fn empty_ring<D: Device>(&mut self, dev: &mut D) -> Result<(), Failed>
        requires ready { IsCoreReady self.old }
        requires at { D.told → IsCoreAt self.old (D.view dev.old) }
        ensures ready { OnOk result (IsCoreReady self.new) }
        ensures at { D.told → OnOk result (IsCoreAt self.new (D.view dev.new)) }
        ensures closed { D.told → OnOk result (AreClosed (D.view dev.new).reads) }
        /// promise (with most): No record of the journal is left, and only what those that were there need is written.
        ensures emptied { OnOk result (self.new.volume.ring ≡ []) }
        ensures most { (D.view dev.new).writes ≤ (D.view dev.old).writes + checkpoint_writes self.old.volume.ring }
        ensures state { D.told → OnOk result (state_on self.new (D.view dev.new).reads ≡ state_on self.old
            (D.view dev.old).reads) }
        ensures told { OnOk result (told_state self.new ≡ told_state self.old) }
        ensures owes { OnOk result (owed self.new.volume.tables ≡ owed self.old.volume.tables) }
        ensures size { SameSize self.old self.new }
        ensures spent { OnErr result (self.new.volume.is_spent ≡ true) }
        ensures sent { D.told → (D.view dev.new).sent ≡ (D.view dev.old).sent }
        ensures behind { D.told → LeavesPart (behind self.old.volume.tables.geometry) (D.view dev.old)
            (D.view dev.new) }
        ensures any_moment { D.told → LeavesWorld (D.view dev.old) (D.view dev.new) }
        ensures works { Works (D.view dev.old) (D.view dev.new) }
        ensures faults { CountsFault result (D.view dev.old).faults (D.view dev.new).faults }
    {
        self.check();
        self.volume.empty_ring(dev)
    }

    /// Whether a step of reclamation is left.
    pub fn is_owed(&self) -> bool
        requires { IsCoreReady self.now }
        ensures { IsTrue result ↔ (0 < owed self.now.volume.tables) }
    {
        self.volume.is_owed()
    }
}
