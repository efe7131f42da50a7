//! Commits: a whole batch counts, or nothing of it.

ghost use Rattle.std.specs.Prelude.{◌≡◌, ◌≢◌, ◌≤◌, ◌<◌, ◌+◌, ◌-◌, ◌==◌, ◌||◌, []};
ghost use Rattle.std.specs.Prelude.{◌∷◌, ◌++◌, ◌⊎◌, ℕ, length, true, false, cond, slice_get, Some};
ghost use Rattle.std.specs.Prelude.{OnOk, OnErr};
ghost use Rattle.image_device.specs.Calls.{Uses};
ghost use Rattle.image_device.specs.Counts.{CountsFault};
ghost use Rattle.image_device.specs.Runs.{IsConfined, IsFirm, LeavesOnly};
ghost use Rattle.image_layout.specs.Ring.{records, bodies, gate_sector, descriptor_sector, body_sector};
ghost use Rattle.image_layout.specs.declared.offset.Patch.{Patch};
ghost use Rattle.intent_journal.specs.Batch.{IsBatch, homes_of};
ghost use Rattle.intent_journal.specs.Descriptor.{descriptor_bytes};
ghost use Rattle.intent_journal.specs.Home.{home, overlaid, is_journal, AgreeBut};
ghost use Rattle.intent_journal.specs.Ring.{IsRingAt, is_full_for, committed, commit_writes, checkpoint_writes};
ghost use Rattle.intent_journal.specs.Closing.{is_body_of, is_in_record};
ghost use Rattle.intent_journal.specs.Written.{IsRecordWritten};
ghost use Rattle.intent_journal.specs.Crash.{IsBefore, IsBeforeOrAfter};

use crate::batch::Batch;
use crate::descriptor::write_descriptor;
use crate::ring::Ring;
use image_device::{Device, Failed, write_through};
use image_layout::Patch;
use image_layout::gate::gate_bytes;
use image_layout::ring::{BODIES, RECORDS, body_sector, descriptor_sector, gate_sector};

impl Ring {
    /// Makes a whole batch count, or nothing of it. An empty batch writes nothing but syncs, and for any other a ring
    /// without room is emptied first. `Failed` comes only where the device's count of faults rose; the ring is then as
    /// it was, or emptied where it had no room. Ok leaves that count as it was.
    pub fn commit<D: Device>(&mut self, dev: &mut D, batch: &Batch) -> Result<(), Failed>
        requires { D.told → IsRingAt self.old (D.view dev.old) }
        ensures at { D.told → OnOk result (IsRingAt self.new (D.view dev.new)) }
        ensures records { OnOk result (self.new ≡ committed self.old batch.now) }
        /// promise: After a failure the ring in memory is as it was, or empty where it had no room.
        ensures kept { OnErr result ((self.new ≡ self.old)
            ⊎ ((self.new ≡ []) × (is_full_for self.old (length batch.now) ≡ true))) }
        /// promise (with firm, at, records): After Ok the disk stands for what it did with the whole batch in place,
        /// nothing is loose, and the ring is at the device with the batch as its last record.
        ensures done { D.told → OnOk result (AgreeBut is_journal (overlaid batch.now (home (D.view dev.old).reads))
            (home (D.view dev.new).reads)) }
        /// promise: The gate and the descriptor written are those of the format, with zeros after the homes.
        ensures written { D.told → OnOk result (batch.now ≢ [] → IsRecordWritten (length self.new - 1) batch.now
            (D.view dev.new).reads) }
        ensures firm { D.told → OnOk result (IsFirm (D.view dev.new)) }
        ensures sent { D.told → (D.view dev.new).sent ≡ (D.view dev.old).sent }

        /// promise: **A batch is whole or absent in every image.** What a crash at any moment leaves has valid open
        /// records, and stands for what the disk stood for before, except in sectors that were loose, or for that with
        /// the whole batch in place.
        ensures any_moment { D.told → LeavesOnly (D.view dev.old) (D.view dev.new)
            (λ x f. IsBeforeOrAfter batch.now (D.view dev.old) x × (f ≡ (D.view dev.old).sent)) }

        /// promise (with most): At most as many writes as the batch has homes and 2, and those of the checkpoint where
        /// there is no room; none for an empty batch.
        ensures uses { Uses (commit_writes self.old batch.now) (D.view dev.old) (D.view dev.new) }
        ensures most { checkpoint_writes self.old ≤ 121 }
        /// promise: `Failed` comes only where the device's count of faults rose, and Ok leaves the count.
        ensures faults { CountsFault result (D.view dev.old).faults (D.view dev.new).faults }
    {
        // So many records and bodies as a ring has are put in place by at most 121 writes.
        let _records = self.records();
        if batch.len() == 0 {
            // What was written before is to be on the disk.
            return dev.sync();
        }
        self.make_room(dev, batch.len())?;
        self.add(dev, batch)
    }

    /// Empties the ring where it has no room for a batch of so many bodies.
    fn make_room<D: Device>(&mut self, dev: &mut D, len: u32) -> Result<(), Failed>
        requires at { D.told → IsRingAt self.old (D.view dev.old) }
        requires few { len ≤ bodies }
        ensures at { D.told → OnOk result (IsRingAt self.new (D.view dev.new)) }
        ensures records { OnOk result (self.new ≡ cond (is_full_for self.old len) [] self.old) }
        ensures room { OnOk result (is_full_for self.new len ≡ false) }
        ensures kept { OnErr result (self.new ≡ self.old) }
        ensures same { D.told → OnOk result (AgreeBut is_journal (home (D.view dev.old).reads)
            (home (D.view dev.new).reads)) }
        ensures loose { D.told → OnOk result ((n : ℕ) → (D.view dev.old).loose n ≡ false
            → (D.view dev.new).loose n ≡ false) }
        ensures sent { D.told → (D.view dev.new).sent ≡ (D.view dev.old).sent }
        ensures any_moment { D.told → LeavesOnly (D.view dev.old) (D.view dev.new)
            (λ x f. IsBefore (D.view dev.old) x × (f ≡ (D.view dev.old).sent)) }
        ensures uses { Uses (cond (is_full_for self.old len) (checkpoint_writes self.old) 0) (D.view dev.old)
            (D.view dev.new) }
        ensures faults { CountsFault result (D.view dev.old).faults (D.view dev.new).faults }
    {
        if self.is_full_for(len) {
            self.checkpoint(dev)
        } else {
            Ok(())
        }
    }

    /// Whether it has no room for a batch of so many bodies.
    fn is_full_for(&self, len: u32) -> bool
        requires { len ≤ bodies }
        ensures { result ≡ is_full_for self.now len }
    {
        self.records() == RECORDS || self.bodies() + len > BODIES
    }

    /// Commits a batch for which there is room.
    fn add<D: Device>(&mut self, dev: &mut D, batch: &Batch) -> Result<(), Failed>
        requires at { D.told → IsRingAt self.old (D.view dev.old) }
        requires some { batch.now ≢ [] }
        requires room { is_full_for self.old (length batch.now) ≡ false }
        ensures at { D.told → OnOk result (IsRingAt self.new (D.view dev.new)) }
        ensures records { OnOk result (self.new ≡ self.old ++ batch.now ∷ []) }
        ensures kept { OnErr result (self.new ≡ self.old) }
        ensures done { D.told → OnOk result (AgreeBut is_journal (overlaid batch.now (home (D.view dev.old).reads))
            (home (D.view dev.new).reads)) }
        ensures written { D.told → OnOk result (IsRecordWritten (length self.old) batch.now (D.view dev.new).reads) }
        ensures firm { D.told → OnOk result (IsFirm (D.view dev.new)) }
        ensures sent { D.told → (D.view dev.new).sent ≡ (D.view dev.old).sent }
        ensures any_moment { D.told → LeavesOnly (D.view dev.old) (D.view dev.new)
            (λ x f. IsBeforeOrAfter batch.now (D.view dev.old) x × (f ≡ (D.view dev.old).sent)) }
        ensures uses { Uses (length batch.now + 2) (D.view dev.old) (D.view dev.new) }
        ensures faults { CountsFault result (D.view dev.old).faults (D.view dev.new).faults }
    {
        // The record first, behind its closed gate: the gate may be opened only once the record is whole.
        write_record(dev, self.records(), self.bodies(), batch)?;

        // From now on the record counts. It is on the disk before the commit is answered.
        write_through(dev, gate_sector(self.records()), &gate_bytes(true))?;

        // Memory comes last, so that after a failure the ring is as it was.
        self.keep(batch);
        Ok(())
    }
}

/// Writes the bodies from this one on and the descriptor of a record, and waits until they are on the disk.
#[tactic(auto, using(image_device::proofs::Confined::confined_calls))]
fn write_record<D: Device>(dev: &mut D, index: u32, start: u32, batch: &Batch) -> Result<(), Failed>
    requires record { index < records }
    requires room { start + length batch.now ≤ bodies }
    ensures batch { IsBatch batch.now }
    ensures bodies { D.told → OnOk result ((k : ℕ) (p : Patch) → slice_get batch.now k ≡ Some p
        → (D.view dev.new).reads (body_sector (start + k)) ≡ p.bytes) }
    ensures descriptor { D.told → OnOk result ((D.view dev.new).reads (descriptor_sector index) ≡ descriptor_bytes
        (homes_of batch.now)) }
    ensures firm { D.told → OnOk result (IsFirm (D.view dev.new)) }
    ensures confined { D.told → IsConfined (is_in_record index start (length batch.now)) (D.view dev.old)
        (D.view dev.new) }
    ensures uses { Uses (length batch.now + 1) (D.view dev.old) (D.view dev.new) }
    ensures faults { CountsFault result (D.view dev.old).faults (D.view dev.new).faults }
{
    write_bodies(dev, start, batch.patches())?;
    dev.write(descriptor_sector(index), &write_descriptor(batch.patches()))?;
    dev.sync()
}

/// Writes the bytes of patches as bodies, from this one on.
#[tactic(auto, using(image_device::proofs::Confined::confined_calls))]
fn write_bodies<D: Device>(dev: &mut D, start: u32, patches: &[Patch]) -> Result<(), Failed>
    requires { start + length patches.now ≤ bodies }
    ensures bodies { D.told → OnOk result ((k : ℕ) (p : Patch) → slice_get patches.now k ≡ Some p
        → (D.view dev.new).reads (body_sector (start + k)) ≡ p.bytes) }
    ensures confined { D.told → IsConfined (is_body_of start (length patches.now)) (D.view dev.old) (D.view dev.new) }
    ensures uses { Uses (length patches.now) (D.view dev.old) (D.view dev.new) }
    ensures faults { CountsFault result (D.view dev.old).faults (D.view dev.new).faults }
{
    let mut body = start;
    for patch in patches {
        dev.write(body_sector(body), &patch.bytes)?;
        body += 1;
    }
    Ok(())
}
