//! Checkpoints: the records are put in place, and their gates are closed.

ghost use Rattle.std.specs.Prelude.{◌≡◌, ◌≤◌, ◌<◌, ◌+◌, ◌==◌, ◌&&◌, nat_le, nat_lt, not};
ghost use Rattle.std.specs.Prelude.{[], ℕ, length, false, cond, OnOk, OnErr, IfOk};
ghost use Rattle.image_device.specs.Calls.{Uses};
ghost use Rattle.image_device.specs.Counts.{CountsFault};
ghost use Rattle.image_device.specs.Runs.{IsConfined, IsFirm, LeavesOnly};
ghost use Rattle.image_layout.specs.Image.{gate_bytes};
ghost use Rattle.image_layout.specs.Ring.{records, bodies, gate_sector};
ghost use Rattle.intent_journal.specs.Batch.{has_home};
ghost use Rattle.intent_journal.specs.Home.{home, overlaid, is_journal, AgreeBut};
ghost use Rattle.intent_journal.specs.Records.{is_gate_open};
ghost use Rattle.intent_journal.specs.Ring.{IsRingAt, last_patches, checkpoint_writes};
ghost use Rattle.intent_journal.specs.Closing.{IsListed, IsPutUnlessLater, ClosesLaterGates, is_listed_open};
ghost use Rattle.intent_journal.specs.Closing.{one_if, later_open, closing_writes};
ghost use Rattle.intent_journal.specs.Written.{ClosesGates};
ghost use Rattle.intent_journal.specs.Crash.{IsBefore};

use crate::ring::{RECORD_PLACES, Ring, has_home};
use image_device::{Device, Failed};
use image_layout::Patch;
use image_layout::gate::gate_bytes;
use image_layout::ring::{RECORDS, gate_sector};

/// Whether each gate is open.
pub(crate) type Gates = [bool; RECORD_PLACES];

impl Ring {
    /// Puts all records in place and closes their gates. `Failed` comes only where the device's count of faults rose;
    /// the records are then still the ring's. Ok leaves that count as it was.
    pub fn checkpoint<D: Device>(&mut self, dev: &mut D) -> Result<(), Failed>
        requires { D.told → IsRingAt self.old (D.view dev.old) }
        ensures at { D.told → OnOk result (IsRingAt [] (D.view dev.new)) }
        ensures empty { OnOk result (self.new ≡ []) }
        ensures kept { OnErr result (self.new ≡ self.old) }
        /// promise (with firm, at, empty): After Ok the sectors read as what the disk stood for, the journal aside;
        /// nothing is loose, all gates are closed, and the ring is empty.
        ensures done { D.told → OnOk result (AgreeBut is_journal (home (D.view dev.old).reads) (D.view dev.new).reads) }
        /// promise: Each open gate is closed by zeros, and no other gate is written.
        ensures gates { D.told → OnOk result (ClosesGates (D.view dev.old).reads (D.view dev.new).reads) }
        ensures firm { D.told → OnOk result (IsFirm (D.view dev.new)) }
        ensures sent { D.told → (D.view dev.new).sent ≡ (D.view dev.old).sent }

        /// promise: What a crash at any moment leaves has valid open records, and stands for what the disk stood for
        /// before, except in sectors that were loose.
        ensures any_moment { D.told → LeavesOnly (D.view dev.old) (D.view dev.new)
            (λ x f. IsBefore (D.view dev.old) x × (f ≡ (D.view dev.old).sent)) }

        /// promise (with most): At most as many writes as there are distinct homes and records, and never more than
        /// 121.
        ensures uses { Uses (checkpoint_writes self.old) (D.view dev.old) (D.view dev.new) }
        ensures most { checkpoint_writes self.old ≤ 121 }
        ensures faults { CountsFault result (D.view dev.old).faults (D.view dev.new).faults }
    {
        if self.records() == 0 {
            // What was written before is to be on the disk.
            return dev.sync();
        }
        let gates = first_gates(self.records());
        let _ = put_in_place(dev, self.patches(), &gates)?;
        self.clear();
        Ok(())
    }
}

/// The first gates are open, so many of them.
fn first_gates(count: u32) -> Gates
    ensures { (index : ℕ) → index < records → is_listed_open result index ≡ nat_lt index count }
{
    [
        0 < count,
        1 < count,
        2 < count,
        3 < count,
        4 < count,
        5 < count,
        6 < count,
        7 < count,
    ]
}

/// Puts patches in place and closes the gates that are open. Answers to how many homes it wrote.
pub(crate) fn put_in_place<D: Device>(
    dev: &mut D,
    patches: &[Patch],
    gates: &Gates,
) -> Result<u32, Failed>
    requires listed { D.told → IsListed patches.now gates.now (D.view dev.old) }
    requires room { length patches.now ≤ bodies }
    ensures at { D.told → OnOk result (IsRingAt [] (D.view dev.new)) }
    ensures homes { IfOk result (λ homes. homes ≡ length (last_patches patches.now)) }
    ensures done { D.told → OnOk result (AgreeBut is_journal (home (D.view dev.old).reads) (D.view dev.new).reads) }
    ensures gates { D.told → OnOk result (ClosesGates (D.view dev.old).reads (D.view dev.new).reads) }
    ensures firm { D.told → OnOk result (IsFirm (D.view dev.new)) }
    ensures sent { D.told → (D.view dev.new).sent ≡ (D.view dev.old).sent }
    ensures any_moment { D.told → LeavesOnly (D.view dev.old) (D.view dev.new)
        (λ x f. IsBefore (D.view dev.old) x × (f ≡ (D.view dev.old).sent)) }
    ensures uses { Uses (closing_writes patches.now gates.now) (D.view dev.old) (D.view dev.new) }
    ensures faults { CountsFault result (D.view dev.old).faults (D.view dev.new).faults }
{
    // The homes first: a gate may be closed only once they hold the bodies.
    let homes = write_homes(dev, patches)?;

    // Then gate 0 alone: were a later record closed first, an older body would win.
    close_first_gate(dev, gates[0])?;

    // Behind a closed gate no other is read, so these may be closed in any order.
    close_later_gates(dev, gates)?;
    Ok(homes)
}

/// Writes each home once, with its last body, and waits until they are on the disk.
fn write_homes<D: Device>(dev: &mut D, patches: &[Patch]) -> Result<u32, Failed>
    requires { length patches.now ≤ bodies }
    ensures placed { D.told → OnOk result ((n : ℕ) → (D.view dev.new).reads n ≡ overlaid patches.now
        (D.view dev.old).reads n) }
    ensures homes { IfOk result (λ homes. homes ≡ length (last_patches patches.now)) }
    ensures firm { D.told → OnOk result (IsFirm (D.view dev.new)) }
    ensures confined { D.told → IsConfined (has_home patches.now) (D.view dev.old) (D.view dev.new) }
    ensures uses { Uses (length (last_patches patches.now)) (D.view dev.old) (D.view dev.new) }
    ensures faults { CountsFault result (D.view dev.old).faults (D.view dev.new).faults }
{
    let homes = write_last_bodies(dev, patches)?;
    dev.sync()?;
    Ok(homes)
}

/// Writes each home once, with its last body.
fn write_last_bodies<D: Device>(dev: &mut D, patches: &[Patch]) -> Result<u32, Failed>
    requires { length patches.now ≤ bodies }
    ensures placed { D.told → OnOk result ((n : ℕ) → (D.view dev.new).reads n ≡ overlaid patches.now
        (D.view dev.old).reads n) }
    ensures homes { IfOk result (λ homes. homes ≡ length (last_patches patches.now)) }
    ensures confined { D.told → IsConfined (has_home patches.now) (D.view dev.old) (D.view dev.new) }
    ensures uses { Uses (length (last_patches patches.now)) (D.view dev.old) (D.view dev.new) }
    ensures faults { CountsFault result (D.view dev.old).faults (D.view dev.new).faults }
{
    let mut homes = 0;
    for (index, patch) in patches.iter().enumerate() {
        homes += write_if_last(dev, patch, &patches[index + 1..])?;
    }
    Ok(homes)
}

/// Writes a patch unless a later one has the same home. Answers how often it wrote.
#[tactic(auto, using(image_device::proofs::Confined::confined_calls))]
fn write_if_last<D: Device>(dev: &mut D, patch: &Patch, later: &[Patch]) -> Result<u32, Failed>
    ensures placed { D.told → OnOk result (IsPutUnlessLater patch.now later.now (D.view dev.old).reads
        (D.view dev.new).reads) }
    ensures homes { IfOk result (λ homes. homes ≡ one_if (not (has_home later.now patch.now.sector))) }
    ensures confined { D.told → IsConfined (λ n. n == patch.now.sector) (D.view dev.old) (D.view dev.new) }
    ensures uses { Uses (one_if (not (has_home later.now patch.now.sector))) (D.view dev.old) (D.view dev.new) }
    ensures faults { CountsFault result (D.view dev.old).faults (D.view dev.new).faults }
{
    if has_home(later, patch.sector) {
        return Ok(0);
    }
    dev.write(patch.sector, &patch.bytes)?;
    Ok(1)
}

/// Closes gate 0 where it is open, and waits until that is on the disk.
#[tactic(auto, using(image_device::proofs::Confined::confined_calls))]
fn close_first_gate<D: Device>(dev: &mut D, is_open: bool) -> Result<(), Failed>
    requires { D.told → is_open ≡ is_gate_open (D.view dev.old).reads 0 }
    ensures closed { D.told → OnOk result (is_gate_open (D.view dev.new).reads 0 ≡ false) }
    ensures written { D.told → OnOk result ((D.view dev.new).reads (gate_sector 0) ≡ cond is_open (gate_bytes false)
        ((D.view dev.old).reads (gate_sector 0))) }
    ensures firm { D.told → OnOk result (IsFirm (D.view dev.new)) }
    ensures confined { D.told → IsConfined (λ n. is_open && (n == gate_sector 0)) (D.view dev.old) (D.view dev.new) }
    ensures uses { Uses (one_if is_open) (D.view dev.old) (D.view dev.new) }
    ensures faults { CountsFault result (D.view dev.old).faults (D.view dev.new).faults }
{
    close_gate(dev, 0, is_open)?;
    dev.sync()
}

/// Closes the gates from 1 on that are open, and waits until that is on the disk.
#[tactic(auto, using(image_device::proofs::Confined::confined_calls))]
fn close_later_gates<D: Device>(dev: &mut D, gates: &Gates) -> Result<(), Failed>
    requires { D.told → (index : ℕ) → 0 < index → index < records → is_listed_open gates.now index
        ≡ is_gate_open (D.view dev.old).reads index }
    ensures closed { D.told → OnOk result ((index : ℕ) → 0 < index → index < records
        → is_gate_open (D.view dev.new).reads index ≡ false) }
    ensures written { D.told → OnOk result (ClosesLaterGates gates.now (D.view dev.old).reads (D.view dev.new).reads) }
    ensures firm { D.told → OnOk result (IsFirm (D.view dev.new)) }
    ensures confined { D.told → IsConfined (λ n. nat_le 117 n && nat_le n 129) (D.view dev.old) (D.view dev.new) }
    ensures uses { Uses (later_open gates.now 8) (D.view dev.old) (D.view dev.new) }
    ensures faults { CountsFault result (D.view dev.old).faults (D.view dev.new).faults }
{
    for index in 1..RECORDS {
        close_gate(dev, index, gates[index as usize])?;
    }
    dev.sync()
}

/// Closes a gate where it is open.
#[tactic(auto, using(image_device::proofs::Confined::confined_calls))]
fn close_gate<D: Device>(dev: &mut D, index: u32, is_open: bool) -> Result<(), Failed>
    requires record { index < records }
    requires listed { D.told → is_open ≡ is_gate_open (D.view dev.old).reads index }
    ensures closed { D.told → OnOk result (is_gate_open (D.view dev.new).reads index ≡ false) }
    ensures written { D.told → OnOk result ((D.view dev.new).reads (gate_sector index)
        ≡ cond is_open (gate_bytes false) ((D.view dev.old).reads (gate_sector index))) }
    ensures confined { D.told → IsConfined (λ n. is_open && (n == gate_sector index)) (D.view dev.old)
        (D.view dev.new) }
    ensures uses { Uses (one_if is_open) (D.view dev.old) (D.view dev.new) }
    ensures faults { CountsFault result (D.view dev.old).faults (D.view dev.new).faults }
{
    if is_open {
        dev.write(gate_sector(index), &gate_bytes(false))
    } else {
        Ok(())
    }
}
