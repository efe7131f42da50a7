//! Replays: the open records that a disk has are put in place, and its gates are closed.

ghost use Rattle.std.specs.Prelude.{◌≡◌, ◌≤◌, ◌<◌, ◌+◌, ◌++◌, [], ℕ, length, true};
ghost use Rattle.std.specs.Prelude.{false, OnOk, OnErr, IfOk, IsErrOf};
ghost use Rattle.image_device.specs.Image.{Image};
ghost use Rattle.image_device.specs.Calls.{Rests, Uses};
ghost use Rattle.image_device.specs.Counts.{CountsFault, CountsFaultOf};
ghost use Rattle.image_device.specs.Runs.{IsFirm, LeavesOnly};
ghost use Rattle.image_layout.specs.Ring.{records, bodies, gate_sector, body_sector};
ghost use Rattle.intent_journal.specs.Descriptor.{is_valid};
ghost use Rattle.intent_journal.specs.Home.{home, is_journal, AgreeBut};
ghost use Rattle.intent_journal.specs.Records.{patches_of, open_records, is_gate_open, descriptor_of};
ghost use Rattle.intent_journal.specs.Records.{has_valid_records, bodied, AddsRecord, HasHomes, IsBadRecord};
ghost use Rattle.intent_journal.specs.Ring.{IsRingAt, IsReplayFound, distinct_homes, last_patches, replay_writes};
ghost use Rattle.intent_journal.specs.Closing.{IsListed, closing_writes, is_listed_open};
ghost use Rattle.intent_journal.specs.Written.{ClosesGates};
ghost use Rattle.intent_journal.specs.Crash.{IsBefore, IsTheSame};

use crate::checkpoint::{Gates, put_in_place};
use crate::descriptor::{MOST_HOMES, read_descriptor};
use crate::patches::PatchList;
use crate::ring::{RECORD_PLACES, ReplayFault, Replayed, Ring, read_over};
use arrayvec::ArrayVec;
use image_device::{Device, Failed};
use image_layout::Patch;
use image_layout::gate::says_open;
use image_layout::ring::{RECORDS, body_sector, descriptor_sector, gate_sector};

impl Ring {
    /// Puts the open records of a disk in place and closes the gates that are open. Nothing may be loose. Where no gate
    /// is open nothing is written or waited for. Whatever the ring held before, it is empty after. `BadDescriptor`
    /// comes exactly where an open record has no valid descriptor, and then nothing was written; `Device` comes only
    /// where the device's count of faults rose.
    pub fn replay<D: Device>(&mut self, dev: &mut D) -> Result<Replayed, ReplayFault>
        requires { D.told → IsFirm (D.view dev.old) }
        ensures empty { self.new ≡ [] }
        ensures at { D.told → OnOk result (IsRingAt [] (D.view dev.new)) }
        /// promise: Nothing is answered exactly where no record is open, else the number of distinct homes.
        ensures found { D.told → IfOk result (λ r. IsReplayFound (open_records (D.view dev.old).reads) r) }
        ensures valid { D.told → OnOk result (has_valid_records (D.view dev.old).reads ≡ true) }
        /// promise (with valid, unwritten): Unless the device fails, `BadDescriptor` comes exactly where an open record
        /// isn't valid, and nothing was written then.
        ensures bad { D.told → IsErrOf result ReplayFault.BadDescriptor
            → (has_valid_records (D.view dev.old).reads ≡ false) × Rests (D.view dev.old) (D.view dev.new) }
        ensures unwritten { IsErrOf result ReplayFault.BadDescriptor → Uses 0 (D.view dev.old) (D.view dev.new) }
        /// promise (with firm, at, empty): After Ok the sectors read as what the disk stood for, the journal aside;
        /// nothing is loose, all gates are closed, and the ring is empty.
        ensures done { D.told → OnOk result (AgreeBut is_journal (home (D.view dev.old).reads) (D.view dev.new).reads) }
        ensures gates { D.told → OnOk result (ClosesGates (D.view dev.old).reads (D.view dev.new).reads) }
        ensures firm { D.told → OnOk result (IsFirm (D.view dev.new)) }
        ensures sent { D.told → (D.view dev.new).sent ≡ (D.view dev.old).sent }

        /// promise: What a crash at any moment leaves stands for what the disk stood for at the start; so a replay that
        /// was stopped may be begun again, any number of times.
        ensures any_moment { D.told → LeavesOnly (D.view dev.old) (D.view dev.new)
            (λ x f. IsTheSame (D.view dev.old).reads x × (f ≡ (D.view dev.old).sent)) }

        ensures uses { Uses 121 (D.view dev.old) (D.view dev.new) }
        /// promise (with uses): At most as many writes as there are distinct homes and gates that read open, and never
        /// more than 121.
        ensures needed { D.told → Uses (replay_writes (D.view dev.old).reads) (D.view dev.old) (D.view dev.new) }
        ensures faults { CountsFaultOf ReplayFault.Device result (D.view dev.old).faults (D.view dev.new).faults }
    {
        self.counts.clear();
        self.patches.clear();
        let outcome = replay_into(dev, &mut self.patches);
        self.patches.clear();
        outcome
    }
}

impl Ring {
    /// Reads what a sector is to hold once the open records of a disk are in place, and writes nothing. Whatever it
    /// held before, the ring is empty after. `Device` comes only where the device's count of faults rose. After an
    /// error `into` is as it was.
    pub fn look<D: Device>(
        &mut self,
        dev: &mut D,
        sector: u32,
        into: &mut [u8; 512],
    ) -> Result<(), ReplayFault>
        ensures empty { self.new ≡ [] }
        /// promise (with rests): The sector as it is to be once the open records are in place, before a replay; nothing
        /// is written.
        ensures bytes { D.told → OnOk result (into.new ≡ home (D.view dev.old).reads sector) }
        ensures kept { OnErr result (into.new ≡ into.old) }
        ensures valid { D.told → OnOk result (has_valid_records (D.view dev.old).reads ≡ true) }
        ensures bad { D.told → IsErrOf result ReplayFault.BadDescriptor → has_valid_records (D.view dev.old).reads
            ≡ false }
        ensures rests { D.told → Rests (D.view dev.old) (D.view dev.new) }
        ensures uses { Uses 0 (D.view dev.old) (D.view dev.new) }
        ensures faults { CountsFaultOf ReplayFault.Device result (D.view dev.old).faults (D.view dev.new).faults }
    {
        self.counts.clear();
        self.patches.clear();
        let outcome = look_through(dev, &mut self.patches, sector, into);
        self.patches.clear();
        outcome
    }
}

/// Reads a sector over the open records, through an empty list of patches.
#[tactic(auto, using(image_device::proofs::Resting::rests_calls))]
fn look_through<D: Device>(
    dev: &mut D,
    patches: &mut PatchList,
    sector: u32,
    into: &mut [u8; 512],
) -> Result<(), ReplayFault>
    requires { patches.old ≡ [] }
    ensures bytes { D.told → OnOk result (into.new ≡ home (D.view dev.old).reads sector) }
    ensures kept { OnErr result (into.new ≡ into.old) }
    ensures valid { D.told → OnOk result (has_valid_records (D.view dev.old).reads ≡ true) }
    ensures bad { D.told → IsErrOf result ReplayFault.BadDescriptor → has_valid_records (D.view dev.old).reads
        ≡ false }
    ensures rests { D.told → Rests (D.view dev.old) (D.view dev.new) }
    ensures uses { Uses 0 (D.view dev.old) (D.view dev.new) }
    ensures faults { CountsFaultOf ReplayFault.Device result (D.view dev.old).faults (D.view dev.new).faults }
{
    read_records(dev, patches)?;
    read_over(dev, patches.as_slice(), sector, into)?;
    Ok(())
}

/// Replays through an empty list of patches.
fn replay_into<D: Device>(dev: &mut D, patches: &mut PatchList) -> Result<Replayed, ReplayFault>
    requires none { patches.old ≡ [] }
    requires firm { D.told → IsFirm (D.view dev.old) }
    ensures at { D.told → OnOk result (IsRingAt [] (D.view dev.new)) }
    ensures found { D.told → IfOk result (λ r. IsReplayFound (open_records (D.view dev.old).reads) r) }
    ensures valid { D.told → OnOk result (has_valid_records (D.view dev.old).reads ≡ true) }
    ensures bad { D.told → IsErrOf result ReplayFault.BadDescriptor
        → (has_valid_records (D.view dev.old).reads ≡ false) × Rests (D.view dev.old) (D.view dev.new) }
    ensures unwritten { IsErrOf result ReplayFault.BadDescriptor → Uses 0 (D.view dev.old) (D.view dev.new) }
    ensures done { D.told → OnOk result (AgreeBut is_journal (home (D.view dev.old).reads) (D.view dev.new).reads) }
    ensures gates { D.told → OnOk result (ClosesGates (D.view dev.old).reads (D.view dev.new).reads) }
    ensures firm { D.told → OnOk result (IsFirm (D.view dev.new)) }
    ensures sent { D.told → (D.view dev.new).sent ≡ (D.view dev.old).sent }
    ensures any_moment { D.told → LeavesOnly (D.view dev.old) (D.view dev.new)
        (λ x f. IsTheSame (D.view dev.old).reads x × (f ≡ (D.view dev.old).sent)) }
    ensures uses { Uses 121 (D.view dev.old) (D.view dev.new) }
    ensures needed { D.told → Uses (replay_writes (D.view dev.old).reads) (D.view dev.old) (D.view dev.new) }
    ensures faults { CountsFaultOf ReplayFault.Device result (D.view dev.old).faults (D.view dev.new).faults }
{
    read_records(dev, patches)?;
    let gates = read_gates(dev)?;
    let homes = put_open_in_place(dev, patches.as_slice(), &gates)?;
    Ok(found(homes))
}

/// Puts patches in place and closes the gates that are open, where nothing is loose. Where no gate is open either,
/// there is nothing to write, and nothing to wait for. Answers to how many homes it wrote.
fn put_open_in_place<D: Device>(
    dev: &mut D,
    patches: &[Patch],
    gates: &Gates,
) -> Result<u32, Failed>
    requires listed { D.told → IsListed patches.now gates.now (D.view dev.old) }
    requires room { length patches.now ≤ bodies }
    requires firm { D.told → IsFirm (D.view dev.old) }
    ensures at { D.told → OnOk result (IsRingAt [] (D.view dev.new)) }
    ensures homes { IfOk result (λ homes. homes ≡ length (last_patches patches.now)) }
    ensures done { D.told → OnOk result (AgreeBut is_journal (home (D.view dev.old).reads) (D.view dev.new).reads) }
    ensures gates { D.told → OnOk result (ClosesGates (D.view dev.old).reads (D.view dev.new).reads) }
    ensures firm { D.told → OnOk result (IsFirm (D.view dev.new)) }
    ensures sent { D.told → (D.view dev.new).sent ≡ (D.view dev.old).sent }
    ensures any_moment { D.told → LeavesOnly (D.view dev.old) (D.view dev.new)
        (λ x f. IsBefore (D.view dev.old) x × (f ≡ (D.view dev.old).sent)) }
    ensures uses { Uses (closing_writes patches.now gates.now) (D.view dev.old) (D.view dev.new) }
    ensures faults { CountsFault result (D.view dev.old).faults (D.view dev.new).faults }
{
    if patches.is_empty() && are_closed(gates) {
        return Ok(0);
    }
    put_in_place(dev, patches, gates)
}

/// Whether every gate is closed.
fn are_closed(gates: &Gates) -> bool
    ensures { result ≡ true → (index : ℕ) → index < records → is_listed_open gates.now index ≡ false }
{
    for index in 0..RECORD_PLACES {
        if gates[index] {
            return false;
        }
    }
    true
}

/// What a replay answers that wrote to so many homes.
fn found(homes: u32) -> Replayed
    ensures { (image : Image) → homes ≡ distinct_homes (open_records image)
        → IsReplayFound (open_records image) result }
{
    if homes == 0 {
        Replayed::Nothing
    } else {
        Replayed::Homes(homes)
    }
}

/// Reads the patches of the open records.
#[tactic(auto, using(image_device::proofs::Resting::rests_calls))]
fn read_records<D: Device>(dev: &mut D, patches: &mut PatchList) -> Result<(), ReplayFault>
    requires { patches.old ≡ [] }
    ensures found { D.told → OnOk result (patches.new ≡ patches_of (open_records (D.view dev.old).reads)) }
    ensures valid { D.told → OnOk result (has_valid_records (D.view dev.old).reads ≡ true) }
    ensures bad { D.told → IsErrOf result ReplayFault.BadDescriptor → has_valid_records (D.view dev.old).reads
        ≡ false }
    ensures rests { D.told → Rests (D.view dev.old) (D.view dev.new) }
    ensures uses { Uses 0 (D.view dev.old) (D.view dev.new) }
    ensures faults { CountsFaultOf ReplayFault.Device result (D.view dev.old).faults (D.view dev.new).faults }
{
    for index in 0..RECORDS {
        if !read_record(dev, index, patches)? {
            return Ok(());
        }
    }
    Ok(())
}

/// Reads a record behind the patches of those before it. False where its gate is closed.
#[tactic(auto, using(image_device::proofs::Resting::rests_calls))]
fn read_record<D: Device>(
    dev: &mut D,
    index: u32,
    patches: &mut PatchList,
) -> Result<bool, ReplayFault>
    requires { index < records }
    ensures closed { D.told → IfOk result (λ more. more ≡ false
        → (is_gate_open (D.view dev.old).reads index ≡ false) × (patches.new ≡ patches.old)) }
    ensures more { D.told → IfOk result (λ more. more ≡ true
        → AddsRecord (D.view dev.old).reads index patches.old patches.new) }
    ensures bad { D.told → IsErrOf result ReplayFault.BadDescriptor
        → IsBadRecord (D.view dev.old).reads index (length patches.old) }
    ensures rests { D.told → Rests (D.view dev.old) (D.view dev.new) }
    ensures uses { Uses 0 (D.view dev.old) (D.view dev.new) }
    ensures faults { CountsFaultOf ReplayFault.Device result (D.view dev.old).faults (D.view dev.new).faults }
{
    if !is_gate_open(dev, index)? {
        return Ok(false);
    }
    let homes = read_homes(dev, index, patches.len())?;
    read_bodies(dev, homes.as_slice(), patches)?;
    Ok(true)
}

/// Reads the homes of a record whose bodies begin at this one.
#[tactic(auto, using(image_device::proofs::Resting::rests_calls))]
fn read_homes<D: Device>(
    dev: &mut D,
    index: u32,
    start: u32,
) -> Result<ArrayVec<u32, MOST_HOMES>, ReplayFault>
    requires { index < records }
    ensures valid { D.told → IfOk result (λ homes. HasHomes (D.view dev.old).reads index start homes.items) }
    ensures room { IfOk result (λ homes. start + length homes.items ≤ bodies) }
    ensures bad { D.told → IsErrOf result ReplayFault.BadDescriptor
        → is_valid start (descriptor_of (D.view dev.old).reads index) ≡ false }
    ensures rests { D.told → Rests (D.view dev.old) (D.view dev.new) }
    ensures uses { Uses 0 (D.view dev.old) (D.view dev.new) }
    ensures faults { CountsFaultOf ReplayFault.Device result (D.view dev.old).faults (D.view dev.new).faults }
{
    let mut sector = [0; 512];
    dev.read(descriptor_sector(index), &mut sector)?;
    match read_descriptor(&sector, start) {
        Some(homes) => Ok(homes),
        None => Err(ReplayFault::BadDescriptor),
    }
}

/// Reads the body of each home, behind those read before.
#[tactic(auto, using(image_device::proofs::Resting::rests_calls))]
fn read_bodies<D: Device>(dev: &mut D, homes: &[u32], patches: &mut PatchList) -> Result<(), Failed>
    requires { length patches.old + length homes.now ≤ bodies }
    ensures read { D.told → OnOk result (patches.new ≡ patches.old
        ++ bodied (D.view dev.old).reads (length patches.old) homes.now) }
    ensures rests { D.told → Rests (D.view dev.old) (D.view dev.new) }
    ensures uses { Uses 0 (D.view dev.old) (D.view dev.new) }
    ensures faults { CountsFault result (D.view dev.old).faults (D.view dev.new).faults }
{
    let mut body = [0; 512];
    for home in homes {
        dev.read(body_sector(patches.len()), &mut body)?;
        patches.push(*home, &body);
    }
    Ok(())
}

/// Reads whether a gate is open.
#[tactic(auto, using(image_device::proofs::Resting::rests_calls))]
fn is_gate_open<D: Device>(dev: &mut D, index: u32) -> Result<bool, Failed>
    requires { index < records }
    ensures gate { D.told → IfOk result (λ b. b ≡ is_gate_open (D.view dev.old).reads index) }
    ensures rests { D.told → Rests (D.view dev.old) (D.view dev.new) }
    ensures uses { Uses 0 (D.view dev.old) (D.view dev.new) }
    ensures faults { CountsFault result (D.view dev.old).faults (D.view dev.new).faults }
{
    let mut gate = [0; 512];
    dev.read(gate_sector(index), &mut gate)?;
    Ok(says_open(&gate))
}

/// Reads which gates are open, also those behind a closed one.
#[tactic(auto, using(image_device::proofs::Resting::rests_calls))]
fn read_gates<D: Device>(dev: &mut D) -> Result<Gates, Failed>
    ensures gates { D.told → IfOk result (λ gates. (index : ℕ) → index < records → is_listed_open gates index
        ≡ is_gate_open (D.view dev.old).reads index) }
    ensures rests { D.told → Rests (D.view dev.old) (D.view dev.new) }
    ensures uses { Uses 0 (D.view dev.old) (D.view dev.new) }
    ensures faults { CountsFault result (D.view dev.old).faults (D.view dev.new).faults }
{
    let mut gates = [false; RECORD_PLACES];
    for index in 0..RECORDS {
        gates[index as usize] = is_gate_open(dev, index)?;
    }
    Ok(gates)
}
