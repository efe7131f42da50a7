//! The ring of records on a disk, as memory holds it.

ghost use Rattle.std.specs.Prelude.{◌≡◌, ◌≤◌, ◌+◌, [], ◌∷◌, ◌++◌, length, false, ◌≢◌};
ghost use Rattle.std.specs.Prelude.{OnOk, OnErr, IfOk, IfSome, IfNone};
ghost use Rattle.image_device.specs.Image.{Image};
ghost use Rattle.image_device.specs.Calls.{Rests, Uses};
ghost use Rattle.image_device.specs.Counts.{CountsFault};
ghost use Rattle.image_layout.specs.Ring.{records, bodies};
ghost use Rattle.intent_journal.specs.Batch.{has_home};
ghost use Rattle.intent_journal.specs.Home.{home, overlaid};
ghost use Rattle.intent_journal.specs.Records.{patches_of};

use crate::batch::Batch;
use crate::patches::PatchList;
use arrayvec::ArrayVec;
use image_device::{Device, Failed};
use image_layout::Patch;
use image_layout::ring::RECORDS;
use std::alloc::Global;
use std::marker::Model;
use tsd_model::NoMemory;

/// How many records there are.
pub(crate) const RECORD_PLACES: usize = RECORDS as usize;

const _: () = prove!(RECORD_PLACES == 8);

/// What a replay found.
#[derive(Clone, Copy, Debug, PartialEq, Eq)]
pub enum Replayed {
    /// No record was open.
    Nothing,

    /// So many distinct homes were put in place.
    Homes(u32),
}

/// Why a journal isn't replayed.
#[derive(Clone, Copy, Debug, PartialEq, Eq)]
pub enum ReplayFault {
    /// An open record has no valid descriptor. Nothing was written.
    BadDescriptor,

    /// The disk failed: its count of faults rose.
    Device,
}

impl From<Failed> for ReplayFault {
    ghost use Rattle.std.specs.Prelude.{◌≡◌};
    ghost use Rattle.intent_journal.specs.declared.ring.ReplayFault.TheVariants.{Device as DeviceFault};

    ghost from_gives = { λ _ e. e ≡ DeviceFault };

    fn from(_: Failed) -> ReplayFault {
        ReplayFault::Device
    }
}

/// The records that are on a disk and not in place yet. Contracts see it as the list of its records, the oldest first,
/// each a list of patches.
#[derive(Drop)]
pub struct Ring {
    /// The patches of all records, in order.
    pub(crate) patches: PatchList,

    /// How many of them each record has.
    pub(crate) counts: ArrayVec<u32, RECORD_PLACES>,
}

impl Model for Ring {
    ghost use Rattle.std.specs.Prelude.{List, ◌≡◌, length};
    ghost use Rattle.image_layout.specs.declared.offset.Patch.{Patch};
    ghost use Rattle.intent_journal.specs.Parts.{parted, ArePatchesOfRing};

    ghost Value = { List (List Patch) };

    ghost view = { λ a. parted a.counts.items a.patches };

    ghost invariant = { λ a. ArePatchesOfRing a.counts.items a.patches };
}

impl Ring {
    ghost use Rattle.intent_journal.specs.Ring.{IsRing, IsRingAt};

    /// An empty ring, with room for 113 bodies. This alone takes memory.
    pub fn new(alloc: Global) -> Result<Ring, NoMemory>
        ensures { IfOk result (λ r. r ≡ []) }
    {
        let patches = PatchList::new(alloc)?;
        Ok(Ring {
            patches,
            counts: ArrayVec::new(),
        })
    }

    /// How many records it has.
    pub fn records(&self) -> u32
        ensures value { result ≡ length self.now }
        ensures ring { IsRing self.now }
    {
        self.counts.len() as u32
    }

    /// How many bodies its records have together.
    pub fn bodies(&self) -> u32
        ensures { result ≡ length (patches_of self.now) }
    {
        self.patches.len()
    }

    /// Whether a record has a body for this sector.
    pub fn holds(&self, sector: u32) -> bool
        ensures { result ≡ has_home (patches_of self.now) sector }
    {
        has_home(self.patches.as_slice(), sector)
    }

    /// Reads what a sector is to hold once all records are in place, and writes nothing. `Failed` comes only where the
    /// device's count of faults rose, and leaves `into` as it was.
    pub fn read<D: Device>(
        &self,
        dev: &mut D,
        sector: u32,
        into: &mut [u8; 512],
    ) -> Result<(), Failed>
        requires { D.told → IsRingAt self.now (D.view dev.old) }
        /// promise (with rests): The sector as it is to be once the ring's records are in place; nothing is written.
        ensures bytes { D.told → OnOk result (into.new ≡ home (D.view dev.old).reads sector) }
        /// promise: After a failure the caller's bytes are as they were.
        ensures kept { OnErr result (into.new ≡ into.old) }
        ensures rests { D.told → Rests (D.view dev.old) (D.view dev.new) }
        ensures uses { Uses 0 (D.view dev.old) (D.view dev.new) }
        ensures faults { CountsFault result (D.view dev.old).faults (D.view dev.new).faults }
    {
        read_over(dev, self.patches.as_slice(), sector, into)
    }

    /// The patches of all records, in order.
    pub(crate) fn patches(&self) -> &[Patch]
        ensures value { result.now ≡ patches_of self.now }
        ensures ring { IsRing self.now }
    {
        self.patches.as_slice()
    }

    /// Has a batch as its last record.
    pub(crate) fn keep(&mut self, batch: &Batch)
        requires some { batch.now ≢ [] }
        requires room { length (patches_of self.old) + length batch.now ≤ bodies }
        requires records { length self.old + 1 ≤ records }
        ensures { self.new ≡ self.old ++ batch.now ∷ [] }
    {
        append(&mut self.patches, batch.patches());
        self.counts.push(batch.len());
    }

    /// Has no record any more.
    pub(crate) fn clear(&mut self)
        ensures { self.new ≡ [] }
    {
        self.patches.clear();
        self.counts.clear();
    }
}

/// Whether one of these patches has this home.
pub(crate) fn has_home(patches: &[Patch], sector: u32) -> bool
    ensures { result ≡ has_home patches.now sector }
{
    for patch in patches {
        if patch.sector == sector {
            return true;
        }
    }
    false
}

/// Reads what a sector is to hold once these patches are in place.
pub(crate) fn read_over<D: Device>(
    dev: &mut D,
    patches: &[Patch],
    sector: u32,
    into: &mut [u8; 512],
) -> Result<(), Failed>
    ensures bytes { D.told → OnOk result (into.new ≡ overlaid patches.now (D.view dev.old).reads sector) }
    ensures kept { OnErr result (into.new ≡ into.old) }
    ensures rests { D.told → Rests (D.view dev.old) (D.view dev.new) }
    ensures uses { Uses 0 (D.view dev.old) (D.view dev.new) }
    ensures faults { CountsFault result (D.view dev.old).faults (D.view dev.new).faults }
{
    match last_of(patches, sector) {
        Some(patch) => {
            *into = patch.bytes;
            Ok(())
        }
        None => dev.read(sector, into),
    }
}

/// The last patch of this home.
fn last_of(patches: &[Patch], sector: u32) -> Option<&Patch>
    ensures none { IfNone result (has_home patches.now sector ≡ false) }
    ensures some { IfSome result (λ p. (x : Image) → overlaid patches.now x sector ≡ p.now.bytes) }
{
    let mut found = None;
    for patch in patches {
        if patch.sector == sector {
            found = Some(patch);
        }
    }
    found
}

/// More patches behind the others.
fn append(patches: &mut PatchList, more: &[Patch])
    requires { length patches.old + length more.now ≤ bodies }
    ensures { patches.new ≡ patches.old ++ more.now }
{
    for patch in more {
        patches.push(patch.sector, &patch.bytes);
    }
}
