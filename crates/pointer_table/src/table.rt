//! The table.

ghost use Rattle.std.specs.Prelude.{◌≡◌, ◌↔◌, ◌<◌, ◌/◌, ℕ, false, None, Some, length, IsErr, IfOk};
ghost use Rattle.std.specs.Prelude.{◌≤◌, take, OnOk, OnErr};
ghost use Rattle.image_device.specs.Calls.{Rests, Uses};
ghost use Rattle.image_device.specs.Counts.{CountsFaultOf};
ghost use Rattle.tsd_model.specs.Geometry.{IsLawful};
ghost use Rattle.tsd_model.specs.Pairs.{holds, with_pair, without_pair};
ghost use Rattle.tsd_model.specs.Step.{targets_from};
ghost use Rattle.pointer_table.specs.Changes.{IsChange, IsSlotSector, KeepsStored};
ghost use Rattle.pointer_table.specs.Loading.{AnswersPointers};
ghost use Rattle.tsd_model.specs.Next.{IsNextSource, IsNextTarget};
ghost use Rattle.pointer_table.specs.Reading.{AreWithinTo};
ghost use Rattle.pointer_table.specs.Repeating.{IsRepeating};
ghost use Rattle.pointer_table.specs.Sectors.{sector_of, slot_sector_bytes};
ghost use Rattle.pointer_table.specs.Slots.{slot_at};
ghost use Rattle.pointer_table.specs.Table.{pairs, MayBeHeld, IsTable, ArePairs};

use crate::fault::{NoPointer, TableFault, TableFull};
use crate::index::Index;
use crate::load::read_slots;
use crate::next::{least_targets, targets_from};
use crate::raw::RawSlot;
use crate::sector::{PER_SECTOR, sector_bytes};
use crate::slots::Slots;
use image_device::Device;
use image_layout::{Layout, Patch};
use std::alloc::Global;
use std::marker::Model;
use tsd_model::{BlockList, Geometry};

/// The pointers of a disk. Contracts see the size of the disk and the list of the slots, each a pair or empty; the
/// pairs that the slots hold, ascending, are `pairs` of that.
#[derive(Drop)]
pub struct PointerTable {
    geometry: Geometry,
    slots: Slots,
    /// How many slots hold a pair.
    held: u32,
    /// The slots that hold pairs, by source, by target and by pair, and the empty ones.
    index: Index,
}

impl Model for PointerTable {
    ghost use Rattle.std.specs.Prelude.{◌≡◌, length};
    ghost use Rattle.pointer_table.specs.Empties.{AreEmpties};
    ghost use Rattle.pointer_table.specs.Indexed.{IsIndex, HasLinksAndHeads};
    ghost use Rattle.pointer_table.specs.Slots.{slot_at};
    ghost use Rattle.pointer_table.specs.Table.{Table, pairs, IsTable};

    ghost Value = { Table };

    ghost view = { λ t. record { geometry = t.geometry; slots = t.slots } };

    ghost invariant = { λ t.
        IsTable (record { geometry = t.geometry; slots = t.slots })
        × (t.held ≡ length (pairs (record { geometry = t.geometry; slots = t.slots })))
        × AreEmpties t.slots t.held t.index.empty t.index.by_bucket.next
        × IsIndex (slot_at t.slots) t.index
        × HasLinksAndHeads t.geometry.blocks t.geometry.slots t.index };
}

impl PointerTable {
    /// Reads the table of a disk. The device is only read.
    ///
    /// Fails with `NoMemory` where memory is short; with `Device` only where the device's faults rose, and with every
    /// other answer it stays; with `Slot` where a slot is bad, for the least one; with `Repeated` where none is bad and
    /// two slots hold one pair, for the least such pair.
    pub fn load<D: Device>(
        alloc: Global,
        dev: &mut D,
        geometry: &Geometry,
    ) -> Result<PointerTable, TableFault>
        requires { IsLawful geometry.now }
        ensures table { IfOk result (λ t. (t.geometry ≡ geometry.now) × IsTable t) }
        /// promise: After Ok the device's sectors have the table. Else: the least bad slot with its numbers as they
        /// stand; or, where no slot is bad, the least pair that two slots hold.
        ensures read { D.told → AnswersPointers (D.view dev.old).reads geometry.now result }
        ensures rests { D.told → Rests (D.view dev.old) (D.view dev.new) }
        ensures uses { Uses 0 (D.view dev.old) (D.view dev.new) }
        ensures faults { CountsFaultOf TableFault.Device result (D.view dev.old).faults (D.view dev.new).faults }
    {
        let mut slots = Slots::empty(alloc, geometry.slots as usize)?;
        read_slots(dev, geometry, &mut slots)?;
        PointerTable::of_slots(alloc, geometry, slots)
    }

    /// The size of the disk.
    pub fn geometry(&self) -> Geometry
        ensures { result ≡ self.now.geometry }
    {
        self.geometry
    }

    /// How many pairs are held.
    pub fn len(&self) -> u32
        ensures value { result ≡ length (pairs self.now) }
        ensures table { IsTable self.now }
        /// promise: The pairs are the ascending list of those in the slots, none twice, with both ends in range.
        ensures pairs { ArePairs self.now }
    {
        self.held
    }

    /// The pair that a slot holds.
    pub fn pair_in(&self, slot: u32) -> Option<(u32, u32)>
        requires { slot < self.now.geometry.slots }
        ensures value { result ≡ slot_at self.now.slots slot }
        ensures table { IsTable self.now }
    {
        self.slots.get(slot as usize).pair()
    }

    /// How many slots there are up to the last that held a pair since the table was loaded. None from this one on holds
    /// a pair.
    pub fn slots_end(&self) -> u32
        ensures inside { result ≤ self.now.geometry.slots }
        ensures empty { (k : ℕ) → result ≤ k → slot_at self.now.slots k ≡ None }
        ensures table { IsTable self.now }
    {
        self.slots.end() as u32
    }

    /// Whether a pair is held.
    pub fn has(&self, source: u32, target: u32) -> bool
        /// promise: Whether the pair is held.
        ensures { result ≡ holds (pairs self.now) source target }
    {
        self.index
            .position_of(&self.slots, source, target)
            .is_some()
    }

    /// The least 64 targets of the pairs from a block that are not below `start`, ascending.
    pub fn targets_from(&self, source: u32, start: u32) -> BlockList
        /// promise: The least 64 targets from a block that are not below a start, ascending.
        ensures { result ≡ targets_from (pairs self.now) source start }
    {
        targets_from(&self.slots, &self.index, source, start)
    }

    /// The least targets of the pairs from a block, ascending, as many as are wanted.
    pub fn least_targets(&self, source: u32, most: usize) -> BlockList
        requires { most ≤ 64 }
        /// promise: The least targets from a block, ascending, as many as are wanted.
        ensures { result ≡ take most (targets_from (pairs self.now) source 0) }
    {
        least_targets(&self.slots, &self.index, source, 0, most)
    }

    /// The least target of the pairs from a block that is not below `start`.
    pub fn next_target(&self, source: u32, start: u32) -> Option<u32>
        /// promise: The least target of the pairs from a block that is not below a start.
        ensures { IsNextTarget (pairs self.now) source start result }
    {
        self.index.next_target(&self.slots, source, start)
    }

    /// The least source of the pairs to a block that is not below `start`.
    pub fn next_source(&self, target: u32, start: u32) -> Option<u32>
        /// promise: The least source of the pairs to a block that is not below a start.
        ensures { IsNextSource (pairs self.now) target start result }
    {
        self.index.next_source(&self.slots, target, start)
    }
}

impl PointerTable {
    /// Holds a pair that isn't held, in an empty slot, and gives the sector of that slot as it now must read.
    pub fn add(&mut self, source: u32, target: u32) -> Result<Patch, TableFull>
        requires absent { holds (pairs self.old) source target ≡ false }
        requires within { MayBeHeld self.old.geometry (source, target) }
        /// promise (with unchanged): Full exactly where every slot holds a pair, with nothing changed.
        ensures full { IsErr result ↔ (length (pairs self.old) ≡ self.old.geometry.slots) }
        ensures unchanged { OnErr result (self.new ≡ self.old) }
        /// promise (with change): After Ok exactly one slot and exactly this pair are new.
        ensures pairs { OnOk result (pairs self.new ≡ with_pair (source, target) (pairs self.old)) }
        ensures change { IfOk result (IsChange self.old self.new None (Some (source, target))) }
        ensures sector { IfOk result (IsSlotSector self.old) }
        /// promise: An image that had the table before has the new one with the patch.
        ensures stored { IfOk result (KeepsStored self.old self.new) }
        ensures table { IsTable self.new }
    {
        if self.held < self.geometry.slots {
            Ok(self.put(source, target))
        } else {
            Err(TableFull)
        }
    }

    /// Takes a pair away, and gives the sector of its slot as it now must read.
    pub fn remove(&mut self, source: u32, target: u32) -> Result<Patch, NoPointer>
        /// promise (with unchanged): Refused exactly where the pair isn't held, with nothing changed.
        ensures absent { IsErr result ↔ (holds (pairs self.old) source target ≡ false) }
        ensures unchanged { OnErr result (self.new ≡ self.old) }
        /// promise (with change): After Ok exactly one slot is emptied and exactly this pair is gone.
        ensures pairs { OnOk result (pairs self.new ≡ without_pair source target (pairs self.old)) }
        ensures change { IfOk result (IsChange self.old self.new (Some (source, target)) None) }
        ensures sector { IfOk result (IsSlotSector self.old) }
        ensures stored { IfOk result (KeepsStored self.old self.new) }
        ensures table { IsTable self.new }
    {
        match self.index.position_of(&self.slots, source, target) {
            Some(position) => Ok(self.clear(position, source, target)),
            None => Err(NoPointer),
        }
    }

    /// The table of slots that were read, of which none is bad.
    fn of_slots(
        alloc: Global,
        geometry: &Geometry,
        slots: Slots,
    ) -> Result<PointerTable, TableFault>
        requires lawful { IsLawful geometry.now }
        requires count { length slots ≡ geometry.now.slots }
        requires within { AreWithinTo geometry.now geometry.now.slots slots }
        ensures table { IfOk result (λ t. (t.geometry ≡ geometry.now) × (t.slots ≡ slots)) }
        ensures repeated { IsRepeating slots result }
    {
        let index = Index::of(alloc, geometry, &slots)?;
        let held = slots.count_held();
        Ok(PointerTable {
            geometry: *geometry,
            slots,
            held,
            index,
        })
    }

    /// Holds a pair that isn't held, in an empty slot, and gives the sector of that slot.
    fn put(&mut self, source: u32, target: u32) -> Patch
        requires room { length (pairs self.old) < self.old.geometry.slots }
        requires absent { holds (pairs self.old) source target ≡ false }
        requires within { MayBeHeld self.old.geometry (source, target) }
        ensures change { IsChange self.old self.new None (Some (source, target)) result }
        ensures sector { IsSlotSector self.old result }
        ensures stored { KeepsStored self.old self.new result }
        ensures table { IsTable self.new }
    {
        let position = self.index.take_empty();
        self.index.add(&self.slots, position, source, target);
        self.slots
            .set(position as usize, RawSlot::of(source, target));
        self.held += 1;
        self.patch(position as usize)
    }

    /// Takes a pair out of its slot, and gives the sector of that slot.
    fn clear(&mut self, position: u32, source: u32, target: u32) -> Patch
        requires { slot_at self.old.slots position ≡ Some (source, target) }
        ensures change { IsChange self.old self.new (Some (source, target)) None result }
        ensures sector { IsSlotSector self.old result }
        ensures stored { KeepsStored self.old self.new result }
        ensures table { IsTable self.new }
    {
        self.index.remove(&self.slots, position, source, target);
        self.slots.set(position as usize, RawSlot::EMPTY);
        self.index.give_empty(position);
        self.held -= 1;
        self.patch(position as usize)
    }

    /// The sector of a slot.
    fn patch(&self, position: usize) -> Patch
        requires { position < self.now.geometry.slots }
        ensures position { result.sector ≡ sector_of self.now.geometry position }
        ensures bytes { result.bytes ≡ slot_sector_bytes self.now.slots (position / PER_SECTOR) }
        ensures sector { IsSlotSector self.now result }
    {
        let at = Layout::of(&self.geometry).slot_offset(position as u32);
        Patch {
            sector: at.sector,
            bytes: sector_bytes(&self.slots, position / PER_SECTOR),
        }
    }
}
