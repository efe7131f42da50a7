//! The table of counts.

ghost use Rattle.std.specs.Prelude.{◌≡◌, ℕ, ◌+◌, ◌-◌, ◌^◌, ◌<◌, ◌≤◌};
ghost use Rattle.std.specs.Prelude.{slice_index, slice_set, IfOk};
ghost use Rattle.tsd_model.specs.Geometry.{IsLawful};
ghost use Rattle.image_layout.specs.Areas.{bitmap_start, counts_start};
ghost use Rattle.image_device.specs.Calls.{Rests, Uses};
ghost use Rattle.image_device.specs.Counts.{CountsFaultOf};
ghost use Rattle.ref_counts.specs.Table.{IsTable};
ghost use Rattle.ref_counts.specs.Changes.{patch_of, KeepsElsewhere, KeepsStored, Completes, CompletesBut};
ghost use Rattle.ref_counts.specs.Stored.{IsStored, sector_of, counts_sector_bytes, part_of};

use crate::fault::LoadFault;
use crate::loading::read_counts;
use crate::sector::bytes_of_part;
use image_device::Device;
use image_layout::sectors::COUNTS_START;
use image_layout::{Layout, Patch};
use std::alloc::Global;
use std::marker::Model;
use tsd_model::Geometry;

/// The count of each block: how many pointers lead to it. It takes four bytes a block.
#[derive(Drop)]
pub struct RefCounts {
    geometry: Geometry,
    counts: Vec<u32>,
}

impl Model for RefCounts {
    ghost use Rattle.ref_counts.specs.Table.{Table, IsTable};

    ghost Value = { Table };

    ghost view = { λ t. record { geometry = t.geometry; counts = t.counts.items } };

    ghost invariant = { λ t. IsTable (record { geometry = t.geometry; counts = t.counts.items }) };
}

/// Each count fits four bytes. It does nothing: proofs of changes ask for the fact.
fn four_bytes_each(counts: &[u32])
    ensures { (block : ℕ) → slice_index counts.now block < 2 ^ 32 }
{}

impl RefCounts {
    /// The counts that a disk of this size has on its device. Any number may stand there. Each sector of counts is read
    /// once (tested), and nothing is written. `Device` comes only where the device's faults rose.
    pub fn load<D: Device>(
        alloc: Global,
        dev: &mut D,
        geometry: &Geometry,
    ) -> Result<RefCounts, LoadFault>
        requires { IsLawful geometry.now }
        ensures geometry { IfOk result (λ t. t.geometry ≡ geometry.now) }
        ensures table { IfOk result (λ t. IsTable t) }
        /// promise: Any numbers load: after Ok the table is what the device's sectors say.
        ensures stored { D.told → IfOk result (λ t. IsStored t.counts t.geometry (D.view dev.old).reads) }
        ensures rests { D.told → Rests (D.view dev.old) (D.view dev.new) }
        ensures uses { Uses 0 (D.view dev.old) (D.view dev.new) }
        ensures faults { CountsFaultOf LoadFault.Device result (D.view dev.old).faults (D.view dev.new).faults }
    {
        let mut counts = vec![in alloc; 0u32; geometry.blocks as usize]?;
        read_counts(dev, &mut counts)?;
        Ok(RefCounts {
            geometry: *geometry,
            counts,
        })
    }

    /// How large the disk is.
    pub fn geometry(&self) -> Geometry
        ensures value { result ≡ self.now.geometry }
        ensures table { IsTable self.now }
    {
        self.geometry
    }

    /// How many pointers lead to a block.
    pub fn count(&self, block: u32) -> u32
        requires { block < self.now.geometry.blocks }
        ensures value { result ≡ slice_index self.now.counts block }
        ensures table { IsTable self.now }
    {
        let position = block as usize;
        self.counts[position]
    }

    /// One pointer more leads to a block.
    pub fn raise(&mut self, block: u32)
        requires block { block < self.old.geometry.blocks }
        requires room { slice_index self.old.counts block < self.old.geometry.blocks }
        /// promise: The count of this block rises by one, and no other changes.
        ensures raised { self.new ≡ record self.old {
          counts = slice_set self.old.counts block
              (slice_index self.old.counts block + 1);
        } }

        // What an image had of the table it has still, but for the sector of this count.
        ensures elsewhere { KeepsElsewhere block self.old self.new }

        // With the patch of this count, an image that had the table before has the new one.
        /// promise: With the patch of this count, an image that had the table before has the new one.
        ensures stored { KeepsStored self.old self.new (patch_of self.new block) }
    {
        four_bytes_each(&self.counts);
        self.counts[block as usize] += 1;
    }

    /// One pointer less leads to a block.
    pub fn lower(&mut self, block: u32)
        requires block { block < self.old.geometry.blocks }
        requires some { 0 < slice_index self.old.counts block }
        /// promise: The count of this block falls by one, and no other changes.
        ensures lowered { self.new ≡ record self.old {
          counts = slice_set self.old.counts block
              (slice_index self.old.counts block - 1);
        } }

        // What an image had of the table it has still, but for the sector of this count.
        ensures elsewhere { KeepsElsewhere block self.old self.new }

        // With the patch of this count, an image that had the table before has the new one.
        ensures stored { KeepsStored self.old self.new (patch_of self.new block) }
    {
        four_bytes_each(&self.counts);
        self.counts[block as usize] -= 1;
    }

    /// The sector that has the count of a block, as it must read now. It depends on the counts as they are now alone,
    /// so the patches of one sector replace each other.
    pub fn patch(&self, block: u32) -> Patch
        requires { block < self.now.geometry.blocks }
        ensures value { result ≡ patch_of self.now block }
        ensures sector { result.sector ≡ sector_of self.now.geometry block }
        ensures inside { (counts_start ≤ result.sector) × (result.sector < bitmap_start self.now.geometry) }
        ensures bytes { result.bytes ≡ counts_sector_bytes self.now.counts (part_of block) }

        // An image that has the counts of all other sectors has all of them, once the patch stands there.
        /// promise (with more): Where an image had all counts but those of this sector, it has the table with the
        /// patch; so too where more sectors are still to be patched.
        ensures stored { Completes self.now result }

        // The same where more sectors are still to be patched.
        ensures more { CompletesBut self.now result }
    {
        let position = Layout::of(&self.geometry).count_offset(block);
        let part = position.sector - COUNTS_START;
        Patch {
            sector: position.sector,
            bytes: bytes_of_part(&self.counts, part as usize),
        }
    }
}
