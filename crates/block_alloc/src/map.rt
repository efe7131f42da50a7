//! Which blocks are live, a bit a block.

ghost use Rattle.std.specs.Prelude.{◌≡◌, ℕ, ◌+◌, ◌*◌, ◌/◌, ◌<◌, ◌≤◌, true, false, slice_set};
ghost use Rattle.std.specs.Prelude.{IfOk, IsTrue};
ghost use Rattle.image_device.specs.Calls.{Rests, Uses};
ghost use Rattle.image_device.specs.Counts.{CountsFaultOf};
ghost use Rattle.image_layout.specs.Areas.{bitmap_start, slots_start};
ghost use Rattle.tsd_model.specs.Geometry.{IsLawful};
ghost use Rattle.block_alloc.specs.LiveMap.{IsTable, is_live, free_count};
ghost use Rattle.block_alloc.specs.Choosing.{is_free_run};
ghost use Rattle.block_alloc.specs.Bytes.{bitmap_sector_bytes};
ghost use Rattle.block_alloc.specs.Stored.{IsStored, StoresSector, Completes, per_sector, sector_of};

use crate::bits::{bit_in, copy_of, count_zeros, cut_to, put_bit, put_counted, sector_from};
use crate::fault::LoadFault;
use crate::rows::{most_at, most_of_groups, renew_round, renew_set};
use crate::sectors::read_sectors;
use image_device::Device;
use image_layout::sectors::SECTOR_BYTES;
use image_layout::{Layout, Patch};
use std::alloc::Global;
use std::marker::Model;
use tsd_model::Geometry;

/// How many bits a sector of the bitmap has: one a block.
pub(crate) const PER_SECTOR: u32 = 4096;

const _: () = prove!(PER_SECTOR == 4096);

/// Which blocks are live and which are free. A live block may be hidden: it is free for each question and each choice,
/// while its bit stays in the bitmap.
#[derive(Drop)]
pub struct LiveMap {
    geometry: Geometry,
    /// The bytes of the bitmap that have the blocks' bits; those past the last block are 0.
    bytes: Vec<u8>,
    /// The same with 0 for each hidden block.
    unhidden: Vec<u8>,
    /// How many blocks are free.
    free: u32,
    /// For each group of 256 how many free blocks stand in a row at most from one of its blocks on, up to 32.
    most: Vec<u8>,
}

impl Model for LiveMap {
    ghost use Rattle.block_alloc.specs.LiveMap.{LiveMap as Value_of};
    ghost use Rattle.block_alloc.specs.Bytes.{bits_of, IsMapKept};
    ghost use Rattle.tsd_model.specs.Geometry.{IsLawful};

    ghost Value = { Value_of };

    ghost view = { λ m. record {
      geometry = m.geometry;
      live = bits_of m.bytes.items m.geometry.blocks;
      unhidden = bits_of m.unhidden.items m.geometry.blocks;
    } };

    ghost invariant = { λ m. IsLawful m.geometry × IsMapKept m.geometry.blocks m.bytes.items m.unhidden.items m.free
        m.most.items };
}

impl LiveMap {
    /// Reads the bitmap, and hides no block. Bits past the last block don't matter. `Device` comes only where `faults`
    /// rose.
    pub fn load<D: Device>(
        alloc: Global,
        dev: &mut D,
        geometry: &Geometry,
    ) -> Result<LiveMap, LoadFault>
        requires { IsLawful geometry.now }
        ensures geometry { IfOk result (λ m. m.geometry ≡ geometry.now) }
        ensures table { IfOk result IsTable }
        /// promise: After Ok the map is what the device's bitmap says, with no block hidden.
        ensures stored { D.told → IfOk result (λ m. IsStored m.live geometry.now (D.view dev.old).reads) }
        ensures none_hidden { IfOk result (λ m. m.unhidden ≡ m.live) }
        ensures rests { D.told → Rests (D.view dev.old) (D.view dev.new) }
        ensures uses { Uses 0 (D.view dev.old) (D.view dev.new) }
        ensures faults { CountsFaultOf LoadFault.Device result (D.view dev.old).faults (D.view dev.new).faults }
    {
        let layout = Layout::of(geometry);
        let sectors = geometry.blocks.div_ceil(PER_SECTOR);
        let mut bytes = read_sectors(alloc, dev, layout.bitmap_start(), sectors)?;
        cut_to(&mut bytes, geometry.blocks);
        let unhidden = copy_of(alloc, &bytes)?;
        let free = count_zeros(&unhidden, geometry.blocks);
        let most = most_of_groups(alloc, &unhidden, geometry.blocks)?;
        Ok(LiveMap {
            geometry: *geometry,
            bytes,
            unhidden,
            free,
            most,
        })
    }

    /// How large the disk is.
    pub fn geometry(&self) -> Geometry
        ensures value { result ≡ self.now.geometry }
        ensures table { IsTable self.now }
    {
        self.geometry
    }

    /// How many blocks are free.
    pub fn free_count(&self) -> u32
        ensures value { result ≡ free_count self.now.unhidden }
        ensures table { IsTable self.now }
    {
        self.free
    }

    /// Whether a block is live and isn't hidden.
    pub fn is_live(&self, block: u32) -> bool
        requires { block < self.now.geometry.blocks }
        ensures { result ≡ is_live self.now.unhidden block }
    {
        bit_in(&self.unhidden, block)
    }

    /// Whether it is known that no run of so many free blocks begins in a group of 256.
    pub(crate) fn lacks_run(&self, group: u32, run: u32) -> bool
        requires { run ≤ 32 }
        ensures { IsTrue result → (b : ℕ) → 256 * group ≤ b → b < 256 * group + 256
            → is_free_run self.now.unhidden run b ≡ false }
    {
        most_at(&self.most, group) < run
    }

    /// Whether a block is live in the bitmap, hidden or not.
    pub fn raw_live(&self, block: u32) -> bool
        requires { block < self.now.geometry.blocks }
        /// promise: Whether the block is live in the bitmap, hidden or not.
        ensures { result ≡ is_live self.now.live block }
    {
        bit_in(&self.bytes, block)
    }

    /// Makes a block live and not hidden, whatever it was.
    pub fn set_live(&mut self, block: u32)
        requires { block < self.old.geometry.blocks }
        /// promise: The block is live and not hidden, and no other changes.
        ensures { self.new ≡ record self.old {
          live = slice_set self.old.live block true;
          unhidden = slice_set self.old.unhidden block true;
        } }
    {
        self.set(block, true, true);
    }

    /// Makes a block free and not hidden, whatever it was.
    pub fn set_free(&mut self, block: u32)
        requires { block < self.old.geometry.blocks }
        /// promise: The block is free and not hidden, and no other changes.
        ensures { self.new ≡ record self.old {
          live = slice_set self.old.live block false;
          unhidden = slice_set self.old.unhidden block false;
        } }
    {
        self.set(block, false, false);
    }

    /// Hides a live block: it is free from now on for each question and each choice, and its bit stays in the bitmap.
    pub fn hide(&mut self, block: u32)
        requires { IsTrue (is_live self.old.unhidden block) }
        /// promise: The block is free from now on for each question and each choice, and its bit in the bitmap stays.
        ensures { self.new ≡ record self.old { unhidden = slice_set self.old.unhidden block false } }
    {
        let blocks = self.geometry.blocks;
        self.free = put_counted(&mut self.unhidden, blocks, block, false, self.free);
        renew_round(&mut self.most, &self.unhidden, blocks, block);
    }

    /// Sets the bit of a block, and whether it is live and not hidden.
    fn set(&mut self, block: u32, bit: bool, unhidden: bool)
        requires inside { block < self.old.geometry.blocks }
        requires live { unhidden ≡ true → bit ≡ true }
        ensures { self.new ≡ record self.old {
          live = slice_set self.old.live block bit;
          unhidden = slice_set self.old.unhidden block unhidden;
        } }
    {
        let blocks = self.geometry.blocks;
        put_bit(&mut self.bytes, block, bit);
        self.free = put_counted(&mut self.unhidden, blocks, block, unhidden, self.free);
        renew_set(&mut self.most, &self.unhidden, blocks, block, unhidden);
    }

    /// The sector of the bitmap that has a block's bit, as it now must read.
    pub fn patch(&self, block: u32) -> Patch
        requires { block < self.now.geometry.blocks }
        ensures sector { result.sector ≡ sector_of self.now.geometry block }
        ensures inside { (bitmap_start self.now.geometry ≤ result.sector)
            × (result.sector < slots_start self.now.geometry) }
        ensures bytes { result.bytes ≡ bitmap_sector_bytes self.now.live (block / per_sector) }

        // The bits of all blocks that have theirs in this sector are right, whatever the others are.
        ensures here { StoresSector self.now.live self.now.geometry result }

        // So where those of all other blocks were right, all are.
        /// promise (with here): Where an image had all bits but those of this sector, it has the map with the patch.
        ensures stored { Completes self.now.live self.now.geometry result }

        ensures table { IsTable self.now }
    {
        let first = SECTOR_BYTES * (block / PER_SECTOR) as usize;
        Patch {
            sector: Layout::of(&self.geometry).bit_offset(block).sector,
            bytes: sector_from(&self.bytes, first),
        }
    }
}
