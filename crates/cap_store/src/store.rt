//! The store of records.

ghost use Rattle.std.specs.Prelude.{◌≡◌, ◌+◌, ◌<◌, ◌≤◌, length};
ghost use Rattle.std.specs.Prelude.{slice_set, IfOk, IsTrue};
ghost use Rattle.std.specs.List.{list_all};
ghost use Rattle.tsd_model.specs.Attained.{shown_level};
ghost use Rattle.tsd_model.specs.Geometry.{IsLawful};
ghost use Rattle.tsd_model.specs.Records.{kept, is_record_of};
ghost use Rattle.tsd_model.specs.World.{World};
ghost use Rattle.image_layout.specs.Areas.{caps_start, counts_start};
ghost use Rattle.image_layout.specs.Header.{IsVersion};
ghost use Rattle.image_layout.specs.Image.{Image};
ghost use Rattle.image_device.specs.Image.{zeros};
ghost use Rattle.image_device.specs.Calls.{Rests, Uses};
ghost use Rattle.image_device.specs.Counts.{CountsFaultOf};
ghost use Rattle.cap_store.specs.Store.{level_shown, upgraded, IsTable};
ghost use Rattle.cap_store.specs.Changes.{patch_of, KeepsElsewhere, KeepsStored, Completes, CompletesBut};
ghost use Rattle.cap_store.specs.Stored.{IsStored, sector_of, caps_sector_bytes, part_of};

use crate::fault::LoadFault;
use crate::loading::read_records;
use crate::records::{BLANK, record_of, upgrade_each};
use crate::sector::{bytes_of_part, per_sector};
use image_device::Device;
use image_layout::header::DIGEST_VERSION;
use image_layout::sectors::CAPS_START;
use image_layout::{Header, Patch};
use std::alloc::Global;
use std::marker::Model;
use tsd_model::records::{kept_of, record_level};
use tsd_model::{CapPair, Geometry, Level, Record, Shown};

/// What is kept of the capabilities of each primary block.
#[derive(Drop)]
pub struct CapStore {
    version: u32,
    geometry: Geometry,
    records: Vec<Record>,
}

impl Model for CapStore {
    ghost use Rattle.cap_store.specs.Store.{Store, IsTable};

    ghost Value = { Store };

    ghost view = { λ s. record { version = s.version; geometry = s.geometry; records = s.records.items } };

    ghost invariant = { λ s.
        IsTable (record { version = s.version; geometry = s.geometry; records = s.records.items }) };
}

impl CapStore {
    /// The records that a disk with this header has on its device. Each sector of records is read once (tested), and
    /// nothing is written. `Device` comes only where the device's faults rose.
    pub fn load<D: Device>(
        alloc: Global,
        dev: &mut D,
        header: &Header,
    ) -> Result<CapStore, LoadFault>
        requires version { IsVersion header.now.version }
        requires lawful { IsLawful header.now.geometry }
        ensures version { IfOk result (λ s. s.version ≡ header.now.version) }
        ensures geometry { IfOk result (λ s. s.geometry ≡ header.now.geometry) }
        ensures table { IfOk result (λ s. IsTable s) }
        /// promise: After Ok the store is what the device's sectors say.
        ensures stored { D.told → IfOk result (λ s. IsStored s.version s.records (D.view dev.old).reads) }
        ensures rests { D.told → Rests (D.view dev.old) (D.view dev.new) }
        ensures uses { Uses 0 (D.view dev.old) (D.view dev.new) }
        ensures faults { CountsFaultOf LoadFault.Device result (D.view dev.old).faults (D.view dev.new).faults }
    {
        let mut records = vec![in alloc; BLANK; header.geometry.primaries as usize]?;
        read_records(dev, header.version, &mut records)?;
        Ok(CapStore {
            version: header.version,
            geometry: header.geometry,
            records,
        })
    }

    /// 1 or 2.
    pub fn version(&self) -> u32
        ensures value { result ≡ self.now.version }
        ensures table { IsTable self.now }

        // What a world asks of its records.
        /// promise (with each): There is a record for each primary block, all of the store's version, as a world asks.
        ensures of_version { IsTrue (list_all (is_record_of self.now.version) self.now.records) }
        ensures each { length self.now.records ≡ self.now.geometry.primaries }
    {
        self.version
    }

    /// The level that a shown capability attains at a primary block.
    pub fn level_shown(&self, block: u32, shown: &Shown) -> Level
        requires { block < self.now.geometry.primaries }
        /// promise (with rule): The level for which a shown capability is right is that of the abstract disk in any
        /// world with these records, in version 1 and in version 2.
        ensures value { result ≡ level_shown self.now block shown.now }

        // That is the level by the abstract disk's rule, in any world with these records.
        ensures rule { (w : World) → w.version ≡ self.now.version → w.records ≡ self.now.records
            → result ≡ shown_level w block shown.now }
    {
        match shown {
            Shown::Nothing => Level::Bare,
            Shown::Key(cap) => {
                record_level(&self.records[block as usize], &kept_of(self.version, cap))
            }
        }
    }

    /// A primary block has these capabilities from now on.
    pub fn set(&mut self, block: u32, caps: &CapPair)
        requires { block < self.old.geometry.primaries }
        /// promise: Of the new pair is kept what the version keeps, and no other record changes.
        ensures set { self.new ≡ record self.old {
          records = slice_set self.old.records block
              (kept self.old.version caps.now);
        } }

        // What an image had of the store it has still, but for the sector of this record.
        ensures elsewhere { KeepsElsewhere block self.old self.new }

        // With the patch of this record, an image that had the store before has the new one.
        /// promise: With the patch of this record, an image that had the store before has the new one.
        ensures stored { KeepsStored self.old self.new (patch_of self.new block) }
    {
        self.records[block as usize] = record_of(self.version, caps);
    }

    /// Of each capability only its digest is kept from now on: the store becomes one of version 2. One of version 2
    /// stays as it is.
    pub fn upgrade(&mut self)
        /// promise (with same): Of each capability only the digest is kept; a store of version 2 stays.
        ensures upgraded { self.new ≡ upgraded self.old }
        ensures same { self.old.version ≡ 2 → self.new ≡ self.old }

        // An image has all the records where the two sectors stand there, and with 8 primary blocks or fewer the first.
        ensures one { self.new.geometry.primaries ≤ 8 → (y : Image)
            → y caps_start ≡ caps_sector_bytes 2 self.new.records 0 → IsStored 2 self.new.records y }
        /// promise (with one, empty): An image with the two new sectors, or with the first where there are 8 primary
        /// blocks or fewer, has all records, whatever it had before; the second is then zeros.
        ensures both { (y : Image) → y caps_start ≡ caps_sector_bytes 2 self.new.records 0
            → y (caps_start + 1) ≡ caps_sector_bytes 2 self.new.records 1 → IsStored 2 self.new.records y }

        // The second sector is then zeros.
        ensures empty { self.new.geometry.primaries ≤ 8 → caps_sector_bytes 2 self.new.records 1 ≡ zeros }
    {
        upgrade_each(&mut self.records);
        self.version = DIGEST_VERSION;
    }

    /// The sector that has the record of a primary block, as it must read now. It depends on the records as they are
    /// now alone, so the patches of one sector replace each other.
    pub fn patch(&self, block: u32) -> Patch
        requires { block < self.now.geometry.primaries }
        ensures value { result ≡ patch_of self.now block }
        ensures sector { result.sector ≡ sector_of self.now.version block }
        ensures inside { (caps_start ≤ result.sector) × (result.sector < counts_start) }
        ensures bytes { result.bytes ≡ caps_sector_bytes self.now.version self.now.records
            (part_of self.now.version block) }

        // An image that has the records of the other sector has all of them, once the patch stands there.
        /// promise (with more): Where an image had all records but those of this sector, it has the store with the
        /// patch; so too where more sectors are still to be patched.
        ensures stored { Completes self.now result }

        // The same where more sectors are still to be patched.
        ensures more { CompletesBut self.now result }
    {
        let part = block as usize / per_sector(self.version);
        Patch {
            sector: CAPS_START + part as u32,
            bytes: bytes_of_part(self.version, &self.records, part),
        }
    }
}
