//! Loading a volume.

ghost use Rattle.std.specs.Prelude.{◌≡◌, [], Ok, false, IfOk};
ghost use Rattle.image_device.specs.Calls.{Rests, Uses};
ghost use Rattle.image_device.specs.Counts.{CountsFault, CountsFaultOf};
ghost use Rattle.image_device.specs.Runs.{IsFirm};
ghost use Rattle.image_layout.specs.Areas.{header_sector, sweep_flag};
ghost use Rattle.image_layout.specs.Header.{IsHeaderReading, IsVersion};
ghost use Rattle.image_layout.specs.Image.{says_open};
ghost use Rattle.tsd_model.specs.Geometry.{IsLawful};
ghost use Rattle.image_world.specs.Faults.{IsFormatGateOpen};
ghost use Rattle.intent_journal.specs.Records.{AreClosed};
ghost use Rattle.volume.specs.Loading.{AnswersVolume};
ghost use Rattle.volume_laws.specs.Volume.{IsVolumeAt};

use crate::fault::VolumeFault;
use crate::volume::Volume;
use cycle_sweep::Marks;
use image_device::{Device, Failed};
use image_layout::sectors::{SECTOR_BYTES, SWEEP_FLAG};
use image_layout::{Header, says_open};
use image_world::load_tables;
use intent_journal::{Batch, Ring};
use reclaim::{Ahead, Guesses};
use std::alloc::Global;

/// Whether a sweep has begun and not ended.
fn read_flag<D: Device>(dev: &mut D) -> Result<bool, Failed>
    ensures value { D.told → IfOk result (λ open_now. open_now ≡ says_open ((D.view dev.old).reads sweep_flag)) }
    ensures rests { D.told → Rests (D.view dev.old) (D.view dev.new) }
    ensures uses { Uses 0 (D.view dev.old) (D.view dev.new) }
    ensures faults { CountsFault result (D.view dev.old).faults (D.view dev.new).faults }
{
    let mut sector = [0; SECTOR_BYTES];
    dev.read(SWEEP_FLAG, &mut sector)?;
    Ok(says_open(&sector))
}

impl Volume {
    /// Loads the tables of a disk and tests them. The device is only read. This takes all room that later calls need,
    /// and no later call takes any: `NoMemory` comes only where there was too little. `Device` comes only where the
    /// device's count of faults rose, and `Image` only where the image stands for no world, with the first test that it
    /// fails.
    pub fn load<D: Device>(
        alloc: Global,
        dev: &mut D,
        header: &Header,
        ring: Ring,
    ) -> Result<Volume, VolumeFault>
        requires version { IsVersion header.now.version }
        requires lawful { IsLawful header.now.geometry }
        requires empty { ring ≡ [] }
        requires firm { D.told → IsFirm (D.view dev.old) }
        requires formatted { D.told → IsFormatGateOpen (D.view dev.old).reads }
        requires closed { D.told → AreClosed (D.view dev.old).reads }
        requires header { D.told → IsHeaderReading ((D.view dev.old).reads header_sector) (Ok header.now) }
        /// promise: The tables of the image, or the first of the tests 4 to 8 of opening that fails, with its least
        /// slot, pair or block.
        ensures read { D.told → AnswersVolume (D.view dev.old).reads result }
        ensures at { D.told → IfOk result (λ v. IsVolumeAt v (D.view dev.new)) }
        ensures of_header { IfOk result (λ v. (v.tables.version ≡ header.now.version)
            × (v.tables.geometry ≡ header.now.geometry)) }
        ensures ring { IfOk result (λ v. v.ring ≡ []) }
        ensures unfinished { IfOk result (λ v. v.is_ready ≡ false) }
        ensures unspent { IfOk result (λ v. v.is_spent ≡ false) }
        ensures rests { D.told → Rests (D.view dev.old) (D.view dev.new) }
        /// promise: Nothing is written.
        ensures uses { Uses 0 (D.view dev.old) (D.view dev.new) }
        ensures faults { CountsFaultOf VolumeFault.Device result (D.view dev.old).faults (D.view dev.new).faults }
    {
        let tables = load_tables(alloc, dev, header)?;
        let is_sweeping = read_flag(dev)?;
        let batch = Batch::new(alloc)?;
        let guesses = Guesses::new(alloc)?;
        let marks = Marks::new(alloc, header.geometry.blocks)?;
        let ahead = Ahead::new(alloc, header.geometry.blocks)?;
        Ok(Volume {
            header: *header,
            ring,
            batch,
            pointers: tables.pointers,
            counts: tables.counts,
            live: tables.live,
            caps: tables.caps,
            guesses,
            marks,
            ahead,
            is_sweeping,
            is_ready: false,
            is_spent: false,
        })
    }
}
