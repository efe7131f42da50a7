//! The four tables, and their loading.

ghost use Rattle.std.specs.Prelude.{IfOk};
ghost use Rattle.image_device.specs.Calls.{Rests, Uses};
ghost use Rattle.image_device.specs.Counts.{CountsFaultOf};
ghost use Rattle.image_layout.specs.Header.{IsVersion};
ghost use Rattle.image_world.specs.Loaded.{DoFit};
ghost use Rattle.image_world.specs.Loading.{AnswersTables};
ghost use Rattle.tsd_model.specs.Geometry.{IsLawful};

use crate::fault::LoadFault;
use crate::tests_in_order::test_tables;
use block_alloc::LiveMap;
use cap_store::CapStore;
use image_device::Device;
use image_layout::Header;
use pointer_table::PointerTable;
use ref_counts::RefCounts;
use std::alloc::Global;

/// The tables of an image.
#[derive(Drop)]
pub struct ImageTables {
    /// The pointers, in their slots.
    pub pointers: PointerTable,

    /// How many pointers lead to each block.
    pub counts: RefCounts,

    /// Which blocks are live.
    pub live: LiveMap,

    /// What is kept of the capabilities of each primary block.
    pub caps: CapStore,
}

/// Reads the tables of a disk with this header, and tests them: slots and repeated pairs, primary blocks, ends of
/// pairs, counts. The device is only read.
///
/// Fails with `Image` exactly where a test fails, for the first one, with the least slot, pair or block that fails it;
/// with `Device` only where the device's faults rose.
pub fn load_tables<D: Device>(
    alloc: Global,
    dev: &mut D,
    header: &Header,
) -> Result<ImageTables, LoadFault>
    requires version { IsVersion header.now.version }
    requires lawful { IsLawful header.now.geometry }
    ensures fit { IfOk result (λ t. DoFit header.now t) }
    /// promise (with fit): The four tables, or the first test that fails, with its least slot, pair or block.
    ensures read { D.told → AnswersTables (D.view dev.old).reads header.now result }
    ensures rests { D.told → Rests (D.view dev.old) (D.view dev.new) }
    ensures uses { Uses 0 (D.view dev.old) (D.view dev.new) }
    ensures faults { CountsFaultOf LoadFault.Device result (D.view dev.old).faults (D.view dev.new).faults }
{
    let geometry = &header.geometry;
    let pointers = PointerTable::load(alloc, dev, geometry)?;
    let live = LiveMap::load(alloc, dev, geometry)?;
    let counts = RefCounts::load(alloc, dev, geometry)?;
    test_tables(alloc, &pointers, &live, &counts)?;
    let caps = CapStore::load(alloc, dev, header)?;
    Ok(ImageTables {
        pointers,
        counts,
        live,
        caps,
    })
}
