//! Zeros in blocks that aren't live.

ghost use Rattle.std.specs.Prelude.{◌≡◌, ℕ, ◌+◌, ◌*◌, ◌<◌, ◌≤◌, true, false, length, OnOk};
ghost use Rattle.tsd_model.specs.World.{has_number};
ghost use Rattle.image_device.specs.Calls.{Uses};
ghost use Rattle.image_device.specs.Counts.{CountsFault};
ghost use Rattle.image_device.specs.Image.{zeros};
ghost use Rattle.image_device.specs.Runs.{IsConfined};
ghost use Rattle.image_layout.specs.Offsets.{data_sector};
ghost use Rattle.intent_journal.specs.Batch.{has_home};
ghost use Rattle.intent_journal.specs.Records.{patches_of};
ghost use Rattle.volume_laws.specs.Zeroed.{is_part, is_data, AreMissed};

use image_device::{Device, Failed};
use image_layout::Layout;
use image_layout::sectors::SECTOR_BYTES;
use intent_journal::Ring;

/// Whether the journal holds a data sector of a block.
fn holds_block(ring: &Ring, layout: &Layout, block: u32) -> bool
    requires inside { block < layout.now.geometry.blocks }
    ensures missed { result ≡ false → (part : ℕ) → part < layout.now.geometry.sectors
        → has_home (patches_of ring.now) (data_sector layout.now.geometry block part) ≡ false }
    ensures held { result ≡ true → ¬ ((part : ℕ) → part < layout.now.geometry.sectors
        → has_home (patches_of ring.now) (data_sector layout.now.geometry block part) ≡ false) }
{
    let mut is_held = false;
    for part in 0..layout.geometry.sectors {
        is_held = is_held || ring.holds(layout.data_sector(block, part));
    }
    is_held
}

/// Whether the journal holds a data sector of one of these blocks.
pub fn holds_data(ring: &Ring, layout: &Layout, blocks: &[u32]) -> bool
    requires inside { (b : ℕ) → has_number blocks.now b ≡ true → b < layout.now.geometry.blocks }
    ensures missed { result ≡ false → AreMissed layout.now.geometry (patches_of ring.now) blocks.now }
    ensures held { result ≡ true → ¬ AreMissed layout.now.geometry (patches_of ring.now) blocks.now }
{
    let mut is_held = false;
    for index in 0..blocks.len() {
        is_held = is_held || holds_block(ring, layout, blocks[index]);
    }
    is_held
}

/// Writes zeros to the data sectors of a block.
#[tactic(auto, using(image_device::proofs::Confined::confined_calls))]
fn zero_block<D: Device>(dev: &mut D, layout: &Layout, block: u32) -> Result<(), Failed>
    requires inside { block < layout.now.geometry.blocks }
    ensures zeroed { D.told → OnOk result ((part : ℕ) → part < layout.now.geometry.sectors
        → (D.view dev.new).reads (data_sector layout.now.geometry block part) ≡ zeros) }
    ensures confined { D.told → IsConfined (is_part layout.now.geometry block) (D.view dev.old) (D.view dev.new) }
    ensures uses { Uses layout.now.geometry.sectors (D.view dev.old) (D.view dev.new) }
    ensures faults { CountsFault result (D.view dev.old).faults (D.view dev.new).faults }
{
    for part in 0..layout.geometry.sectors {
        dev.write(layout.data_sector(block, part), &[0; SECTOR_BYTES])?;
    }
    Ok(())
}

/// Writes zeros to the data sectors of these blocks.
pub fn zero_blocks<D: Device>(dev: &mut D, layout: &Layout, blocks: &[u32]) -> Result<(), Failed>
    requires inside { (b : ℕ) → has_number blocks.now b ≡ true → b < layout.now.geometry.blocks }
    ensures zeroed { D.told → OnOk result ((b part : ℕ) → has_number blocks.now b ≡ true
        → part < layout.now.geometry.sectors → (D.view dev.new).reads (data_sector layout.now.geometry b part)
        ≡ zeros) }
    ensures confined { D.told → IsConfined (is_data layout.now.geometry blocks.now) (D.view dev.old) (D.view dev.new) }
    ensures uses { Uses (layout.now.geometry.sectors * length blocks.now) (D.view dev.old) (D.view dev.new) }
    ensures faults { CountsFault result (D.view dev.old).faults (D.view dev.new).faults }
{
    for index in 0..blocks.len() {
        zero_block(dev, layout, blocks[index])?;
    }
    Ok(())
}
