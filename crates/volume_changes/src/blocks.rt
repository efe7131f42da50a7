//! The sectors of a block.

ghost use Rattle.std.specs.Prelude.{◌≡◌, ℕ, ◌+◌, ◌*◌, ◌<◌, ◌≤◌, [], length, slice_index};
ghost use Rattle.image_device.specs.Image.{Image};
ghost use Rattle.tsd_model.specs.Geometry.{block_len};
ghost use Rattle.tsd_model.specs.Step.{filled};
ghost use Rattle.intent_journal.specs.Home.{overlaid};
ghost use Rattle.image_world.specs.Written.{IsWritten};

use image_layout::Layout;
use image_layout::sectors::SECTOR_BYTES;
use intent_journal::Batch;

/// The bytes of a sector of a block that has these bytes, and zeros behind them.
fn part_of(bytes: &[u8], part: usize) -> [u8; SECTOR_BYTES]
    requires { part < 8 }
    ensures bytes { (i : ℕ) → i < SECTOR_BYTES → slice_index result i ≡ slice_index bytes.now (512 * part + i) }
    ensures size { length result ≡ SECTOR_BYTES }
{
    let first = bytes.len().min(SECTOR_BYTES * part);
    let rest = &bytes[first..];
    let len = rest.len().min(SECTOR_BYTES);
    let mut sector = [0; SECTOR_BYTES];
    sector[..len].copy_from_slice(&rest[..len]);
    sector
}

/// Puts the sectors of a block with these bytes, and zeros behind them, into an empty batch.
pub fn put_block(batch: &mut Batch, layout: &Layout, block: u32, bytes: &[u8])
    requires none { batch.old ≡ [] }
    requires inside { block < layout.now.geometry.blocks }
    requires size { length bytes.now ≤ block_len layout.now.geometry }
    ensures homes { length batch.new ≤ layout.now.geometry.sectors }
    ensures written { (x : Image) → IsWritten layout.now.geometry block (filled (block_len layout.now.geometry)
        bytes.now) x (overlaid batch.new x) }
{
    for part in 0..layout.geometry.sectors {
        let sector = part_of(bytes, part as usize);
        let _ = batch.put(layout.data_sector(block, part), &sector);
    }
}
