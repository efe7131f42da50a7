//! The counts as the sectors have them.

ghost use Rattle.std.specs.Prelude.{◌≡◌, ℕ, ◌+◌, ◌*◌, ◌<◌, ◌≤◌, length, slice_index, OnOk};
ghost use Rattle.byteorder.specs.Endian.{little_from};
ghost use Rattle.image_device.specs.Calls.{Rests, Uses};
ghost use Rattle.image_device.specs.Counts.{CountsFault};
ghost use Rattle.ref_counts.specs.Loading.{FrontIsRead};

use crate::sector::{PER_SECTOR, take_counts};
use image_device::{Device, Failed};
use image_layout::sectors::{COUNTS_START, SECTOR_BYTES};

/// Sets the counts of one sector, of which the first stands at this position.
fn set_counts(bytes: &[u8; SECTOR_BYTES], first: usize, counts: &mut [u32])
    requires { first < length counts.old }
    ensures here { (k : ℕ) → k < 128 → first + k < length counts.old → slice_index counts.new (first + k)
        ≡ little_from (4 * k) 4 bytes.now }
    ensures before { (block : ℕ) → block < first → slice_index counts.new block ≡ slice_index counts.old block }
{
    let end = counts.len().min(first + PER_SECTOR);
    take_counts(bytes, &mut counts[first..end]);
}

/// Reads each count. Each sector is read once (tested).
#[tactic(auto, using(image_device::proofs::Resting::rests_calls))]
pub(crate) fn read_counts<D: Device>(dev: &mut D, counts: &mut [u32]) -> Result<(), Failed>
    requires { length counts.old ≤ 1048576 }
    ensures read { D.told → OnOk result (FrontIsRead (length counts.old) counts.new (D.view dev.old).reads) }
    ensures rests { D.told → Rests (D.view dev.old) (D.view dev.new) }
    ensures uses { Uses 0 (D.view dev.old) (D.view dev.new) }
    ensures faults { CountsFault result (D.view dev.old).faults (D.view dev.new).faults }
{
    let mut bytes = [0; SECTOR_BYTES];
    for part in 0..counts.len().div_ceil(PER_SECTOR) {
        dev.read(COUNTS_START + part as u32, &mut bytes)?;
        set_counts(&bytes, PER_SECTOR * part, counts);
    }
    Ok(())
}
