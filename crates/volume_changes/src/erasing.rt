//! Zeros in the bodies of the journal.

ghost use Rattle.std.specs.Prelude.{◌≡◌, ℕ, ◌+◌, ◌≤◌, false, OnOk};
ghost use Rattle.image_device.specs.Calls.{Uses};
ghost use Rattle.image_device.specs.Counts.{CountsFault};
ghost use Rattle.image_device.specs.Image.{zeros};
ghost use Rattle.image_device.specs.Runs.{IsConfined};
ghost use Rattle.image_layout.specs.Ring.{bodies};
ghost use Rattle.volume_laws.specs.Erased.{is_body};

use image_device::{Device, Failed};
use image_layout::ring::{BODIES, body_sector};
use image_layout::sectors::SECTOR_BYTES;

/// Writes zeros to each body of the journal.
#[tactic(auto, using(image_device::proofs::Confined::confined_calls))]
fn write_zeros<D: Device>(dev: &mut D) -> Result<(), Failed>
    ensures erased { D.told → OnOk result ((n : ℕ) → 4 ≤ n → n ≤ 116 → (D.view dev.new).reads n ≡ zeros) }
    ensures confined { D.told → IsConfined is_body (D.view dev.old) (D.view dev.new) }
    ensures uses { Uses bodies (D.view dev.old) (D.view dev.new) }
    ensures faults { CountsFault result (D.view dev.old).faults (D.view dev.new).faults }
{
    for body in 0..BODIES {
        dev.write(body_sector(body), &[0; SECTOR_BYTES])?;
    }
    Ok(())
}

/// Writes zeros to each body of the journal, and waits until they are on the disk.
#[tactic(auto, using(image_device::proofs::Confined::confined_calls))]
pub fn erase_bodies<D: Device>(dev: &mut D) -> Result<(), Failed>
    ensures erased { D.told → OnOk result ((n : ℕ) → 4 ≤ n → n ≤ 116 → (D.view dev.new).reads n ≡ zeros) }
    ensures firm { D.told → OnOk result ((n : ℕ) → (D.view dev.new).loose n ≡ false) }
    ensures confined { D.told → IsConfined is_body (D.view dev.old) (D.view dev.new) }
    ensures uses { Uses bodies (D.view dev.old) (D.view dev.new) }
    ensures faults { CountsFault result (D.view dev.old).faults (D.view dev.new).faults }
{
    write_zeros(dev)?;
    dev.sync()
}
