//! The bitmap's sectors on a device.

ghost use Rattle.std.specs.Prelude.{◌≡◌, ℕ, ◌*◌, ◌+◌, ◌/◌, ◌%◌, ◌^◌, ◌<◌, length};
ghost use Rattle.std.specs.Prelude.{slice_index, IfOk};
ghost use Rattle.image_device.specs.Calls.{Rests, Uses};
ghost use Rattle.image_device.specs.Counts.{CountsFaultOf};

use crate::fault::LoadFault;
use image_device::Device;
use image_layout::sectors::SECTOR_BYTES;
use std::alloc::Global;

/// The bytes of so many sectors in a row.
pub fn read_sectors<D: Device>(
    alloc: Global,
    dev: &mut D,
    first: u32,
    count: u32,
) -> Result<Vec<u8>, LoadFault>
    requires { first + count < 2 ^ 32 }
    ensures whole { IfOk result (λ bytes. length bytes.items ≡ 512 * count) }
    ensures read { D.told → IfOk result (λ bytes. (i : ℕ) → i < 512 * count → slice_index bytes.items i
        ≡ slice_index ((D.view dev.old).reads (first + i / 512)) (i % 512)) }
    ensures rests { D.told → Rests (D.view dev.old) (D.view dev.new) }
    ensures uses { Uses 0 (D.view dev.old) (D.view dev.new) }
    ensures faults { CountsFaultOf LoadFault.Device result (D.view dev.old).faults (D.view dev.new).faults }
{
    let mut bytes = Vec::with_capacity(alloc, SECTOR_BYTES * count as usize)?;
    let mut sector = [0; SECTOR_BYTES];
    for index in 0..count {
        dev.read(first + index, &mut sector)?;
        bytes.extend_from_slice(&sector)?;
    }
    Ok(bytes)
}
