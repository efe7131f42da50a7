// Writes that are on the disk once the call returns.
ghost use Rattle.std.specs.Prelude.{◌≡◌, ◌<◌, ◌+◌, ◌^◌, ◌==◌, ◌&&◌};
ghost use Rattle.std.specs.Prelude.{OnOk};
ghost use Rattle.image_device.specs.Counts.{CountsFault};
ghost use Rattle.image_device.specs.Calls.{Uses};
ghost use Rattle.image_device.specs.Runs.{IsConfined, IsFirm};

use crate::{Device, Failed};

/// Writes a sector and waits until it is on the disk. At any moment within, a crash leaves any
/// bytes in this sector and in those that were loose, and every other as it was.
pub fn write_through<D: Device>(dev: &mut D, sector: u32, from: &[u8; 512]) -> Result<(), Failed>
    /// promise (with firm): After Ok the sector reads as these bytes, and nothing is loose.
    ensures written { D.told → OnOk result ((D.view dev.new).reads sector ≡ from.now) }
    ensures firm { D.told → OnOk result (IsFirm (D.view dev.new)) }
    /// promise: A crash at any moment leaves every sector but this one, and those that were loose, as it was.
    ensures confined { D.told → IsConfined (λ n. n == sector) (D.view dev.old) (D.view dev.new) }
    ensures uses { Uses 1 (D.view dev.old) (D.view dev.new) }
    ensures faults { CountsFault result (D.view dev.old).faults (D.view dev.new).faults }
{
    dev.write(sector, from)?;
    dev.sync()
}
