//! Formatting.

ghost use Rattle.std.specs.Prelude.{◌≡◌, ◌-◌, length, OnOk};
ghost use Rattle.tsd_model.specs.Geometry.{IsLawful};
ghost use Rattle.tsd_model.specs.Run.{fresh_world};
ghost use Rattle.image_device.specs.Calls.{Uses};
ghost use Rattle.image_device.specs.Counts.{CountsFault};
ghost use Rattle.image_device.specs.Runs.{IsConfined, IsFirm, LeavesOnly};
ghost use Rattle.image_world.specs.Stands.{Stands};
ghost use Rattle.volume_laws.specs.Quiet.{IsQuiet};
ghost use Rattle.recovery.specs.Areas.{fresh_end, is_fresh};
ghost use Rattle.recovery.specs.Formatting.{IsFormatting};

use crate::areas::write_areas;
use image_device::{Device, Failed, write_through};
use image_layout::gate::gate_bytes;
use image_layout::sectors::FORMAT_GATE;
use tsd_model::{CapList, Geometry};

/// Formats a disk of this size, with these capabilities of its primary blocks. Nothing is left to be done on it: all
/// gates of the journal are closed, no sweep is open, and nothing is doomed. `Failed` comes only where the device's
/// count of faults rose. It takes no memory.
pub fn format<D: Device>(dev: &mut D, geometry: &Geometry, caps: &CapList) -> Result<(), Failed>
    requires lawful { IsLawful geometry.now }
    requires each { length caps.now ≡ geometry.now.primaries }
    /// promise (with quiet, firm): After Ok it stands for the fresh world, nothing is left to be done on it, and
    /// nothing is loose.
    ensures done { D.told → OnOk result (Stands (D.view dev.new).reads (fresh_world geometry.now caps.now)) }
    ensures quiet { D.told → OnOk result (IsQuiet (D.view dev.new).reads) }
    ensures firm { D.told → OnOk result (IsFirm (D.view dev.new)) }
    ensures sent { D.told → (D.view dev.new).sent ≡ (D.view dev.old).sent }

    // A crash leaves what one at the start would, the format gate aside, or a closed gate, or the new world.
    /// promise: Every image left within is one that a crash at the start would leave (the format gate's sector aside),
    /// or has a closed format gate, or stands for the fresh world.
    ensures any_moment { D.told → LeavesOnly (D.view dev.old) (D.view dev.new)
        (λ x f. IsFormatting (D.view dev.old) (fresh_world geometry.now caps.now) x f × (f ≡ (D.view dev.old).sent)) }

    // Nothing behind the data of the primary blocks is written: no data of a free block, and nothing behind the image.
    /// promise: Nothing is written after the data of the primary blocks: no data of a free block, and nothing after the
    /// image.
    ensures inside { D.told → IsConfined (is_fresh geometry.now) (D.view dev.old) (D.view dev.new) }

    /// promise: At most so many writes as the size says.
    ensures uses { Uses (fresh_end geometry.now - 120) (D.view dev.old) (D.view dev.new) }
    ensures faults { CountsFault result (D.view dev.old).faults (D.view dev.new).faults }
{
    // An image whose format gate is closed stands for no world.
    write_through(dev, FORMAT_GATE, &gate_bytes(false))?;
    write_areas(dev, geometry, caps)?;
    write_through(dev, FORMAT_GATE, &gate_bytes(true))
}
