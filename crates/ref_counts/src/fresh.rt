//! The sectors of counts of a fresh disk, on which no pointer leads to any block.

ghost use Rattle.std.specs.Prelude.{◌≡◌, ℕ};
ghost use Rattle.tsd_model.specs.declared.geometry.Geometry.{Geometry};
ghost use Rattle.image_device.specs.Image.{zeros};
ghost use Rattle.ref_counts.specs.Fresh.{fresh_counts};
ghost use Rattle.ref_counts.specs.Stored.{counts_sector_bytes};

use image_layout::sectors::SECTOR_BYTES;

/// The 512 bytes of a sector of counts of a fresh disk: zeros, whatever its number and the size of the disk are.
pub fn fresh_sector() -> [u8; SECTOR_BYTES]
    ensures value { (g : Geometry) (part : ℕ) → result ≡ counts_sector_bytes (fresh_counts g) part }
    /// promise: The sector of a fresh disk: zeros.
    ensures zeros { result ≡ zeros }
{
    [0; SECTOR_BYTES]
}
