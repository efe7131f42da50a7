//! The slots of a fresh disk, which are all empty.

ghost use Rattle.std.specs.Prelude.{◌≡◌, ℕ, []};
ghost use Rattle.image_device.specs.Image.{Image, zeros};
ghost use Rattle.pointer_table.specs.Fresh.{fresh_slots};
ghost use Rattle.pointer_table.specs.Sectors.{slot_sector_bytes, AreWritten, IsStored};
ghost use Rattle.pointer_table.specs.Table.{Table, pairs, IsTable};
ghost use Rattle.tsd_model.specs.Geometry.{IsLawful};
ghost use Rattle.tsd_model.specs.declared.geometry.Geometry.{Geometry};

use image_layout::sectors::SECTOR_BYTES;

/// The 512 bytes of a sector of slots of a fresh disk: zeros, whatever its number and the size of the disk are.
pub fn fresh_sector() -> [u8; SECTOR_BYTES]
    ensures value { (g : Geometry) (part : ℕ) → result ≡ slot_sector_bytes (fresh_slots g) part }
    /// promise: The sector of a fresh disk: zeros.
    ensures zeros { result ≡ zeros }
{
    [0; SECTOR_BYTES]
}

/// An image whose sectors of slots are written as those of a table has the slots of that table. The slots of a fresh
/// disk are a table that holds no pair, and their sectors are zeros.
pub fn written_sectors_have_the_slots()
    /// promise: An image whose sectors stand as a table writes them has that table.
    ensures stored { (t : Table) (x : Image) → IsTable t → AreWritten t.slots t.geometry x
        → IsStored t.slots t.geometry x }
    ensures fresh { (g : Geometry) → IsLawful g → IsTable (record { geometry = g; slots = fresh_slots g }) }
    ensures no_pairs { (g : Geometry) → pairs (record { geometry = g; slots = fresh_slots g }) ≡ [] }
    ensures zeros { (g : Geometry) (part : ℕ) → slot_sector_bytes (fresh_slots g) part ≡ zeros }
{}
