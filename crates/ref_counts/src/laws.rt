//! What it is for an image to have the counts.

ghost use Rattle.std.specs.Prelude.{◌≡◌, ℕ, ◌^◌, ◌<◌, ◌≤◌, Bool, List, length};
ghost use Rattle.std.specs.Prelude.{map, slice_index};
ghost use Rattle.std.specs.List.{range_with_len};
ghost use Rattle.tsd_model.specs.declared.geometry.Geometry.{Geometry};
ghost use Rattle.image_device.specs.Agreeing.{AgreeWithin, AgreeWithinBut};
ghost use Rattle.image_device.specs.Image.{zeros};
ghost use Rattle.image_layout.specs.Areas.{bitmap_start, counts_start};
ghost use Rattle.image_layout.specs.Image.{Image, stored_count};
ghost use Rattle.ref_counts.specs.Fresh.{fresh_counts};
ghost use Rattle.ref_counts.specs.Stored.{AreWritten, IsStored, IsStoredBut};

/// An image has the counts of one table alone, and the sectors of counts decide which.
pub fn sectors_have_one_table()
    /// promise: An image has the counts of one table alone.
    ensures one_table { (counts : List ℕ) (g : Geometry) (x : Image) → length counts ≡ g.blocks
        → IsStored counts g x → counts ≡ map (stored_count x g) (range_with_len 0 g.blocks) }
    /// promise: The sectors of counts alone decide which.
    ensures same_sectors { (counts : List ℕ) (g : Geometry) (x y : Image)
        → AgreeWithin counts_start (bitmap_start g) x y → IsStored counts g x → IsStored counts g y }
    ensures same_sectors_but { (some : ℕ → Bool) (counts : List ℕ) (g : Geometry) (x y : Image)
        → AgreeWithinBut some counts_start (bitmap_start g) x y
        → IsStoredBut some counts g x → IsStoredBut some counts g y }
{}

/// An image has the counts of a table where the sectors of counts stand as they are written, and none but 0 where they
/// are zeros.
pub fn written_sectors_have_the_table()
    /// promise: An image whose sectors stand as a table writes them has that table.
    ensures written { (counts : List ℕ) (g : Geometry) (x : Image) → length counts ≡ g.blocks
        → ((block : ℕ) → slice_index counts block < 2 ^ 32) → AreWritten counts g x → IsStored counts g x }
    ensures fresh { (g : Geometry) (x : Image) → ((n : ℕ) → counts_start ≤ n → n < bitmap_start g
        → x n ≡ zeros) → IsStored (fresh_counts g) g x }
{}
