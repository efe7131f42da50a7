//! That a changed map and patched sectors say the same.

ghost use Rattle.std.specs.Prelude.{◌≡◌, ℕ, Bool, List, length, map};
ghost use Rattle.std.specs.Prelude.{slice_set};
ghost use Rattle.std.specs.List.{range_with_len};
ghost use Rattle.image_device.specs.Agreeing.{AgreeWithin};
ghost use Rattle.image_device.specs.Image.{Image};
ghost use Rattle.image_layout.specs.Areas.{bitmap_start, slots_start};
ghost use Rattle.image_layout.specs.Image.{is_bit_set};
ghost use Rattle.tsd_model.specs.declared.geometry.Geometry.{Geometry};
ghost use Rattle.block_alloc.specs.Stored.{IsStored, ArePatched, patched};

/// Where an image's bitmap says what a map says, it does so again after a change with its patch: after one block's, and
/// after many blocks' in many sectors, of which each has the bytes that the map gives it in the end.
pub fn patches_keep_the_bitmap()
    /// promise (with many): An image that had a map has the changed one with its patch, after a change of one block's
    /// bit and of many in many sectors.
    ensures one { (live : List Bool) (g : Geometry) (x : Image) (b : ℕ) (bit : Bool) → IsStored live g x
        → IsStored (slice_set live b bit) g (patched (slice_set live b bit) g b x) }

    ensures many { (live now : List Bool) (g : Geometry) (x y : Image) → IsStored live g x
        → ArePatched live now g x y → IsStored now g y }

    // An image has the bits of one map alone, and the bitmap's sectors decide which.
    /// promise (with same_sectors): An image has the bits of one map alone, and the sectors of the bitmap alone decide
    /// which.
    ensures one_map { (live : List Bool) (g : Geometry) (x : Image) → length live ≡ g.blocks → IsStored live g x
        → live ≡ map (is_bit_set x g) (range_with_len 0 g.blocks) }
    ensures same_sectors { (live : List Bool) (g : Geometry) (x y : Image)
        → AgreeWithin (bitmap_start g) (slots_start g) x y → IsStored live g x → IsStored live g y }
{}
