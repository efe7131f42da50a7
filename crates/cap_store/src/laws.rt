//! What it is for an image to have the records.

ghost use Rattle.std.specs.Prelude.{◌≡◌, ℕ, ◌≤◌, Bool, List, length};
ghost use Rattle.std.specs.Prelude.{map};
ghost use Rattle.std.specs.List.{range_with_len};
ghost use Rattle.tsd_model.specs.declared.records.Record.{Record};
ghost use Rattle.image_device.specs.Agreeing.{AgreeWithin, AgreeWithinBut};
ghost use Rattle.image_layout.specs.Areas.{caps_start, counts_start};
ghost use Rattle.image_layout.specs.Header.{IsVersion};
ghost use Rattle.image_layout.specs.Image.{Image};
ghost use Rattle.cap_store.specs.Store.{AreRecords};
ghost use Rattle.cap_store.specs.Stored.{stored_record, AreWritten, IsStored, IsStoredBut};

/// An image has the records of one store alone, and the two sectors of records decide which.
pub fn sectors_have_one_store()
    /// promise (with same_sectors): An image has the records of one store alone, and the two sectors of records alone
    /// decide which.
    ensures one_store { (version : ℕ) (records : List Record) (x : Image) → IsStored version records x
        → records ≡ map (stored_record version x) (range_with_len 0 (length records)) }
    ensures same_sectors { (version : ℕ) (records : List Record) (x y : Image) → IsVersion version
        → length records ≤ 16 → AgreeWithin caps_start counts_start x y
        → IsStored version records x → IsStored version records y }
    ensures same_sectors_but { (some : ℕ → Bool) (version : ℕ) (records : List Record) (x y : Image)
        → IsVersion version → length records ≤ 16 → AgreeWithinBut some caps_start counts_start x y
        → IsStoredBut some version records x → IsStoredBut some version records y }
{}

/// An image has the records of a store where the sectors of records stand as they are written.
pub fn written_sectors_have_the_store()
    /// promise: An image whose sectors stand as a store writes them has that store.
    ensures written { (version : ℕ) (records : List Record) (x : Image) → IsVersion version
        → length records ≤ 16 → AreRecords version records
        → AreWritten version records x → IsStored version records x }
{}
