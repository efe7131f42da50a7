//! What follows of the definitions, whatever a table does.

ghost use Rattle.std.specs.Prelude.{◌≡◌, ℕ, List, map, Option, Result};
ghost use Rattle.std.specs.List.{range_with_len};
ghost use Rattle.image_device.specs.Agreeing.{AgreeWithin};
ghost use Rattle.image_layout.specs.Areas.{slots_start, data_start};
ghost use Rattle.pointer_table.specs.Loading.{WasDecided, AnswersPointers};
ghost use Rattle.pointer_table.specs.Sectors.{stored_slot, ArePatched, IsStored};
ghost use Rattle.pointer_table.specs.Table.{Table, IsTable};
ghost use Rattle.pointer_table.specs.declared.fault.TableFault.{TableFault};
ghost use Rattle.tsd_model.specs.declared.geometry.Geometry.{Geometry};

/// The slots of an image have one answer, where neither memory nor the device is at fault.
pub fn loadings_are_one()
    /// promise: No two answers of a loading go together, where neither memory nor the device is at fault.
    ensures { (image : ℕ → List ℕ) (g : Geometry) (one other : Result Table TableFault)
        → WasDecided one → WasDecided other
        → AnswersPointers image g one → AnswersPointers image g other → one ≡ other }
{}

/// An image keeps its slots where only other sectors change.
pub fn slots_stay_elsewhere()
    /// promise: A write outside the sectors of slots keeps the table.
    ensures { (slots : List (Option (ℕ × ℕ))) (g : Geometry) (x y : ℕ → List ℕ)
        → AgreeWithin (slots_start g) (data_start g) x y → IsStored slots g x → IsStored slots g y }
{}

/// An image has the slots of one table alone, which are those that it says.
pub fn sectors_have_one_table()
    /// promise: An image has the slots of one table alone.
    ensures one_table { (slots : List (Option (ℕ × ℕ))) (g : Geometry) (x : ℕ → List ℕ)
        → IsStored slots g x → slots ≡ map (stored_slot x g) (range_with_len 0 g.slots) }
{}

/// Where an image has the slots of a table, it has those of a changed one after a change of many slots in many sectors.
pub fn patches_keep_the_slots()
    /// promise: An image that had a table has the changed one after a change of many slots in many sectors.
    ensures many { (slots now : List (Option (ℕ × ℕ))) (g : Geometry) (x y : ℕ → List ℕ)
        → IsTable (record { geometry = g; slots = now }) → IsStored slots g x
        → ArePatched slots now g x y → IsStored now g y }
{}
