//! That what a map chooses is free.

ghost use Rattle.std.specs.Prelude.{◌≡◌, ◌≤◌, ◌+◌, ℕ, Bool, List, Some, IsTrue, length, slice_get};
ghost use Rattle.tsd_model.specs.declared.requests.PlaceKind.{PlaceKind};
ghost use Rattle.block_alloc.specs.LiveMap.{is_free};
ghost use Rattle.block_alloc.specs.Choosing.{chosen, is_free_run, chosen_run};

/// What is chosen is free, and no block comes twice. A chosen run is free from its first block to its last, and ends
/// within the disk.
pub fn choices_are_free()
    /// promise (with apart): What is chosen is free, and no block comes twice.
    ensures free { (kind : PlaceKind) (live : List Bool) (hint count i b : ℕ)
        → slice_get (chosen kind live hint count) i ≡ Some b → IsTrue (is_free live b) }
    ensures apart { (kind : PlaceKind) (live : List Bool) (hint count i j b : ℕ)
        → let blocks = chosen kind live hint count in
        slice_get blocks i ≡ Some b → slice_get blocks j ≡ Some b → i ≡ j }
    /// promise (with inside): A chosen run is free from its first block to its last, all of them on the disk.
    ensures run { (kind : PlaceKind) (live : List Bool) (hint count first : ℕ) → chosen_run kind live hint count
        ≡ Some first → IsTrue (is_free_run live count first) }
    ensures inside { (live : List Bool) (count first : ℕ) → 1 ≤ count → IsTrue (is_free_run live count first)
        → first + count ≤ length live }
{}
