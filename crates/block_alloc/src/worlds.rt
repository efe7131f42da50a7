//! That what a map chooses is what its world would have chosen.

ghost use Rattle.std.specs.Prelude.{◌≡◌, ℕ, Bool, List};
ghost use Rattle.tsd_model.specs.Placing.{hint_block};
ghost use Rattle.tsd_model.specs.Placing.{free_blocks as free_blocks_of, chosen as chosen_of, runs as runs_of};
ghost use Rattle.tsd_model.specs.Placing.{chosen_run as chosen_run_of};
ghost use Rattle.tsd_model.specs.World.{World};
ghost use Rattle.tsd_model.specs.World.{free_count as free_count_of};
ghost use Rattle.tsd_model.specs.declared.requests.Hint.{Hint};
ghost use Rattle.tsd_model.specs.declared.requests.PlaceKind.{PlaceKind};
ghost use Rattle.block_alloc.specs.LiveMap.{free_count};
ghost use Rattle.block_alloc.specs.Choosing.{free_blocks, chosen, runs, chosen_run};
ghost use Rattle.block_alloc.specs.Worlds.{IsMapOf};

/// A map that has the live blocks of a world has its free blocks and its runs, and chooses as the world does.
pub fn choices_are_the_worlds()
    /// promise (with free, blocks, runs, run): What a map chooses are the choices, the runs and the free count of any
    /// world with the same live blocks.
    ensures count { (live : List Bool) (w : World) → IsMapOf live w → free_count live ≡ free_count_of w }
    ensures free { (live : List Bool) (w : World) → IsMapOf live w → free_blocks live ≡ free_blocks_of w }
    ensures blocks { (live : List Bool) (w : World) → IsMapOf live w
        → (kind : PlaceKind) (hint : Hint) (count : ℕ) → chosen kind live (hint_block hint) count
        ≡ chosen_of kind w hint count }
    ensures runs { (live : List Bool) (w : World) → IsMapOf live w → (count : ℕ)
        → runs live count ≡ runs_of w count }
    ensures run { (live : List Bool) (w : World) → IsMapOf live w → (kind : PlaceKind) (hint : Hint) (count : ℕ)
        → chosen_run kind live (hint_block hint) count ≡ chosen_run_of kind w hint count }
{}
