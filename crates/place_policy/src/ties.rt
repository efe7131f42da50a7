//! That no two blocks have one rank.

ghost use Rattle.std.specs.Prelude.{ℕ, ◌^◌, ◌<◌};
ghost use Rattle.place_policy.specs.Ranks.{HasNoTies};
ghost use Rattle.tsd_model.specs.declared.requests.PlaceKind.{PlaceKind};

/// For every kind and hint, no two blocks have one rank. So there is one choice of least rank.
pub fn ranks_have_no_ties()
    /// promise: No two blocks below 2^32 have one rank, for any kind and hint.
    ensures { (kind : PlaceKind) (hint : ℕ) → hint < 2 ^ 32 → HasNoTies kind hint }
{}
