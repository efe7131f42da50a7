//! Which blocks are doomed.

ghost use Rattle.graph_laws.specs.Dooming.{DoomedIsLeast, StaysByPairs, RingsStay};

/// The doomed blocks are the least set that takes in each live block, not primary, to which only blocks of the set
/// lead. So a live block stays exactly where it is primary or one that stays leads to it, and a ring of pairs stays.
pub fn doom_is_by_pairs()
    /// promise: The doomed blocks are the least set that has each live block, not primary, to which only blocks of the
    /// set lead.
    ensures least { DoomedIsLeast }
    /// promise: A live block stays exactly where it is primary or one that stays leads to it.
    ensures stays { StaysByPairs }
    /// promise: Blocks on a ring of pointers stay, also where a doomed block leads to it.
    ensures rings { RingsStay }
{}
