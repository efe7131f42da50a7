//! What a raw world settles to.

ghost use Rattle.graph_laws.specs.Settling.{SettlesToValid, SettlesOnce, NothingDoomed, SomeLost, SettledSizes};

/// A raw world settles to a valid one, which is settled. Nothing is doomed exactly where no block is lost, and there
/// the world is settled already.
pub fn raw_worlds_settle()
    /// promise: A raw world settles to a valid one.
    ensures valid { SettlesToValid }
    /// promise: Settling what is settled changes nothing.
    ensures once { SettlesOnce }
    /// promise: Nothing is doomed exactly where each live block but a primary is led to.
    ensures none { NothingDoomed }
    /// promise: Where something is doomed, some block is *lost*: live, not primary, and nothing leads to it.
    ensures lost { SomeLost }
    /// promise: Settling frees as many blocks, and takes as many pairs, as are doomed.
    ensures sizes { SettledSizes }
{}
