//! What requests cost.

ghost use Rattle.tsd_core.specs.Costs.{MadeIsWhatGoes, MakesNoMoreThanGoes, CostsByPairs};

/// What a deletion makes are the blocks that it reclaims and the pairs that it removes, and no request makes more than
/// these. Each reclaimed block lost a pair that led to it, so that a request costs at most 460 writes and 12 for each
/// pair that it removes.
pub fn a_request_costs_by_the_pairs_that_it_removes()
    /// promise (with makes): What a deletion makes are the blocks that it reclaims and the pairs that it removes; no
    /// request makes more.
    ensures made { MadeIsWhatGoes }
    ensures makes { MakesNoMoreThanGoes }
    /// promise: Each block that a deletion reclaims lost a pair that led to it; so a request costs at most 460 writes
    /// and 12 for each pair that it removes.
    ensures costs { CostsByPairs }
{}
