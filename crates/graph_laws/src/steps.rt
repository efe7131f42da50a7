//! What a step takes, of reclamation or of a sweep.

ghost use Rattle.graph_laws.specs.Steps.{StepStaysRaw, StepTakes};

/// A step at a block that isn't primary leaves a raw world: a block is freed only once no pair needs it. At a live
/// block it takes its pairs and, if it frees it, the block, and nothing else.
pub fn steps_stay_raw()
    /// promise: A step at a block that isn't primary leaves a raw world, since a block is freed only once no pair needs
    /// it.
    ensures raw { StepStaysRaw }
    ensures takes { StepTakes }
{}
