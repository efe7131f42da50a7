//! Steps of reclamation.

ghost use Rattle.graph_laws.specs.Reclaiming.{StepSettles, StepLowers, LostAfterStep, LostAfterDelete};

/// A step at a lost block keeps what the world settles to, since all that it takes is doomed; it leaves just so much
/// less that is. Which blocks are lost afterwards is known from the step alone.
pub fn steps_settle()
    /// promise: **A step may be taken at any time.** Taking pairs from a lost block, and freeing it once it has none,
    /// leaves what the world settles to.
    ensures settles { StepSettles }
    /// promise: Just as much less is doomed after the step as it takes.
    ensures lowers { StepLowers }
    /// promise (with deleted): Lost after a step are those that were, without a freed one, and targets with no pair
    /// left.
    ensures lost { LostAfterStep }
    ensures deleted { LostAfterDelete }
{}
