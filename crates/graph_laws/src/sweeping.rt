//! Steps of a sweep.

ghost use Rattle.graph_laws.specs.Sweeping.{ReachIsLeast, StepSweeps, SweepGoesOn, SweptWhole, SweepsToValid};
ghost use Rattle.graph_laws.specs.Sweeping.{SettledSweeps};

/// The reached blocks are the least set that has the primary ones and follows the pairs. A step at an unreached block
/// keeps them and the world on them, since no pair that it takes leads on from a reached one.
pub fn steps_sweep()
    /// promise: The reached blocks are the least set that has the primary ones and follows the pairs.
    ensures least { ReachIsLeast }
    /// promise: **A sweep's step keeps what the world sweeps to**: it takes pairs from a block that isn't reached, or
    /// frees one that is alone.
    ensures step { StepSweeps }
    /// promise (with whole): While a live block isn't reached such a step is left; where each is reached, sweeping
    /// changes nothing.
    ensures goes_on { SweepGoesOn }
    ensures whole { SweptWhole }
    /// promise (with settled): A raw world sweeps to a valid one, and what it settles to sweeps to the same.
    ensures valid { SweepsToValid }
    ensures settled { SettledSweeps }
{}
