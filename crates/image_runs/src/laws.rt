//! Runs by the rules of the disk.

ghost use Rattle.image_runs.specs.Laws.{RunsAreTheDisks, RunsCostByPairs, RunsWriteByPairs};

/// A run by the rules of the disk is one of the abstract disk.
pub fn runs_are_the_disks()
    /// promise: A run by the rules of the disk over its images is one of the abstract disk.
    ensures { RunsAreTheDisks }
{}

/// A run costs at most 460 writes for each request, and 12 for each pair that its requests remove.
pub fn runs_cost_by_the_pairs_that_they_remove()
    ensures { RunsCostByPairs }
{}

/// However a run without sweeps ended, it wrote at most 460 sectors for each request, and 12 for each pair that the
/// answered ones and the next one remove, beyond what was written and due when it began.
pub fn runs_write_by_the_pairs_that_they_remove()
    /// promise: From a valid world a run without sweeps writes at most 460 sectors for each request, and 12 for each
    /// pair that the answered ones and the next one remove, beyond what was written and due when it began.
    ensures { RunsWriteByPairs }
{}
