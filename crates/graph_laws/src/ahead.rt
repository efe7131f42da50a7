//! Counts that tell what is doomed before it is taken away.

ghost use Rattle.graph_laws.specs.Ahead.{DoomedByCount, CountsAfterCreate, CountsAfterAlloc, CountsAfterStep};
ghost use Rattle.graph_laws.specs.Ahead.{MarkingBegins, MarkingGoesOn, MarkingEnds};

/// The counts of pairs from blocks that stay tell which blocks are doomed, and are kept a pair at a time. What a
/// deletion dooms is what a work list finds that lowers them along the pairs of each newly doomed block, in any order.
pub fn counts_tell_doom()
    /// promise: **Counts run ahead.** With the number of pairs to each block from blocks that stay, a block is doomed
    /// exactly where it is live, isn't primary and has 0; that number is its count in the settled world.
    ensures told { DoomedByCount }
    /// promise (with alloc, step): A pair added between blocks that stay raises its target's number alone; new blocks
    /// have one; a step of reclamation changes none.
    ensures create { CountsAfterCreate }
    ensures alloc { CountsAfterAlloc }
    ensures step { CountsAfterStep }
    /// promise (with goes_on, ends): After a deletion a work list that lowers the numbers along the pairs of each newly
    /// doomed block marks exactly the doomed ones, in any order.
    ensures begins { MarkingBegins }
    ensures goes_on { MarkingGoesOn }
    ensures ends { MarkingEnds }
{}
