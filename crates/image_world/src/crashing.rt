//! What a crash leaves of a call on the ring.

ghost use Rattle.image_world.specs.Crashes.{TheSameStandForTheSame, TheSameOweTheSame, BeforeStandsForTheOld};

/// Where a crash leaves no more than what was before, in the ring or in place, the world stays: of a commit until its
/// batch counts, of emptying the ring and of a replay.
pub fn crashes_keep_the_world()
    /// promise (with before, owes): What a crash leaves of a commit before its batch counts, of a checkpoint and of a
    /// replay stands for the world as it was, or for none where that did.
    ensures same { TheSameStandForTheSame }
    ensures owes { TheSameOweTheSame }
    ensures before { BeforeStandsForTheOld }
{}
