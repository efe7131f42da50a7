//! By which access a run changed what it changed.

ghost use Rattle.reach_laws.specs.ByAccess.{RunsChangeByAccess};

/// In a run from a valid world with no session open, what of the start's blocks differs afterwards, a session changed
/// that attained write there, by a capability that it showed or along a pointer from where it was granted write. What
/// no session could reach is as it was, and no reply depends on its bytes.
pub fn runs_change_by_access()
    /// promise: **By access.** In a run from a valid world with no session open: where at the end the bytes of a block
    /// that stayed live differ, or the pointers out of it or to it, or a primary block's record, some request of the
    /// run changed it. It was granted at its turn, of a session with write access wherever the request needs a level,
    /// by a capability that it showed at a primary block or along a pointer from a block at which it had a grant of
    /// write. So it is of a `Delete` or a `Sweep` where a block wasn't live at some moment of the run, also where it
    /// was given out again since.
    /// promise: Take blocks that are reached from the primary ones, to which pointers lead from one another alone, and
    /// at the primary ones of which no capability that a request of the run shows is right for anything. They are as
    /// they were: bytes, records, and pointers both ways; and all replies are the same whatever they contain.
    ensures { RunsChangeByAccess }
{}
