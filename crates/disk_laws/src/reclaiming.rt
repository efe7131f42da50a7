//! Which blocks a request reclaims.

ghost use Rattle.disk_laws.specs.Reclaiming.{ExactlyTheLastPointer, ReclaimsInOrder, SweepsTheRest};

/// By a request other than a sweep a live block becomes free exactly where it isn't primary and every pair that led to
/// it is absent afterwards, and the blocks so reclaimed stand in an order. After a sweep exactly the blocks that were
/// reached are live.
pub fn exactly_the_last_pointer()
    /// promise: **Exactly the last pointer.** In a valid world, by a request other than a sweep, a live block becomes
    /// free exactly where it isn't primary and every pointer that led to it is absent afterwards.
    ensures last_pointer { ExactlyTheLastPointer }
    /// promise: The blocks so reclaimed, each once, stand in an order in which each pointer to one of them that was
    /// held before the request comes from one before it, or is the pointer that the request deleted.
    ensures order { ReclaimsInOrder }
    /// promise: After a granted sweep exactly the blocks that were reached are live.
    ensures swept { SweepsTheRest }
{}
