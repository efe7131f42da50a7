//! What is reached stays.

ghost use Rattle.disk_laws.specs.Reached.{ReachedIsLive, ReachedIsNotReclaimed, BytesStay};

/// Each block that is reached is live. One that is live before a request and reached after it isn't reclaimed by it,
/// and its bytes stay but by a write to it.
pub fn what_is_reached_stays()
    /// promise: **What is reached stays.** Each block of a valid world that is reached from a primary block is live.
    ensures live { ReachedIsLive }
    /// promise: A block that is live before a request and reached by the pointers after it isn't reclaimed by the
    /// request.
    ensures stays { ReachedIsNotReclaimed }
    /// promise: A block that is live before and after a request keeps its bytes, unless the request is a `Write` to it.
    ensures bytes { BytesStay }
{}
