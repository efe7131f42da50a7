//! Access, said over the requests so far.

ghost use Rattle.disk_laws.specs.Grants.{LevelsAreGrants, AttainedByHistory};

/// What a session holds is what it was granted, and by that and the pointers as they are now one knows what it attains.
pub fn access_is_by_grants()
    /// promise: **Access.** In a run from a valid world with no session open, a session holds a level from a primary
    /// block at a block exactly where it has a *grant* of it: an earlier request of the session was granted, needed a
    /// level at the block and had at least this one from that primary block; and since then, that request included, the
    /// session wasn't closed, the block stayed live, and the primary block got no new capabilities.
    ensures held { LevelsAreGrants }
    /// promise: A session has access at a level to a block exactly where the block is primary and what the request
    /// shows is right for the level by the record as it is now; or the block isn't primary, a pointer to it is held
    /// now, and at that pointer's source the session has a grant of the level from some primary block.
    ensures attained { AttainedByHistory }
{}
