//! What sessions hold while a file system asks.

ghost use Rattle.fs_port.specs.Led.{LevelsStay};

/// Requests that neither open nor close a session, nor set a capability, leave each level that a session holds at a
/// block that lives on.
pub fn what_is_held_stays()
    /// promise: Requests that neither open nor close a session, nor set a capability, leave each level that a session
    /// holds at a block that stays live.
    ensures { LevelsStay }
{}
