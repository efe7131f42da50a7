//! What requests leave as it is.

ghost use Rattle.disk_laws.specs.Refusals.{RefusalsChangeNothing, NoMemoryChangesNothing, SessionsChangeNoWorld};
ghost use Rattle.disk_laws.specs.Refusals.{VersionStays};

/// A refused request changes nothing, nor does one for which no memory was found; opening and closing a session
/// change no world; no request changes the version or the geometry.
pub fn refusals_change_nothing()
    /// promise: **Refusals change nothing.** A request that is refused leaves the world and the sessions as they were.
    ensures refused { RefusalsChangeNothing }
    /// promise: A request for which no memory was found leaves the world and the sessions as they were.
    ensures no_memory { NoMemoryChangesNothing }
    /// promise: Opening and closing a session leave the world as it was.
    ensures sessions { SessionsChangeNoWorld }
    /// promise: No list of requests changes the version or the geometry.
    ensures version { VersionStays }
{}
