//! What a request does to the sessions of others.

ghost use Rattle.disk_laws.specs.Isolation.{OthersKeepTheirLevels, OthersStayOpen};

/// A request ends what another session holds only with a block that it reclaims and with capabilities that it sets, and
/// never raises it; it neither opens nor closes another session.
pub fn sessions_are_apart()
    /// promise: **Sessions are apart.** After a request of another session, or of none, a session holds what it held,
    /// except at blocks that aren't live any more and from a primary block whose capabilities the request set. So it
    /// never gains.
    ensures levels { OthersKeepTheirLevels }
    /// promise: A session is open after a request of another exactly where it was before.
    ensures open { OthersStayOpen }
{}
