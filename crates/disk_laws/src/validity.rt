//! Worlds stay valid.

ghost use Rattle.disk_laws.specs.Validity.{WorldsStayValid, FreshWorldsAreValid, UpgradedWorldsAreValid, NoSessionsFit};

/// Each world of a run that begins at a valid world is valid, and its sessions fit it.
pub fn worlds_stay_valid()
    /// promise: **Valid.** From a valid world and sessions that fit it, any list of requests leaves a valid world and
    /// sessions that fit it.
    ensures { WorldsStayValid }
{}

/// Where a run may begin: the world of a new disk is valid, so is a valid world once its capabilities are digests, and
/// sessions of which none is open fit each world.
pub fn runs_begin_valid()
    /// promise: The world of a new disk is valid.
    ensures fresh { FreshWorldsAreValid }
    /// promise: A valid world stays valid where its capabilities are turned into digests.
    ensures upgraded { UpgradedWorldsAreValid }
    /// promise: Sessions of which none is open fit every world.
    ensures no_sessions { NoSessionsFit }
{}
