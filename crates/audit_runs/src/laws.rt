//! What follows of the definitions.

ghost use Rattle.audit_runs.specs.Laws.{AuditsAreAnsweredYes, YesMeansReached};

/// What `audit` puts is answered yes by `verify`, over an image of the same world.
pub fn audits_are_answered_yes()
    /// promise: What `audit` prints is answered yes by `verify` over an image of the same world.
    ensures { AuditsAreAnsweredYes }
{}

/// Where `verify` answers yes, exactly the listed blocks are reached, whoever made the certificate.
pub fn yes_means_reached()
    /// promise: Where `verify` answers yes, exactly the listed blocks are reached, whoever made the certificate.
    ensures { YesMeansReached }
{}
