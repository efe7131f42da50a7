//! That the things of an image stand apart.

ghost use Rattle.std.specs.Prelude.{ℕ, ◌≢◌};
ghost use Rattle.image_layout.specs.Things.{Thing, IsOn, IsInside, DontOverlap};
ghost use Rattle.tsd_model.specs.Geometry.{IsLawful};
ghost use Rattle.tsd_model.specs.declared.geometry.Geometry.{Geometry};

/// No two things of an image share a bit, and all end where the image does or before, whatever its version and
/// geometry.
pub fn things_stand_apart()
    /// promise: All things of an image end where it does or before.
    ensures inside { (version : ℕ) (g : Geometry) (thing : Thing) → IsLawful g → IsOn g thing
        → IsInside version g thing }
    /// promise: No two different things of an image share a bit, for every lawful geometry and both versions.
    ensures apart { (version : ℕ) (g : Geometry) (one other : Thing) → IsLawful g → IsOn g one → IsOn g other
        → one ≢ other → DontOverlap version g one other }
{}
