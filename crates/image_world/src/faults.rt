//! The first test that an image fails.

ghost use Rattle.image_world.specs.Faults.{FaultsAreOne, GoodHasNoFault};
ghost use Rattle.image_world.specs.Stands.{StandsOrHasFault};

/// An image has one answer: it stands for a world, or this is its first fault.
pub fn images_have_one_answer()
    /// promise (with one, none): An image either stands for a world or has a first fault, and not both; no two faults
    /// fit one image.
    ensures some { StandsOrHasFault }
    ensures one { FaultsAreOne }
    ensures none { GoodHasNoFault }
{}
