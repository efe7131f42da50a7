// Where a group begins.
ghost use Rattle.image_device.specs.View.{View, untold};

use std::marker::Brand;

/// The real device as a group begins on it, which proofs pick.
pub trait Began {
    ghost start: { View };
}

impl Began for Brand {
    ghost start = { untold 0 0 0 };
}
