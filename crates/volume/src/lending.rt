//! A volume on another device for a while.

ghost use Rattle.std.specs.Prelude.{◌≡◌, true};

use crate::volume::Volume;
use intent_journal::Ring;
use std::mem::swap;

impl Volume {
    /// Exchanges the records of its journal for others: it is then at a device that has those, and stands for the same.
    pub fn swap_ring(&mut self, ring: &mut Ring)
        /// promise (with given): Nothing else of the volume changes.
        ensures same { self.new ≡ record self.old { ring = ring.old } }
        ensures given { ring.new ≡ self.old.ring }
    {
        swap(&mut self.ring, ring);
    }

    /// Gives it up, as a failed call on its device does: nothing in it is used again.
    pub fn spend(&mut self)
        ensures { self.new ≡ record self.old { is_spent = true } }
    {
        self.is_spent = true;
    }
}
