//! A core on another device for a while.

ghost use Rattle.std.specs.Prelude.{◌≡◌, true};

use crate::disk::Core;
use intent_journal::Ring;

impl Core {
    /// Exchanges the records of its journal for others: it is then at a device that has those, and stands for the same.
    pub fn swap_ring(&mut self, ring: &mut Ring)
        /// promise (with given): Nothing else of the core changes.
        ensures same { self.new ≡ record self.old { volume = record self.old.volume { ring = ring.old } } }
        ensures given { ring.new ≡ self.old.volume.ring }
    {
        self.volume.swap_ring(ring);
    }

    /// Gives it up, as a failed call on its device does: nothing in it is used again.
    pub fn spend(&mut self)
        ensures { self.new ≡ record self.old { volume = record self.old.volume { is_spent = true } } }
    {
        self.volume.spend();
    }
}
