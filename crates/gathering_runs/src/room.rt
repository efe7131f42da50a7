// Whether a group has room.
use gathering::{Began, Gather};
use image_device::Port;

/// How many homes a batch has at most.
pub(crate) const HOMES_MAX: usize = 113;

/// How many bytes of replies wait at most before they are sent.
const WAITING_MAX: usize = 64 * 1024;

/// A port that tells whether it has room. What it answers decides only when a group ends.
pub(crate) trait HasRoom {
    /// Whether so many homes more fit, and replies may wait.
    fn has_room(&self, homes: usize) -> bool;

    /// Whether so many homes more fit.
    fn fits(&self, homes: usize) -> bool;
}

impl<P: Port, K: Began> HasRoom for Gather<P, K> {
    fn has_room(&self, homes: usize) -> bool {
        self.waiting() < WAITING_MAX && self.fits(homes)
    }

    fn fits(&self, homes: usize) -> bool {
        homes <= HOMES_MAX.saturating_sub(self.homes())
    }
}
