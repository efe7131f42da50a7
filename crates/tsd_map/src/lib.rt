//! An image in memory of the program that holds the disk, with room for replies beside it; and requests in memory.
//!
//! It stands on the traits of `image_device`. A [`MapStation`] is an image that a host has mapped: a read and a write
//! go to that memory, and a sync is asked of the host by a byte on one descriptor, and done once the host answers by a
//! byte on another. So it takes no file and no handle of a runtime. A [`SliceSource`] is requests in memory, which end;
//! [`FramesAtHand`] are such as may go on with a later call.
//!
//! Of a source all is told: which bytes came and which are left. Of the station only what it counts: that its counts of
//! faults rise exactly with calls that fail, and that no more replies are told of than there is room. What the memory
//! holds after a crash is the host's to keep, so no clause says it.
#![tactic(auto)]

mod frames_at_hand;
mod slice_source;
mod station;

pub use frames_at_hand::FramesAtHand;
pub use slice_source::SliceSource;
pub use station::MapStation;
