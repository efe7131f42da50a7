//! The disk in a program's own process: what one call does, over any port.
//!
//! It stands on `image_runs`, which opens an image as a core, on `image_groups`, which serves one in groups, and on
//! `serving` for how one request is answered. The outside is `image_device`; frames are of `request_frames`.
//!
//! - [`OpenDisk`] is a disk that stays open from call to call, with its sessions. [`OpenDisk::apply`] answers the
//!   frames of one call; [`OpenDisk::close`] does what is left to be done.
//! - [`serve_frames`] opens an image, serves frames until they end, those that lie together as one batch, and lets go
//!   of it again.
//! - [`make_disk`] makes a disk of a size that is lawful.
//!
//! What it promises is what the program promises of the same work (`serving`, `image_groups`, `image_runs`), said of
//! any port: which answers are sent, what the disk is after them, what a crash at any moment leaves, and that a count
//! of faults rose only where the status is that fault's.
#![tactic(auto)]

mod grouped;
mod making;
mod open_disk;

pub use grouped::serve_frames;
pub use making::make_disk;
pub use open_disk::OpenDisk;
