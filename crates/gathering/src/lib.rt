//! Group commit: a disk in memory over a real one, whose net change since it began is one batch.
//!
//! It stands on `image_device` for disks and what a crash leaves of them, and on `intent_journal` for rings and
//! batches. A [`Gather`] begins as the real disk stands once its records are in place, with a closed journal. All that
//! is written, synced and put stays in memory until `flush` commits the net change as one batch and then sends the
//! bytes that wait. It is proved to be a device and a port, so whatever works over any device works over it.
//!
//! What it promises: a crash at any moment of a group leaves an image that stands for what the real disk stood for
//! before the group, with nothing more sent, or for what the disk in memory holds at its end, with a front of its bytes
//! sent. Of a group in which a call failed nothing counts.
//!
//! A [`Part`] goes on with the batch in a [`Room`], over a device that it only reads, and leaves its net change in it.
//! So requests that are carried out one at a time, each over a disk in memory of its own, are one batch, which
//! `Room::commit` puts on the device. A room is all the memory that groups need, and is taken once.
//!
//! What the disk in memory stands for while requests are under way is asked of the crates above: `gathering_laws` has
//! what follows for the world of an image.
#![tactic(auto)]

mod began;
mod flush;
mod gather;
mod group;
mod homes;
mod journal;
mod part;
mod past;
mod room;

pub use began::Began;
pub use flush::FlushFault;
pub use gather::{Flushed, Gather};
pub use part::{Base, Going, Part};
pub use room::Room;
