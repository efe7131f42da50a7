//! The outside as the crates above see it: a disk of sectors, a port beside it, and a source of input.
//!
//! It stands on nothing. The traits [`Device`], [`Port`] and [`Source`] say what a call does, when it
//! fails, and what a crash at any moment leaves: a sector written since the last sync may hold any
//! bytes, and every other holds what a read gives. A theorem about crashes is a clause over a device's
//! `view`, most often `LeavesOnly`; `docs/PROOFS.md` tells the model on one page.
//!
//! [`MemStation`], [`FuseStation`] and [`MemSource`] are proved against the traits: a disk and a port in
//! memory that tell every image left since any moment, the same stopped after some calls, and bytes that
//! come in pieces. [`put_all`] and [`write_through`] work over any device. What a list of
//! [`Event`]s makes of a disk, and what a crash leaves of it, is in `specs/History.antt` for any disk in memory.
#![tactic(auto)]

mod cell;
mod device;
mod event;
mod fuse;
mod keep;
mod mem;
mod mem_source;
mod put;
mod source;
mod work_done;
mod write;

pub use cell::Pick;
pub use device::{Device, Failed, Port};
pub use event::Event;
pub use fuse::FuseStation;
pub use mem::MemStation;
pub use mem_source::MemSource;
pub use put::put_all;
pub use source::Source;
pub use work_done::WorkDone;
pub use write::write_through;
