//! Formatting a disk and opening it.
//!
//! What it stands on: `image_device` for the disk, `image_layout` for where all stands on it and for its header and
//! gates, `cap_store` and `block_alloc` for the sectors of their tables that aren't zeros, `intent_journal` for the
//! replay,
//! `volume` for what is opened, and the laws of `image_world`.
//!
//! What it promises: after `format` a disk stands for the fresh world of its size and its capabilities, whatever was in
//! its sectors before. A crash at any moment within leaves what one at its start would, the format gate's sector aside,
//! or a closed format gate, or the fresh world. It takes no memory.
//!
//! `open_image` gives the volume of the world for which an image stands, with nothing left to end, and names the first
//! test that an image fails exactly where it stands for none. A crash at any moment within leaves an image of the same
//! world, or of none where the image stood for none. In both a fault of the device comes only where its count of faults
//! rose, and an Ok leaves that count as it was.
#![tactic(auto)]

mod areas;
mod fault;
mod formatting;
mod head;
mod opening;

pub use fault::OpenFault;
pub use formatting::format;
pub use opening::open_image;
