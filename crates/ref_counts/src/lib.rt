//! How many pointers lead to each block, as the image keeps it: a number of four bytes for each block.
//!
//! What it stands on: `tsd_model` for the size of a disk, `image_device` for the reads, `image_layout` for the offsets,
//! `byteorder` for numbers in bytes.
//!
//! What it promises: after `load` the table is what the sectors say, whatever numbers they have; `patch` is the sector
//! of a block's count as it must read now, so that table and image agree again once it stands there; `fresh_sector` is
//! a sector of a fresh disk, with no count above 0. The table takes four bytes a block, and only `load` takes memory.
#![tactic(auto)]

mod fault;
mod fresh;
mod laws;
mod loading;
mod sector;
mod table;

pub use fault::LoadFault;
pub use fresh::fresh_sector;
pub use laws::{sectors_have_one_table, written_sectors_have_the_table};
pub use table::RefCounts;
