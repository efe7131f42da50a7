//! Fields that blocks of both file systems have: numbers, names and entries of directories.
//!
//! What it stands on: `fs_trees` for what a field means, `tsd_model` for lists of bytes, `byteorder` for numbers in
//! bytes.
//!
//! What it promises: an entry has 32 bytes, the number of a block and a name with zeros behind it. Each call reads or
//! writes such bytes exactly as the definitions of `fs_trees` say, and none takes memory.
#![tactic(auto)]

mod entries;
mod names;
mod numbers;

pub use entries::{ENTRY_BYTES, are_in_order, around, block_of, next_name, write_entry};
pub use names::{is_below, trimmed};
pub use numbers::{NUMBER_BYTES, are_apart, is_among, number_at, write_number};
