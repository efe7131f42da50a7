//! Free space: which blocks are live, kept in memory as the image's bitmap has it, and which free blocks are taken.
//!
//! What it stands on: `tsd_model` for the ranks and the order by them, `place_policy` for the stored closures that rank
//! blocks, `image_layout` for where the bitmap stands, `image_device` for reading it, `arrayvec` for the blocks of
//! least rank while they are sought.
//!
//! What it promises: after `load` a map says what the bitmap's sectors say; each change followed by its `patch` keeps
//! map and sectors equal. `choose` and `choose_run` answer exactly the blocks that the definitions choose, and refuse
//! exactly where there are too few or no run is long enough, with both numbers. A live block can be hidden: it is free
//! for each question and each choice, while its bit in the bitmap stays until it is set. An image whose sectors are
//! those of `fresh_sector` has a map in which the primary blocks alone are live. A load that answers Ok leaves the
//! device's count of faults as it was. Of all this it keeps two bits a block and a byte for each 256, and only `load`
//! takes memory.
#![tactic(auto)]

mod bits;
mod choose;
mod fault;
mod free;
mod fresh;
mod groups;
mod least;
mod map;
mod patches;
mod rows;
mod sectors;
mod worlds;

pub use choose::{RunRefusal, Short};
pub use fault::LoadFault;
pub use free::choices_are_free;
pub use fresh::{fresh_sector, written_sectors_have_the_bits};
pub use map::LiveMap;
pub use patches::patches_keep_the_bitmap;
pub use worlds::choices_are_the_worlds;
