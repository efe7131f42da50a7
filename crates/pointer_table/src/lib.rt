//! The pointer slots of a disk, kept in memory as they stand in their sectors.
//!
//! What it stands on: `image_device` for the disk, `image_layout` for offsets and patches, `tsd_model` for the geometry
//! and the pairs, `byteorder` for numbers in bytes.
//!
//! What it promises: `load` answers exactly what the slot sectors say, and names the first thing that is wrong with
//! them.
//! `add` and `remove` change one slot and give the patch of its sector: where an image had the slots of the table, it
//! has them again with the patch. Each question is answered by the pairs that the slots hold, ascending. An image whose
//! sectors are those of `fresh_sector` has a table that holds no pair. A load that answers Ok leaves the device's count
//! of faults as it was. Only `load` takes memory. The table keeps 22 bytes a slot and 16 a block: a slot has 8 bytes,
//! three links of 4, and 2 for its share of the heads of buckets; a block has two heads and two ends, and 64 blocks two
//! marks of a byte. While it loads it takes 4 more for each slot that holds a pair.
//!
//! How it stays fast: the slots that hold pairs are threaded by source, by target and by bucket (`specs/Threads.antt`),
//! and the empty ones are linked to a list (`specs/Empties.antt`), so no question or change looks at all of them. Slots
//! behind the last that ever held a pair, and links that were never set, take room and touch no memory
//! (`specs/Raw.antt`, `specs/Links.antt`).
#![tactic(auto)]

mod empties;
mod fault;
mod fresh;
mod index;
pub mod laws;
mod links;
mod load;
mod next;
mod order;
mod raw;
mod sector;
mod slots;
mod table;
mod threading;
mod threads;
mod used;
mod way;

pub use fault::{NoPointer, TableFault, TableFull};
pub use fresh::{fresh_sector, written_sectors_have_the_slots};
pub use table::PointerTable;
