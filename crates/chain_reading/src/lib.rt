//! Files and the directory of the file system of chains, as they are read, and whether a tree of chains is there at
//! all.
//!
//! What it stands on: `fs_port` for the disk as one call and for what reading calls tell, `fs_client` for requests that
//! look and for the blocks that a look has come to, `chain_layout` for the bytes of clusters, `fs_trees` for trees and
//! refusals, `fs_laws` and `disk_laws` for what may be read.
//!
//! How a look at the whole tree goes: the directory is read cluster by cluster, and behind each of its clusters the
//! files of its entries are. No block is gone to twice, so that chains that come back on themselves, or share a
//! cluster, are found at once. Each cluster has to point to what it names. Where all that is right, the names are
//! compared, each cluster's with its own and with those of the clusters behind it.
//!
//! What it promises: over any disk under whose root a tree of chains is, `size`, `read_file`, `read_on`, `name_after`
//! and `names_after` answer by the step of the tree; `is_tree` tells exactly whether one is there. They change no world
//! and are refused beyond that by a fault alone. The laws of `deciding` say what the write that decides a change
//! leaves: the tree with that entry set, added or taken out, or with the bytes added. Nothing is recursive, however
//! long a chain is, and nothing takes memory.
//!
//! A refusal is handed on by `match` in this crate: each answer is proved case by case, and `?` would put a conversion
//! between what was called and what is answered.
#![tactic(auto)]

mod comparing;
mod deciding;
mod finding;
mod listing;
mod looking;
mod reading;
mod walking;

pub use deciding::{
    a_file_grows, a_new_cluster_is_linked, entries_decide, files_stand_in_any_order,
};
pub use finding::{Lookup, find_file, no_way, search};
pub use listing::names_after;
pub use looking::{NAMES_MAX, is_tree};
pub use reading::{name_after, read_file, read_on, size};
pub use walking::{Page, Part, read_page, read_part};
