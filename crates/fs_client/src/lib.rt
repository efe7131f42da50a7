//! A client of the disk, as both file systems are one: requests, changes told exactly, and what is shared by both
//! layouts.
//!
//! What it stands on: `fs_port` for the disk as one call and for what a file system answers, `fs_trees` for trees and
//! refusals, `bit_array` for marks, `fs_laws`, `graph_laws` and `disk_laws` for what a request leaves, `tsd_model` for
//! requests and replies.
//!
//! What it promises, from the single request up:
//!
//! - `Client`: a session that shows its capability at the root alone. Each call is one request and gives what the reply
//!   holds. Full and PointersFull are handed on; a failed call is Device, and comes only where the disk's count rose;
//!   any other refusal of the disk is NotThisFs, and a refused request changes nothing. `look`, `targets` and
//!   `count_pairs` only look at a block that the client may write: there no rule of the disk refuses them.
//! - `write_block`, `add_pointer`, `drop_pointer`, `take_blocks`: each leaves exactly the world that it says, or
//!   refuses and leaves the world as it was; a stop inside leaves the one or the other. Refused is for want of room
//!   alone, and exactly there.
//! - `check_free`: refuses exactly where fewer blocks are free than are wanted, by both numbers, before anything is
//!   taken.
//! - `BlockSet`, `is_held`: which blocks a look has come to, and whether a block points to each block that its contents
//!   name, and whether none is named twice.
//! - `make_empty` keeps the clauses of `Files` for making, in whichever layout its bytes are an empty tree;
//!   `delete_others` deletes the pairs out of a block that its contents don't name, and at every moment what is named
//!   under the root stays, and what the root doesn't reach.
//!
//! Only `BlockSet::new` takes memory.
//!
//! A refusal is handed on by `match` in this crate: each answer is proved case by case, and `?` would put a conversion
//! between what was called and what is answered.
#![tactic(auto)]

mod block_set;
mod client;
mod held;
mod leftovers;
mod looking;
mod making;
mod room;
mod steps;
mod trimming;
mod undone;

pub use block_set::BlockSet;
pub use client::Client;
pub use held::is_held;
pub use leftovers::{Names, NoNames, count_pairs};
pub use making::make_empty;
pub use room::check_free;
pub use steps::{add_pointer, drop_pointer, take_blocks, write_block};
pub use trimming::delete_others;
pub use undone::held_before;
