//! A sweep: which blocks are reached from the primary ones, and which step comes next at those that aren't.
//!
//! What it stands on: the tables of a disk (`pointer_table`, `ref_counts`, `block_alloc`), bits from `bit_array`, the
//! list of waiting blocks and the graph that tables tell from `reclaim`, and of `tsd_model` and `graph_laws` what is
//! reached and what a sweep's step keeps.
//!
//! What it promises: `mark` marks exactly the reached blocks, with a list and no recursion: each pair is looked at
//! once.
//! `next_sweep_step` names a step at an unmarked block, which leaves what the disk sweeps to and takes away a pair or a
//! block; there is none exactly where every live block is marked. Both read the bitmap as it is on the disk, hidden
//! blocks included. All room is taken by `Marks::new`, four bytes and a bit a block.
#![tactic(auto)]

mod marks;
mod step;

pub use marks::{Marks, mark};
pub use step::next_sweep_step;
