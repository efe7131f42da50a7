//! Reclamation: which step comes next, and what is doomed before any step is taken.
//!
//! What it stands on: the tables of a disk (`pointer_table`, `ref_counts`, `block_alloc`), bits from `bit_array`, and
//! of `tsd_model` and `graph_laws` what is doomed and what a step keeps.
//!
//! What it promises: `Work` holds the lost blocks. `find_step` names a step at one of them, which leaves what the disk
//! settles to; there is none exactly where nothing is doomed. It finds it by `Guesses`, so that no step has to look at
//! all blocks. `Ahead` knows which blocks are doomed although none
//! is taken away yet, and keeps that right through each pair that is deleted or added, each new block and each step,
//! with a work list and no recursion. All room is taken by the three `new`: four bytes a block for `Work`; for `Ahead`
//! eight bytes and a bit a block, which is less than 9 MiB on the largest disk; 16 KiB for `Guesses`.
#![tactic(auto)]

mod ahead;
mod guesses;
mod out_step;
mod step;
mod tally;
mod targets;
mod work;

pub use ahead::Ahead;
pub use guesses::{Guesses, find_step};
pub use out_step::OutStep;
pub use targets::{STEP_TARGETS, first_targets};
pub use work::Work;
