//! The abstract disk as a plain program: a world and the sessions as values, and one step from them to the next.
//!
//! What it stands on: `tsd_model`, whose definitions it computes; `disk_laws` for what reclamation keeps; `arrayvec`
//! for the 64 sessions.
//!
//! What it promises: `plain_reach`, `plain_doomed` and `plain_step` answer exactly what the definitions
//! say, want of memory aside; and what `plain_step` answers keeps what is reached, and reclaims exactly what lost its
//! last pointer. It is slow and plain on purpose: it is what the fast disk is compared with.
#![tactic(auto)]

mod graph;
mod pairs;
mod placing;
mod sessions;
mod step;
mod verdict;
mod world;

pub use graph::{plain_doomed, plain_reach};
pub use sessions::{Sessions, shown_level};
pub use step::plain_step;
pub use world::World;
