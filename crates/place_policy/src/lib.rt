//! In which order free blocks are taken: stored closures that rank blocks, one for each kind of placement.
//!
//! What it stands on: `tsd_model` for the kinds, the ranks, and the functions `low_rank` to `zone_rank` that a
//! program's closures call.
//!
//! What it promises: a `Placement` ranks every block for every hint as its kind defines it, by the fact that it keeps
//! beside its closure, and each rank that it answers is one that this closure answers; no two blocks have one rank;
//! `PlaceBook::pick` gives the placement of the kind that is asked for.
#![tactic(auto)]

pub mod book;
pub mod placement;
pub mod ties;

pub use book::PlaceBook;
pub use placement::{Placement, RankFn};
pub use tsd_model::ranks::{ZONE_TURNS, low_rank, near_rank, spread_rank, zone_rank};
