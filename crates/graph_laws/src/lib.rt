//! Laws of raw worlds, in which blocks may still be lost: what they settle and sweep to, and which steps keep that.
//!
//! What it stands on: `tsd_model`, and of that the definitions alone, and the lemmas of `disk_laws`.
//!
//! What it promises: each law is a clause of a function that takes nothing and does nothing. It holds for every world
//! that it names, and asks no more of it than it uses, mostly an entry for each block and pairs that ascend: so it
//! holds of what tables know, which have no bytes.
#![tactic(auto)]

pub mod ahead;
pub mod changes;
pub mod dooming;
pub mod graphs;
pub mod reclaiming;
pub mod settling;
pub mod steps;
pub mod sweeping;

pub use ahead::counts_tell_doom;
pub use changes::changes_pass;
pub use dooming::doom_is_by_pairs;
pub use graphs::graphs_tell;
pub use reclaiming::steps_settle;
pub use settling::raw_worlds_settle;
pub use steps::steps_stay_raw;
pub use sweeping::steps_sweep;
