//! What the images that a group leaves stand for.
//!
//! It stands on `gathering` for what a crash leaves of a group, and on `image_world` for what an image stands for. One
//! function, which does nothing, has the laws as its clauses: a group of requests leaves the world of its start or that
//! of its end, and what is held in memory goes on from one group's disk to the next.
#![tactic(auto)]

mod standing;

pub use standing::groups_keep_a_world;
