//! Group commit: the requests that lie there together are committed as one batch, and then their replies are sent.
//!
//! What it stands on: the loop's parts of `serving` (an intake, protocols, handlers, replies) and the disk in memory of
//! `gathering`, whose net change a flush commits.
//!
//! - `handler`: what a handler has to be beside, so that its disk may be one in memory.
//! - `gather`: requests carried out on a disk in memory, as many as lie there and as fit.
//! - `group`: one group, from its first request to its flush.
//! - `settle`: what is left to be done, in groups of its own.
//! - `direct`: a request that no batch holds, on the device itself.
//! - `turns`, `run`: one after another, over an input.
//!
//! What it promises of a run (`specs/Promise.antt`): a crash at any moment leaves an image that stands for the state
//! after a prefix of the requests that holds every request of whose reply something was sent.
#![tactic(auto)]

mod direct;
mod gather;
mod group;
pub mod handler;
mod room;
mod run;
mod settle;
mod turns;

pub use handler::GroupHandler;
pub use run::serve_in_groups;
