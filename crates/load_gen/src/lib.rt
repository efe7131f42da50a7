//! Requests that a seed gives, as a load for a disk.
//!
//! What it stands on: `tsd_model` for requests and sizes, `cap_store` for the capabilities of a seed, `rand_chacha` and
//! `rand_core` for the words of its stream.
//!
//! What it promises: [`LoadGen`] draws the requests of a seed in order, each a function of the words of the seed's
//! stream, the size of the disk and the request's number (`specs/Requests.antt`). No call takes memory.
#![tactic(auto)]

mod asked;
mod generator;

pub use generator::{DRAWS_MAX, LoadGen};
