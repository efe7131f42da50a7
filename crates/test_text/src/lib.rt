//! Tests of what is spelled and served: lines, frames, the words of commands, the texts of statuses and of an image's
//! faults; the serving loop with the least handler (`steady`); and how a caller above says the loop's promise where the
//! handler is lent ([`serve_lent_lines`]).
//!
//! The tests use public calls alone and show what no clause says. They stand in a crate of their own, so that a change
//! of a test proves no other crate again. Nothing stands on it.
#![tactic(auto)]

#[cfg(test)]
mod bodies;
#[cfg(test)]
mod commands;
#[cfg(test)]
mod frames;
mod lending;
#[cfg(test)]
mod lines;
#[cfg(test)]
mod serving_runs;
mod steady;
#[cfg(test)]
mod texts;

pub use lending::{Lent, serve_lent_lines};
pub use steady::Steady;
