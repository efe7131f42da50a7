//! Tests of the journal: worked batches and descriptors, and how often is written.
//!
//! They use public calls alone and show what no clause says. They stand in a crate of their own, so that a change of a
//! test proves no other crate again. Nothing stands on it, and it promises nothing.
#![tactic(auto)]

#[cfg(test)]
mod batches;
#[cfg(test)]
mod descriptors;
#[cfg(test)]
mod steps;
#[cfg(test)]
mod writes;
