//! Tests of the crates at the bottom: the outside, the layout of the image, bits, the order of choice, and the table of
//! grants.
//!
//! They use public calls alone and show what no clause says. They stand in a crate of their own, so that a change of a
//! test proves no other crate again. Nothing stands on it, and it promises nothing.
#![tactic(auto)]

#[cfg(test)]
mod bits;
#[cfg(test)]
mod device;
#[cfg(test)]
mod grants;
#[cfg(test)]
mod layout;
#[cfg(test)]
mod policy;
