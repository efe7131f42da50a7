//! Tests of the tables of an image: that loading reads each sector once, of counts, free space and capabilities also on
//! the largest disk, and how often a choice asks for a rank.
//!
//! They use public calls alone and show what no clause says. They stand in a crate of their own, so that a change of a
//! test proves no other crate again. Nothing stands on it, and it promises nothing.
#![tactic(auto)]

#[cfg(test)]
mod blocks;
#[cfg(test)]
mod caps;
#[cfg(test)]
mod counts;
#[cfg(test)]
mod images;
#[cfg(test)]
mod placing;
#[cfg(test)]
mod sectors;
