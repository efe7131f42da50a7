//! Tests of the abstract disk: its types and rules, some worked runs through the plain disk, and the requests that a
//! seed draws, as another program computed them.
//!
//! They use public calls alone and show what no clause says. They stand in a crate of their own, so that a change of a
//! test proves no other crate again. Nothing stands on it, and it promises nothing.
#![tactic(auto)]

#[cfg(test)]
mod drawn_lines;
#[cfg(test)]
mod drawn_requests;
#[cfg(test)]
mod model;
#[cfg(test)]
mod plain;
#[cfg(test)]
mod plain_runs;
#[cfg(test)]
mod plain_versions;
