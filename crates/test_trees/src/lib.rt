//! Tests of both file systems over a plain disk: worked asks by lines of the shell, with each refusal; calls that fail;
//! and of chains files that end beside the end of a cluster and directories that grow.
//!
//! They use public calls alone and show what no clause says. They stand in a crate of their own, so that a change of a
//! test proves no other crate again. Nothing stands on it, and it promises nothing.
#![tactic(auto)]

#[cfg(test)]
mod chains;
#[cfg(test)]
mod ends;
#[cfg(test)]
mod inodes;
#[cfg(test)]
mod lines;
