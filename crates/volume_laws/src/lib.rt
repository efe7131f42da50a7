//! What a volume is, and what its operations are said to do.
//!
//! What it stands on: `image_world` says for which world an image stands, `intent_journal` what a commit leaves,
//! `reclaim` and `graph_laws` what is doomed.
//!
//! What it promises: the value of a volume and when it is at a device, what a crash at any moment may leave of a call,
//! what a call costs in writes, and for each kind of batch what it does to the tables of an image. There is no code:
//! the laws are clauses of functions that take nothing and do nothing.
#![tactic(auto)]

pub mod laws;
