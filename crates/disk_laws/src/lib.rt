//! Laws of the abstract disk: why one may believe its definitions.
//!
//! What it stands on: `tsd_model`, and of that the definitions alone.
//!
//! What it promises: each law is a clause of a function that takes nothing and does nothing. It holds for every kind of
//! placement, every state that it names, every request and every list of requests, at whichever opens no memory was
//! found. `docs/CLAUSES.md` says each in plain words, and `docs/PROOFS.md` what it does not say.
#![tactic(auto)]

pub mod access;
pub mod bytes;
pub mod full;
pub mod isolation;
pub mod reached;
pub mod reclaiming;
pub mod refusals;
pub mod validity;

pub use access::access_is_by_grants;
pub use bytes::verdicts_read_no_bytes;
pub use full::full_means_full;
pub use isolation::sessions_are_apart;
pub use reached::what_is_reached_stays;
pub use reclaiming::exactly_the_last_pointer;
pub use refusals::refusals_change_nothing;
pub use validity::{runs_begin_valid, worlds_stay_valid};
