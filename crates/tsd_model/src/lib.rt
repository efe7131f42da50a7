//! The abstract disk: its types, and its rules as definitions (`specs/`).
//!
//! What it stands on: nothing of the repository; `arrayvec` for the bounded lists, `sha2` for digests.
//!
//! What it promises: what a request names and needs, the order of levels, the ranks of blocks and what is kept of a
//! capability are computed as the definitions say. The program that computes the rest is `plain_disk`. Lemmas on the
//! definitions that more than one crate above wants stand in `proofs/`.
#![tactic(auto)]

pub mod caps;
pub mod geometry;
pub mod levels;
pub mod lists;
pub mod memory;
pub mod needs;
pub mod ranks;
pub mod records;
pub mod replies;
pub mod requests;

pub use caps::{Cap, CapPair, Shown};
pub use geometry::{Geometry, SECTOR_BYTES, lawful};
pub use lists::{BlockList, CapList, Data, ListFull};
pub use memory::NoMemory;
pub use records::{KeptCap, Record};
pub use replies::{Reply, Rule};
pub use requests::{Hint, Level, PlaceKind, Request};
