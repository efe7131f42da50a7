//! What sessions hold, and the verdict on a request.
//!
//! What it stands on: `tsd_model`, whose definitions say what sessions hold and which rule refuses a request;
//! `bit_array` for levels, two bits each; `arrayvec` for the 64 sessions.
//!
//! What it promises: `Grants` is the definition's sessions, two bits for each block and primary block of an open
//! session and nothing for one that isn't. `attained` and `verdict` answer as the definitions say for any `DiskFacts`,
//! which tells a world. Only `begin` takes memory.
#![tactic(auto)]

mod attained;
mod facts;
mod grants;
mod holding;
mod levels;
mod origins;
mod verdict;

pub use facts::DiskFacts;
pub use grants::{BeginRefusal, EndRefusal, Grants};
pub use origins::Origins;
pub use verdict::Granted;
