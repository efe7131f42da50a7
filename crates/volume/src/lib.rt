//! A world on a device.
//!
//! What it stands on: the tables of a disk in memory (`pointer_table`, `ref_counts`, `block_alloc`, `cap_store`), the
//! journal (`intent_journal`), which step comes next and what is doomed before it is reclaimed (`reclaim`,
//! `cycle_sweep`), the changes of tables in batches (`volume_changes`), and `volume_laws`, which says what all of it
//! means.
//!
//! What it promises: every operation is whole or absent in every image that a crash may leave, and of each it is said
//! how often it writes and what it leaves to be reclaimed. Reclamation follows in later calls, and the volume answers
//! as if it were done. A call fails only where the device did, and then the volume isn't used again.
#![tactic(auto)]

mod caps;
mod emptying;
mod fault;
mod finishing;
mod grow;
mod lending;
mod load;
mod pointers;
mod questions;
mod read;
mod settling;
mod sweeping;
mod upgrading;
mod volume;
mod write;

pub use fault::VolumeFault;
pub use volume::Volume;
