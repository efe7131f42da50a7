//! The journal: a ring of eight records, by which many sectors change as one.
//!
//! What it stands on: `image_device` for disks and what a crash leaves of them, `image_layout` for the journal's
//! places,
//! `tsd_model` for want of memory, `arrayvec` and `byteorder` for descriptors.
//!
//! What it promises: a `Batch` of new bytes for up to 113 sectors, its homes, is committed whole or not at all,
//! whatever call a crash stops. What an image stands for is a definition over the image alone, `home` in
//! `specs/Home.antt`: the sectors as they are once its records are in place. `Ring::commit` leaves images whose home is
//! the one before, but in sectors that were loose before, or the one with the whole batch, and only the latter once it
//! is Ok; `Ring::checkpoint` and `Ring::replay` leave images of one and the same home, but in sectors that were loose
//! before. All this is said of the sectors outside the journal.
//!
//! Why a gate may be torn: the gate that a commit opens, and gate 0 when it is closed, are each written alone, between
//! two syncs. Inside that write the sector may hold any 512 bytes, of which the first alone says whether it is open.
//! When a commit opens a gate, its record's bodies and descriptor are on the disk already, and the next gate reads
//! closed: read as closed it is the disk before, as open the disk after. When a checkpoint closes gate 0, all homes are
//! on the disk already: read as open the records say again what stands in the homes, as closed nothing is overlaid.
//! Were a later record closed first, an older body of the same home would win. Gates behind a closed one aren't read,
//! so the others are closed together, and may be torn in any way.
#![tactic(auto)]

pub mod batch;
mod checkpoint;
mod commit;
mod descriptor;
pub mod homes;
mod patches;
mod replay;
pub mod ring;

pub use batch::{Batch, BatchFull};
pub use homes::is_lawful_home;
pub use ring::{ReplayFault, Replayed, Ring};
