//! The disk of blocks on which all that an ask changes is one commit.
//!
//! What it stands on: `core_blocks` for requests carried out in some order of free blocks, `gathering` for the disk in
//! memory, `tsd_core` for the core, and `fs_port` for what file systems ask of a disk.
//!
//! A task is a request, or a step of reclamation, that a core with an empty journal carries out, and that leaves the
//! journal empty. In memory it changes only what was gathered for a batch, whose net change is one commit then.
//!
//! - `room`: what asks need beside a core, taken once.
//! - `task`: what is done to a core in one go.
//! - `bound`: how often a request writes at most, so that it is known before it whether a batch has room for it.
//! - `hold`: a task in memory, one on the device, and the commit of what was gathered.
//! - `carry`: a request carried out, in memory where there is room, and the journal that goes to and fro.
//! - `asked`, `blocks`: the disk of blocks, and what was asked of it since it began, as clauses see it.
//!
//! What it promises: a task in memory only reads the device, is answered as on a disk of its own, and fails only where
//! the device does; a commit brings all that was gathered on the device as one batch, or, where a crash comes first,
//! nothing of it. The disk of blocks answers each request by the rules of the disk. Since what its calls hand on tells
//! what each request did to the device, a crash at any moment of an ask leaves a world that the ask came to
//! (proofs/RunLaws).
//!
//! An ask commits at its end, by `finish`, which writes 236 sectors at most (its clause `most`). A request for which
//! nothing is reclaimed, and what was gathered has room, as `HasRoomFor` says it (specs/Bounds), writes nothing on the
//! device (the clause `quiet` of `carry_out`), and what was gathered grows by that room at most (`grows`). So an ask of
//! such requests, whose rooms are 113 at most together, is one commit: what a disk of blocks hands on says it of the
//! requests that it was asked (`asks_quiet` of proofs/RunLaws).
#![tactic(auto)]

mod asked;
mod blocks;
mod bound;
mod carry;
mod hold;
mod room;
mod task;

pub use asked::{Before, Log};
pub use blocks::{AskOn, GatheredBlocks, Lending};
pub use bound::writes_at_most;
pub use carry::{begin, carry_out, finish};
pub use hold::{commit, has_room, in_memory, on_device};
pub use room::AskRoom;
pub use task::{Asking, Stepping, Task};
