//! The format of an image: where each thing stands, and what the header says.
//!
//! What it stands on: `tsd_model` for the geometry, `byteorder` for numbers in bytes.
//!
//! What it promises: every offset is the one of the format, as `specs/` has it; different things stand apart, all below
//! `Layout::total`; `read_header` accepts exactly the right headers and names the first thing that is wrong with
//! another; what `write_header` makes of version 1 or 2 and a lawful geometry reads back, and is zero outside the
//! fields.
//! `specs/Image.antt` says what the bytes of an image mean, for every crate that reads or writes them; `proofs/` has
//! the lemmas that those crates cite: a sector has one reading, and the things of an image stand apart.
#![tactic(auto)]

pub mod fault;
pub mod gate;
pub mod header;
pub mod layout;
pub mod offset;
pub mod ring;
pub mod sectors;
pub mod things;

pub use fault::{HeaderFault, ImageFault};
pub use gate::{gate_bytes, says_open};
pub use header::{Header, read_header, write_header};
pub use layout::Layout;
pub use offset::{Offset, Patch, bit_mask};
