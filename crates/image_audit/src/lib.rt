//! An audit of a volume: which blocks are reached, with a certificate that is checked without a search.
//!
//! What it stands on: `volume` answers which pointers are held, by the settled world; `script_text` and `tsd_words`
//! have the words of a line. What is reached is said in `tsd_model`.
//!
//! - A block's depth is the length of the shortest path of pointers to it from a root, and its parent is the least
//!   block one level up that points to it (`specs/Depths.antt`). [`Reached`] finds both, level by level, and looks at
//!   each pointer once.
//! - A [`Certificate`] is a list of such entries, one a line, by ascending block (`specs/Listing.antt`). [`verify`]
//!   looks whether it has each primary block, whether each entry stands over its parent, and whether it is closed
//!   under pointers (`specs/Certificates.antt`).
//! - `texts`: the lines of an audit.
//!
//! What it promises: `Reached` lists exactly the blocks that some roots lead to, with depths and parents. `verify`
//! answers by the first of its four cases that applies. Where it answers yes, exactly the listed blocks are reached,
//! whoever made the certificate; and what `Reached` finds from the primary blocks is answered yes. It shares nothing
//! with the search but the definitions and the walk over the targets of one block. `Reached::new` and
//! `Certificate::new` take all memory.
#![tactic(auto)]

mod certificate;
mod entry;
mod laws;
mod listing;
mod reached;
mod search;
mod targets;
mod texts;
mod verdict;
mod verifying;
mod words;

pub use certificate::{Certificate, FormFault};
pub use entry::Entry;
pub use laws::{listings_are_taken, reached_is_where_a_path_leads};
pub use listing::{Listing, parse_listing};
pub use reached::{Reached, primary_roots};
pub use texts::{LISTING_ROOM, fault_line, put_listing, verdict_line};
pub use verdict::Verdict;
pub use verifying::verify;
