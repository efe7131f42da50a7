//! The shell of a file system as what the serving loop serves.
//!
//! What it stands on: `core_blocks` is the disk of an image as a file system asks it, `fs_port` says what every file
//! system promises, `shell_text` reads asks and prints answers, and `serving` is the loop.
//!
//! - `lines`, `frames`: lines and frames as asks of a layout. `server`, `run`: a server of these asks, and the loop.
//! - `changes`, `look`, `free`: one ask on the disk, with nothing sent yet.
//! - `answer`, `listing`, `send`: the answers as they are sent; the bytes of a file and the names of a directory go in
//!   parts.
//! - `looking`, `seen`: asks that only look, and their answers.
//! - `started`: the world in which a run began, which proofs pick.
//! - `laws`: the answers tell the tree, and looks see it.
//!
//! What it promises (`specs/Shell`): each ask of the shell is answered by the step of the tree, with the room of the
//! world as it is; only an ask that is done changes the world. An ask that only looks is answered by what those steps
//! tell of the tree (`specs/Looks`, and in the words of trees `specs/Seen`). A crash at any moment leaves the tree
//! before the ask or the one after it, by the whole answers sent, and what lies behind the image as it was.
#![tactic(auto)]

mod answer;
mod changes;
mod frames;
mod free;
mod laws;
mod lines;
mod listing;
mod look;
mod looking;
mod run;
mod seen;
mod send;
mod server;
mod started;

pub use answer::{answer_ask, answer_cat, answer_change, answer_file};
pub use changes::{change, change_on};
pub use frames::FileFrames;
pub use free::{answer_df, free_on};
pub use laws::{answers_tell_the_tree, looks_see_the_tree};
pub use lines::{ChainLayout, InodeLayout, ShellLines, TreeLayout};
pub use listing::answer_ls;
pub use look::{next_on, part_on, size_on};
pub use looking::{answer_next, answer_read, answer_size};
pub use run::serve_shell;
pub use send::send_change;
pub use server::ShellServer;
pub use started::Started;
