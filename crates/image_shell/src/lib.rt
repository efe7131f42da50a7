//! The shell over an image, from its start to its end.
//!
//! What it stands on: `image_runs` opens an image, `shell_server` is the loop over asks, `core_blocks` the disk as a
//! file system asks it; `inode_fs` and `chain_fs` are the two file systems.
//!
//! - `image`: an image opened and served, by any file system.
//! - `opened`: the same by its steps, from a core that was opened: the level at the root, the session, mounting, the
//!   loop.
//! - `kinds`: the two file systems, each over an image. A protocol says how asks are spelled: as lines or as frames.
//! - `laws`: what a crash left is mounted again.
//!
//! What it promises (`specs/Served`): by its status, which asks the bytes that came in spell, and what of their answers
//! was sent, each by the step of the tree that the image held at the start, or by what it sees of that. Each state of
//! the run rested in an image that a crash may have left, with the answers before it sent. A crash at any moment leaves
//! the tree after as many asks as whole answers were sent, or the one after one ask more, and as they were at the start
//! what the root doesn't reach and what lies behind the image.
//! RootDenied comes exactly where the capability doesn't attain write at the root; then the world is as it was.
#![tactic(auto)]

mod image;
mod kinds;
mod laws;
mod opened;

pub use image::serve_shell_image;
pub use kinds::{serve_chain_image, serve_inode_image};
pub use laws::what_a_crash_left_is_mounted;
pub use opened::{begin_session, is_below_write, mount_on, root_level, serve_opened};
