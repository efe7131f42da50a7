//! A file system over a plain disk, as tests ask it: call by call, and by lines of the shell.
//!
//! What it stands on: `inode_fs` and `chain_fs` for the two file systems, `fs_port` and `plain_disk` for the disk,
//! `shell_text` for lines and answers, `fs_trees` for asks and refusals, `image_device` for what a failed ask is,
//! `tsd_model` for bytes and capabilities.
//!
//! What it promises: nothing but that each call is made as its contract wants it. Tests choose the file system. The
//! disk tells no clause of its world, so that nothing need be known of it, and it fails from any ask on that a test
//! chooses. Want of memory counts as a fault of the disk. Only tests stand on it.
#![tactic(auto)]

mod disks;
mod shell;
mod site;
mod words;

pub use disks::{READ, Untold, WRITE, reply_of};
pub use shell::answer_to;
pub use site::{Site, Tested, again, begun};
pub use words::{bytes_of, expanded, name_path};
