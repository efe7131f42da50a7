//! The command `copyfs`: a tree of files copied from one root of an image to another, in either layout.
//!
//! What it stands on: `image_runs` opens an image, `image_audit` tells what a root reaches, `gathered_tasks` is the
//! disk as a file system asks it, `fs_copy` copies, and `inode_fs` and `chain_fs` are the two file systems.
//!
//! - `image`, `kinds`: a copy over an image, by any two file systems, and by these.
//! - `opened`: the same from a core that is open: the sessions, the copy, and the end.
//! - `denied`, `shared`: who may copy, and the blocks that both roots reach.
//! - `between`: a tree mounted and copied on a disk.
//! - `gathered`: the same on the disk in memory, committed each time when a batch is full, and once in the end.
//! - `ending`, `lines`: how a copy ends, and the line that says it.
//!
//! What it promises (`specs/Copied`, `specs/Ends`): after `copied` the target's root has the source's tree. A crash at
//! any moment leaves the source's tree as it was, and under the target's root what was there before or the tree after
//! some of the steps; wherever a byte of the line was sent, the tree that the line tells. Each other line comes exactly
//! by its cause. RootDenied comes exactly where a capability doesn't attain write at its root. No sector behind the
//! image is written.
#![tactic(auto)]

mod between;
mod denied;
mod ending;
mod gathered;
mod image;
mod kinds;
mod lines;
mod opened;
mod shared;

pub use ending::CopyEnd;
pub use image::copy_over_image;
pub use kinds::copy_image;
