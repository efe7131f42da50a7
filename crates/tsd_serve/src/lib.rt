//! The program as one call: command words, an input, and an image with an output beside it.
//!
//! What it stands on: runs over an image (`image_runs`), also in groups (`image_groups`), over the tree of files in one
//! (`image_shell`) and over what of one is reached (`audit_runs`), copies of such a tree (`image_copy`), the outside
//! (`image_device`), lines (`script_text`) and frames (`request_frames`), placements (`place_policy`), and words and
//! statuses (`tsd_words`).
//!
//! What it promises: [`tsd`] does what its words say, or is Usage where they are no command, and then has
//! called nothing. By command and status it says what came in, which requests that holds, what was sent, what a crash
//! at any moment may have left, and what the disk is after Done (`specs/Did.antt`). A count of faults rose only where
//! the status is that fault's. [`acknowledged_requests_stay`] reads the headline off it (`specs/Headline.antt`): after
//! a crash the image stands for the world after some prefix of the requests that holds every request whose reply was
//! sent. [`changes_are_by_access`] reads off it who changed what (`specs/Access.antt`).
#![tactic(auto)]

mod files;
mod first;
mod grouped;
mod laws;
mod mirror;
mod mirror_status;
mod top;

pub use laws::{acknowledged_requests_stay, changes_are_by_access};
pub use mirror::tsd_mirror;
pub use mirror_status::{MirrorStatus, mirror_status_line};
pub use serving::INPUT_MAX;
pub use top::tsd;
pub use tsd_words::{
    Command, CopyFs, Format, Fresh, Load, Shell, Status, TreeRoot, command, image_line, status_line,
};
