//! Images in files: opened, locked, read ahead and written by rows of sectors, and what is told of them.
//!
//! It stands on nothing. An [`ImageFile`] is the file or block device of an image, locked while it is open. A
//! [`Followed`] reads any file of [`Sectors`] ahead where reads follow one another, and writes sectors that do by one
//! call. [`content_of`] looks what a file holds before a disk is made in it, a [`Mark`] tells that an image went on
//! alone, [`Shown`] and [`Quoted`] write names, and [`StandIns`] keep an image from being opened in the place of a
//! standard stream that is closed.
//!
//! That a sector which was read ahead, or waits to be written, is read as it is, and that after a write or a sync that
//! failed each call fails, is proved, over any file that tells its bytes. What the files of a system hold is trusted:
//! no clause can say it, and tests alone show it, in the script `tests/edge`.
#![tactic(auto)]

mod content;
mod followed;
#[cfg(test)]
mod followed_tests;
mod held;
mod image_file;
mod joined;
mod mark;
mod names;
mod sectors;
mod standard;
mod trouble;

pub use content::{Content, content_of};
pub use followed::Followed;
pub use image_file::{ImageFile, Kind, Opening, Readers, are_one};
pub use mark::Mark;
pub use names::{Quoted, Shown};
pub use sectors::{SECTOR, Sectors};
pub use standard::{IntoFile, StandIns};
pub use trouble::Trouble;
