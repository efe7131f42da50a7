//! The outside on a real machine: an image in a file, standard output and standard input.
//!
//! It stands on the traits of `image_device` and `mirror_device`, and on `image_files`, which opens images, reads them
//! ahead and writes them. A [`FileStation`] is an image in a file or on a block device with an output beside it;
//! [`FileSides`] are two such images under one clock; a [`Shadow`] is one that is only read; an [`InputSource`] is an
//! input. Where there is a terminal a [`Progress`] tells there that long work goes on.
//!
//! That the counts of faults rise exactly with calls that fail is proved. What files, streams and the system are is
//! trusted: the types tell nothing of their contents, and tests alone show it, in the script `tests/edge`; what is told
//! of long work is tried here.
#![tactic(auto)]

mod file_side;
mod file_sides;
mod file_station;
mod input;
mod notes;
mod outlet;
mod progress;
#[cfg(test)]
mod progress_tests;
mod shadow;

pub use file_side::tell_image;
pub use file_sides::{FileSides, NamedImage};
pub use file_station::FileStation;
pub use input::InputSource;
pub use notes::Named;
pub use progress::Progress;
pub use shadow::Shadow;
