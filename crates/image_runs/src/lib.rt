//! Runs over an image, each from its start to its end: an image opened or formatted, and served; and the commands that
//! take no input.
//!
//! What it stands on: `recovery` opens an image as a `volume` and formats one, `tsd_core` is the disk with its
//! sessions, `serving` is the loop over an input, `load_gen` draws requests from a seed. The outside is `image_device`;
//! commands, statuses and lines are of `tsd_words`.
//!
//! - `opening`: an image is opened exactly where it stands for a world, and else the status tells the first test that
//!   it fails.
//! - `server`, `run`: the core as what the loop serves. Runs by its rules are the abstract disk's, and cost at most 460
//!   writes a request and 12 for each pair that goes.
//! - `image`, `fresh`: an image opened, or formatted first, and served.
//! - `check`, `format`, `load`, `upgrade`: the commands that take no input; `ending`: what they put in the end.
//!
//! What it promises of each run (`specs/`: `Served`, `Fresh`, and a file a command): by its status, which bytes came
//! in, which requests they hold, and what of the replies or lines was sent. Where nothing was loose at the start and
//! the image stood for a world, a crash at any moment, opening included, leaves an image of the world after as many
//! requests as whole replies were sent, or of the world after one request more; until a format is done it may also
//! leave what formatting leaves. An image is refused exactly where it stands for no world, and then nothing was taken
//! and nothing sent. A count of faults rose only where the status is that fault's.
#![tactic(auto)]

mod check;
mod ending;
mod format;
mod fresh;
mod image;
mod laws;
mod load;
mod opening;
mod run;
mod server;
mod upgrade;

pub use check::{Telling, check_image};
pub use ending::{ended, put_text};
pub use format::format_image;
pub use fresh::serve_fresh;
pub use image::serve_image;
pub use laws::{
    runs_are_the_disks, runs_cost_by_the_pairs_that_they_remove,
    runs_write_by_the_pairs_that_they_remove,
};
pub use load::load_image;
pub use opening::{open_core, open_volume};
pub use run::serve_core_in;
pub use upgrade::upgrade_image;
