//! The two commands over what of an image is reached: `audit` makes a certificate of it, `verify` checks one.
//!
//! What it stands on: `image_audit` searches a volume and checks a certificate of it, `image_runs` opens an image,
//! `serving` takes an input, `script_text` cuts it into lines. The outside is `image_device`; statuses are of
//! `tsd_words`.
//!
//! - `audit`: an image opened and searched, and the certificate put, a line for each block that is reached
//!   (`specs/Audit`).
//! - `verify`: an image opened, the lines of an input taken as a certificate (`lines`, `taking`), and one line put that
//!   says what it shows (`specs/Verify`).
//! - `laws`: what `audit` puts is answered yes, and yes means that exactly the listed blocks are reached.
//!
//! What it promises: by its status, what of its lines each command sent, and `verify` also which bytes came in. A crash
//! at any moment leaves an image that stands for what the one at the start does. An image is refused exactly where it
//! stands for no world, and then nothing was taken and nothing sent. All memory is taken before the first line, and a
//! count of faults rose only where the status is that fault's.
#![tactic(auto)]

mod audit;
mod laws;
mod lines;
mod listings;
mod taking;
mod verify;

pub use audit::audit_image;
pub use laws::{audits_are_answered_yes, yes_means_reached};
pub use verify::verify_image;
