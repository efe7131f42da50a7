//! Requests served one after another, each answer sent whole before the next request is carried out.
//!
//! What it stands on: the types of `tsd_model`, the outside (`image_device`), lines (`script_text`), frames
//! (`request_frames`), and the statuses of `tsd_words`.
//!
//! The loop is one, [`serve`], over any [`Protocol`], which reads requests out of bytes, and any [`Server`] of it,
//! which answers a request. Lines and frames are protocols. Whatever carries out the requests of a disk is a
//! [`Handler`], and with the [`Replies`] of a protocol it is a server of it: it carries a request out, sends the reply,
//! and then does some of the work that it left for later.
//!
//! What it promises, of every run and whatever the protocol and the server are (`specs/Ran.antt`): by its status, which
//! bytes came in, which requests they hold and what of the answers was sent. Where the device tells: what a crash at
//! any moment may have left, as the whole answers among the bytes sent say (`specs/Runs.antt`); how many writes there
//! were (`specs/Costs.antt`); and how much was left to be done in each image that a crash may have left
//! (`specs/Debts.antt`). A count of faults rose exactly where the status is that fault's (`specs/Faults.antt`). The
//! first of the requests that came in, and all of them unless the device or the sending failed, were answered with a
//! bound on what was written before each answer and behind it (`specs/Prompt.antt`).
//!
//! The loop takes no memory; what carries out the requests may. That the answers come in time is shown by the code and
//! no clause; that none is late is: where a take fails, every whole request before is answered.
#![tactic(auto)]

mod disk;
mod frames;
pub mod handler;
pub mod intake;
mod lines;
pub mod model;
mod next;
pub mod protocol;
pub mod replies;
mod run;
pub mod server;

pub use handler::Handler;
pub use intake::{INPUT_MAX, Intake, Next};
pub use protocol::{Ending, Fed, Protocol};
pub use replies::Replies;
pub use run::{serve, serve_in};
pub use server::Server;
