//! An image opened and served in groups: requests that lie there together are committed as one batch.
//!
//! It stands on `gathering_runs` for the loop over groups, on `image_runs` for opening an image, and on `tsd_core` for
//! the disk. `server` is the core as what that loop serves, `run` opens an image and serves it, and `on_port` does so
//! over a port that is lent (`lent_port`).
#![tactic(auto)]

mod on_port;
mod run;
mod server;

pub use on_port::serve_port_in_groups;
pub use run::serve_image_in_groups;
