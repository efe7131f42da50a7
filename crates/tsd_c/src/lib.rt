//! The disk as a static library: the calls that C makes.
//!
//! It stands on `embedded_disk` for what a call does, over any port, on `tsd_map` for an image and replies in memory,
//! and on `held_box` for a value that C holds between calls. Each call here builds the port and the source over what C
//! gives it, and calls the function of `embedded_disk` whose clauses say what that did. `clients/embed` has the header,
//! which says what C owes, and the file in C that maps an image, locks it and answers syncs.
//!
//! Every call ends with a number: 0 where all was done, else that of the program's status, and [`CLOSED`] where there
//! is no open disk. None aborts.
#![tactic(auto)]

mod batch;
mod handle;
mod kept;
mod making;
mod number;

pub use batch::tsd_c_batch;
pub use handle::Handle;
pub use kept::{tsd_c_apply, tsd_c_close, tsd_c_open};
pub use making::{tsd_c_disk_bytes, tsd_c_format, tsd_c_image_bytes};

/// All was done.
pub const DONE: u8 = 0;

/// No memory was found.
pub const NO_MEMORY: u8 = 8;

/// There is no open disk, or a call on its device failed.
pub const CLOSED: u8 = 20;
