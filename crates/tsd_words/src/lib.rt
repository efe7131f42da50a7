//! The words that the program reads and writes apart from requests and replies: commands, how a run ends, what is wrong
//! with an image, and the lines of commands that take no input.
//!
//! What it stands on: the types of `tsd_model`, the layouts of `fs_trees`, fields and lines of `script_text`, and the
//! faults of an image of `image_layout`.
//!
//! What it promises: [`command`] answers a command exactly where the words spell one (`specs/Words.antt`);
//! [`status_line`] and [`image_line`] leave exactly the text of a status and of a fault, and a line feed
//! (`specs/StatusText.antt`); the lines of `check`, `format`, `upgrade` and `load` are those of `specs/Lines.antt`.
#![tactic(auto)]

mod caps;
mod commands;
mod image_text;
mod lines;
mod status;
mod words;

pub use caps::cap_lines;
pub use commands::{Command, CopyFs, Format, Fresh, Load, Shell, TreeRoot};
pub use image_text::image_line;
pub use lines::{Summary, clean_line, info_lines, load_line, upgrade_line};
pub use status::{Status, status_line};
pub use words::command;
