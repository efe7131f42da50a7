//! The lines of the file systems' shell, both ways, and the frames that ask of a tree.
//!
//! A client writes asks as lines or as frames, and reads answers as lines. A line has words, parted by one space each;
//! its first word is a command, which says what the others are: paths and bytes. The body of a frame is a code byte and
//! the fields that this code has, with nothing after them; numbers stand in it with their lowest byte first.
//!
//! What it stands on: `fs_trees` for names, paths, asks and refusals; `script_text` for buffers, numbers and bytes in
//! digits, and for the cutting of a text; `hex` and `itoa` for digits of bytes that are sent in parts and of sizes;
//! `request_frames` for the reading of a body, field by field; `byteorder` for numbers in bytes.
//!
//! What it promises:
//!
//! - [`parse_shell`] answers an ask exactly where the line is its spelling, and Bad exactly where it is none's. The
//!   spellings are a grammar of their own (`specs/Grammar.antt`).
//! - [`decode_ask`] does the same for the body of a frame, which spells what a line spells and three asks more, which
//!   only look ([`FileAsk`]). The spellings are equations of the body (`specs/FileBodies.antt`).
//! - Each printing call leaves exactly the text of its answer, or of its part of one (`specs/Texts.antt`, and for what
//!   only looks `specs/Looked.antt`), and the parts of an answer are its text ([`long_answers_in_parts`]).
//!
//! No call takes memory. Lines are cut by `script_text`'s cutter, frames by that of `request_frames`.
#![tactic(auto)]

mod answers;
mod body;
mod file_ask;
mod frames;
mod looks;
mod names;
mod parse;
mod words;

pub use answers::{
    long_answers_in_parts, print_bad, print_data_head, print_data_part, print_done, print_end,
    print_free, print_name, print_names_head, print_refusal,
};
pub use file_ask::FileAsk;
pub use frames::decode_ask;
pub use looks::{
    print_dir, print_file_size, print_next_dir, print_next_file, print_no_name, print_part,
};
pub use parse::parse_shell;
pub use script_text::OutBuf as ShellBuf;
