//! Requests and replies as lines of text.
//!
//! A client writes requests as lines and reads replies as lines. A line has words, parted by one space each; its first
//! word is a name, which says what the others are. A line is over at its line feed, and has at most 8,400 bytes before
//! it.
//!
//! What it stands on: the types of `tsd_model`; `arrayvec` for buffers, `hex` for bytes as digits, `itoa` for numbers,
//! `memchr` to look for a byte.
//!
//! What it promises:
//!
//! - [`LineCutter`] hands out the lines of a text, in whatever pieces the text comes (`specs/Lines.antt`, and the law
//!   [`cutter::any_cutting`]).
//! - [`parse_line`] answers a request exactly where the line is its spelling, and Bad exactly where it is none's. The
//!   spellings are a grammar of their own (`specs/Grammar.antt`).
//! - [`print_request`] leaves a line that reads as the request, and [`print_reply`] exactly the reply's text
//!   (`specs/Texts.antt`).
//! - Replies as they are sent part in one way: each has one line feed, its last byte ([`replies_part`]). More bytes
//!   change no line that is whole ([`cutter::lines_stay`]).
//!
//! No call takes memory. That a line is read in time linear in its length is shown by the code, and is no clause.
#![tactic(auto)]

pub mod cutter;
mod digits;
pub mod fields;
pub mod out_buf;
pub mod parse;
pub mod parsed;
pub mod printing;
mod replies;
mod requests;
pub mod short;
mod trimming;
mod words;

pub use cutter::{Fed, LineCutter};
pub use out_buf::OutBuf;
pub use parse::parse_line;
pub use replies::{print_reply, replies_part};
pub use requests::print_request;
pub use short::{ShortLine, put_short_line};
pub use words::Words;
