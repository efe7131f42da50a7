//! Requests and replies as frames of bytes.
//!
//! A client sends requests as frames and is sent replies as frames. A frame is the length of its body in two bytes, the
//! lowest first, and the body. A body is a code byte and the fields that this code has, with nothing after them;
//! numbers have four bytes, the lowest first.
//!
//! What it stands on: the types of `tsd_model`; `script_text` for a request as it was read, before it is put together;
//! `arrayvec` for buffers, `byteorder` for numbers in bytes.
//!
//! What it promises:
//!
//! - [`FrameCutter`] hands out the bodies of a text's frames, in whatever pieces the text comes (`specs/Cutting.antt`,
//!   and the law [`cutter::any_cutting`]); what the frames of a text are, [`cutter::frames_are`] says.
//! - [`decode_body`] answers a request exactly where the body is its spelling, and Bad exactly where it is none's;
//!   [`decode_reply`] the same of replies. The spellings are stated apart from both directions (`specs/Fields.antt`,
//!   `specs/Requests.antt`, `specs/Replies.antt`).
//! - [`encode_request`] and [`encode_reply`] leave the frame of the one body; so does [`put_short_frame`], in a shorter
//!   room, wherever a reply isn't the bytes of a large block.
//! - Frames one behind the other part in one way, and more bytes change no frame that is whole
//!   ([`cutter::frames_part`]); a reply's body fits a frame ([`bodies_fit`]).
//!
//! Room for the longest frame is taken when a cutter is made. No other call takes memory.
#![tactic(auto)]

pub mod codes;
pub mod cutter;
mod decoding;
mod encoding;
pub mod frame_buf;
pub mod reader;
mod reply_decoding;
mod reply_encoding;
mod writing;

pub use cutter::{Fed, FrameCutter};
pub use decoding::decode_body;
pub use encoding::encode_request;
pub use frame_buf::{FrameBuf, ShortFrame};
pub use reply_decoding::decode_reply;
pub use reply_encoding::{bodies_fit, encode_reply, put_short_frame};
