//! So many bits, 64 a word.
//!
//! What it stands on: `tsd_model` for want of memory.
//!
//! What it promises: contracts see an array as the list of its bits. They are all false at first; a bit is read and set
//! by its number, past the end there is none; the next one that is true is found word by word, and all are made false
//! at once. Only `new` takes memory, and no more than 8 bytes for each 64 bits begun; that it is touched no further
//! than the last bit that was true is shown by the code, and no clause says it.
#![tactic(auto)]

mod bits;

pub use bits::BitArray;
