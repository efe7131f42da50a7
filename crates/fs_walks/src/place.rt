//! Places in files.

/// A block of a file, and how many of the bytes that it holds were read.
#[derive(Clone, Copy, Debug)]
pub struct Place {
    /// The block.
    pub block: u32,

    /// How many of its bytes were read.
    pub read: u32,
}
