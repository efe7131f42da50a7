//! What was copied.

/// What was copied, each count up to the greatest number of 64 bits.
#[derive(Clone, Copy, Debug, PartialEq, Eq)]
pub struct Copied {
    /// Files.
    pub files: u64,

    /// Bytes in the files.
    pub bytes: u64,
}
