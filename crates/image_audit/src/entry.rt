//! An entry of a certificate.

/// What a certificate says of a block.
#[derive(Clone, Copy, Debug, PartialEq, Eq)]
pub struct Entry {
    /// How many pointers the shortest path to the block has, from a primary block or another root.
    pub depth: u32,

    /// The block one level up over which it is reached. A root has none.
    pub parent: Option<u32>,
}
