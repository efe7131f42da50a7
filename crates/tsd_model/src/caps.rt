//! Capabilities, and what a client shows of them.

/// How many bytes a capability has. Whoever shows them has the right; nothing more is claimed of them.
pub const CAP_BYTES: usize = 16;

const _: () = prove!(CAP_BYTES == 16);

/// A capability: 16 bytes.
#[derive(Clone, Copy, Debug, Default, PartialEq, Eq)]
pub struct Cap {
    /// All 16, in the order in which they are written.
    pub bytes: [u8; CAP_BYTES],
}

/// The two capabilities of a primary block.
#[derive(Clone, Copy, Debug, Default, PartialEq, Eq)]
pub struct CapPair {
    /// Attains the level read.
    pub read: Cap,

    /// Attains the level write.
    pub write: Cap,
}

/// What a request shows. It shows at most one capability.
#[derive(Clone, Copy, Debug, Default, PartialEq, Eq)]
pub enum Shown {
    /// No capability.
    #[default]
    Nothing,

    /// This one.
    Key(Cap),
}
