//! What a certificate shows.

/// What a certificate shows of a world: the first of its four cases that applies.
#[derive(Clone, Copy, Debug, PartialEq, Eq)]
pub enum Verdict {
    /// Exactly the listed blocks are reached.
    Yes {
        /// How many blocks are listed.
        blocks: u32,
    },

    /// A primary block isn't listed.
    Primary {
        /// The least one.
        block: u32,
    },

    /// A block is listed with an entry that isn't good.
    Entry {
        /// The least one.
        block: u32,
    },

    /// A pair leads from a listed block to one that isn't.
    Open {
        /// The source of the least such pair.
        source: u32,

        /// Its target.
        target: u32,
    },
}
