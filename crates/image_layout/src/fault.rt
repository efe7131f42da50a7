//! What can be wrong with an image.

/// What is wrong with a header: the first thing of this order.
#[derive(Clone, Copy, Debug, PartialEq, Eq)]
pub enum HeaderFault {
    /// It does not begin with the magic.
    Magic,

    /// The version found is neither 1 nor 2.
    Version(u32),

    /// A field of the geometry is bad.
    Field {
        /// 1 sectors per block, 2 blocks, 3 primary blocks, 4 pointer slots.
        number: u32,

        /// Its value.
        found: u32,
    },
}

/// Why an image stands for no world: the first test that it fails.
#[derive(Clone, Copy, Debug, PartialEq, Eq)]
pub enum ImageFault {
    /// The format gate is closed.
    NotFormatted,

    /// An open record of the journal has a descriptor that isn't valid.
    Descriptor,

    /// The header is wrong.
    Header(HeaderFault),

    /// A pointer slot is bad.
    Slot {
        /// The least bad slot.
        slot: u32,

        /// Its source field, which is one more than a source.
        source: u32,

        /// Its target.
        target: u32,
    },

    /// A pointer stands in two slots: the least such pointer.
    Repeated {
        source: u32,
        target: u32,
    },

    /// A primary block isn't live: the least.
    Primary {
        block: u32,
    },

    /// An end of a pointer isn't live: the least such pointer.
    EndNotLive {
        source: u32,
        target: u32,
    },

    /// The stored count of a block isn't the number of pointers to it: the least such block.
    Count {
        block: u32,

        /// The count on the image.
        stored: u32,

        /// The number of pointers.
        found: u32,
    },
}
