//! What can be wrong.

/// Why a table wasn't loaded.
#[derive(Clone, Copy, Debug, PartialEq, Eq)]
pub enum TableFault {
    /// Memory was short.
    NoMemory,

    /// A read failed, and the device's count of faults rose.
    Device,

    /// This is the least bad slot, with its two numbers as they stand: the source is no block, or the target is no
    /// block or is primary.
    Slot {
        /// The slot, from 0.
        slot: u32,

        /// One more than the source.
        source: u32,

        /// The target.
        target: u32,
    },

    /// No slot is bad, and this is the least pair that two slots hold.
    Repeated {
        /// The source, from 0.
        source: u32,

        /// The target, from 0.
        target: u32,
    },
}

/// Every slot holds a pair.
#[derive(Clone, Copy, Debug, PartialEq, Eq)]
pub struct TableFull;

/// The pair isn't held.
#[derive(Clone, Copy, Debug, PartialEq, Eq)]
pub struct NoPointer;
