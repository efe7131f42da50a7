//! What is answered.

use crate::lists::{BlockList, Data};
use crate::requests::Level;

/// Why a request is refused. The variants stand by what they speak of; the order in which rules are tried is that of
/// the verdict's definition.
#[derive(Clone, Copy, Debug, PartialEq, Eq)]
pub enum Rule {
    /// The line or the frame is no request.
    BadRequest,

    /// The session isn't in 1 to 64.
    BadSession,

    /// The session isn't open.
    NotOpen,

    /// The session is open already.
    AlreadyOpen,

    /// The count isn't in 1 to 32.
    BadCount,

    /// More bytes than a block has.
    BadSize,

    /// The block is not below the number of blocks.
    NoSuchBlock,

    /// The block is free.
    FreeBlock,

    /// The block isn't primary, and only those have capabilities.
    NotPrimary,

    /// The target is primary, and nothing points to those.
    IsPrimary,

    /// The level attained at a block is below the one needed there.
    Denied {
        /// What the session attains.
        attained: Level,

        /// What the request needs.
        needed: Level,
    },

    /// The pointer is held already.
    PointerExists,

    /// The pointer isn't held.
    NoPointer,

    /// Fewer blocks are free than were asked for.
    Full {
        /// Free blocks.
        free: u32,

        /// Blocks asked for.
        wanted: u32,
    },

    /// Enough blocks are free, but not so many in a row.
    NoRun {
        /// Free blocks.
        free: u32,

        /// Blocks asked for.
        wanted: u32,
    },

    /// There is no room for the new pointers.
    PointersFull {
        /// Pointers held.
        held: u32,

        /// Pointers that may be held.
        max: u32,
    },
}

/// The answer to a request.
#[derive(Debug, PartialEq, Eq, Drop)]
pub enum Reply {
    /// It is done.
    Done,

    /// All bytes of a block.
    Bytes(Data),

    /// The new blocks: of an Alloc in the order of their ranks, of a Contig ascending.
    Blocks(BlockList),

    /// How many blocks are free.
    Free(u32),

    /// How many blocks were reclaimed.
    Gone(u32),

    /// Targets of a block's pointers, ascending.
    Targets(BlockList),

    /// A session wasn't opened, for want of memory.
    NoMemory,

    /// It is refused, and nothing has changed.
    Refused(Rule),
}
