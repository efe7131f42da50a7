//! What is asked of the disk.

use crate::caps::{CapPair, Shown};
use crate::lists::Data;

/// Where new blocks are to stand near.
#[derive(Clone, Copy, Debug, PartialEq, Eq)]
pub enum Hint {
    /// Nowhere; it counts as block 0.
    Null,

    /// Near this block, which need not be one of the disk.
    At(u32),
}

/// What one may do at a block, in rising order.
#[derive(Clone, Copy, Debug, Default, PartialEq, Eq)]
pub enum Level {
    /// Nothing; printed `none`.
    #[default]
    Bare,

    /// Read it.
    Read,

    /// Read and write it.
    Write,
}

/// In which order free blocks are taken.
#[derive(Clone, Copy, Debug, PartialEq, Eq)]
pub enum PlaceKind {
    /// The least block first.
    Low,

    /// The one nearest to the hint first, that above it before that below.
    Near,

    /// Upwards from the hint, and round.
    Spread,

    /// By zones of 256 blocks: that of the hint first, then those around it.
    Zone,
}

/// A request. A session is a label from 1 to 64; blocks, sources and targets are
/// numbers of blocks. None of them need be right.
#[derive(Debug, PartialEq, Eq, Drop)]
pub enum Request {
    /// What came was no request.
    Bad,

    /// Opens a session, which holds nothing.
    Begin {
        session: u32,
    },

    /// Closes a session and ends what it holds.
    End {
        session: u32,
    },

    /// Reads a block.
    Read {
        session: u32,
        block: u32,
        shown: Shown,
    },

    /// Sets a block's bytes; zeros follow them to the block's end.
    Write {
        session: u32,
        block: u32,
        shown: Shown,
        bytes: Data,
    },

    /// Takes free blocks and points to them from the source.
    Alloc {
        session: u32,
        source: u32,
        shown: Shown,
        hint: Hint,
        count: u32,
    },

    /// The same with blocks in a row.
    Contig {
        session: u32,
        source: u32,
        shown: Shown,
        hint: Hint,
        count: u32,
    },

    /// Asks how many blocks are free. It is of no session.
    GetFree,

    /// Adds a pointer.
    Create {
        session: u32,
        source: u32,
        shown: Shown,
        target: u32,
    },

    /// Deletes a pointer, and reclaims the blocks that nothing leads to any more. A cycle of pointers stays.
    Delete {
        session: u32,
        source: u32,
        shown: Shown,
        target: u32,
    },

    /// Gives a primary block new capabilities, and ends every level that came from this block, in every session, also
    /// where the new capabilities equal the old.
    SetCap {
        session: u32,
        block: u32,
        shown: Shown,
        caps: CapPair,
    },

    /// Reclaims all blocks that no primary block leads to.
    Sweep {
        session: u32,
        shown: Shown,
    },

    /// Lists targets of a block's pointers.
    List {
        session: u32,
        source: u32,
        shown: Shown,
        start: u32,
    },
}
