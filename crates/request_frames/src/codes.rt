//! The first byte of each body, which says what the others are, and the byte of each rule and level.

/// Opens a session.
pub const BEGIN: u8 = 1;

/// Closes a session.
pub const END: u8 = 2;

/// Reads a block.
pub const READ: u8 = 3;

/// Sets a block's bytes.
pub const WRITE: u8 = 4;

/// Takes free blocks.
pub const ALLOC: u8 = 5;

/// Takes free blocks in a row.
pub const CONTIG: u8 = 6;

/// Asks how many blocks are free.
pub const GET_FREE: u8 = 7;

/// Adds a pointer.
pub const CREATE: u8 = 8;

/// Deletes a pointer.
pub const DELETE: u8 = 9;

/// Sets a primary block's capabilities.
pub const SET_CAP: u8 = 10;

/// Reclaims what no primary block leads to.
pub const SWEEP: u8 = 11;

/// Lists a block's targets.
pub const LIST: u8 = 12;

/// It is done.
pub const DONE: u8 = 1;

/// The bytes of a block.
pub const BYTES: u8 = 2;

/// New blocks.
pub const BLOCKS: u8 = 3;

/// How many blocks are free.
pub const FREE: u8 = 4;

/// How many blocks were reclaimed.
pub const GONE: u8 = 5;

/// Targets of a block's pointers.
pub const TARGETS: u8 = 6;

/// Want of memory.
pub const NO_MEMORY: u8 = 7;

/// A refusal.
pub const REFUSED: u8 = 8;

/// What came is no request.
pub const BAD_REQUEST: u8 = 0;

/// The session isn't in 1 to 64.
pub const BAD_SESSION: u8 = 1;

/// The session isn't open.
pub const NOT_OPEN: u8 = 2;

/// The session is open already.
pub const ALREADY_OPEN: u8 = 3;

/// The count isn't in 1 to 32.
pub const BAD_COUNT: u8 = 4;

/// More bytes than a block has.
pub const BAD_SIZE: u8 = 5;

/// The disk has no such block.
pub const NO_SUCH_BLOCK: u8 = 6;

/// The block is free.
pub const FREE_BLOCK: u8 = 7;

/// The block isn't primary.
pub const NOT_PRIMARY: u8 = 8;

/// The target is primary.
pub const IS_PRIMARY: u8 = 9;

/// The level attained is below the one needed.
pub const DENIED: u8 = 10;

/// The pointer is held already.
pub const POINTER_EXISTS: u8 = 11;

/// The pointer isn't held.
pub const NO_POINTER: u8 = 12;

/// Too few blocks are free.
pub const FULL: u8 = 13;

/// Too few free blocks stand in a row.
pub const NO_RUN: u8 = 14;

/// There is no room for the new pointers.
pub const POINTERS_FULL: u8 = 15;

/// No level.
pub const LEVEL_NONE: u8 = 0;

/// The level read.
pub const LEVEL_READ: u8 = 1;

/// The level write.
pub const LEVEL_WRITE: u8 = 2;

/// The byte that stands for nothing shown and for no hint.
pub const ABSENT: u8 = 0;

/// The byte before a capability that is shown and before a hint.
pub const PRESENT: u8 = 1;
