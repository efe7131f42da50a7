//! The bytes of inodes.

use crate::fields::{add_entries, add_number, head, number};
use tsd_model::Data;

/// What an inode begins with.
const NAME: &[u8] = b"TSDINOD1";

/// The bytes of a directory's inode.
pub fn directory(entries: &[(u32, &str)]) -> Data {
    let mut bytes = head(NAME, 1, number(entries.len()));
    add_entries(&mut bytes, entries);
    bytes
}

/// The bytes of a file's inode.
pub fn file(size: u32, blocks: &[u32]) -> Data {
    let mut bytes = head(NAME, 2, size);
    for block in blocks {
        add_number(&mut bytes, *block);
    }
    bytes
}
