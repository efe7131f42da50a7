//! What the blocks of both layouts are made of, by the tables of the documents.

use tsd_model::Data;

/// A count as a number of a block.
pub fn number(count: usize) -> u32 {
    count.min(u32::MAX as usize) as u32
}

/// Adds a number, which has four bytes.
pub fn add_number(bytes: &mut Data, value: u32) {
    let _ = bytes.extend_from_slice(&value.to_le_bytes());
}

/// What a block begins with: the layout's name, and two numbers.
pub fn head(name: &[u8], first: u32, second: u32) -> Data {
    let mut bytes = Data::new();
    let _ = bytes.extend_from_slice(name);
    add_number(&mut bytes, first);
    add_number(&mut bytes, second);
    bytes
}

/// Adds a block's number and its name, with zeros behind it.
fn add_entry(bytes: &mut Data, block: u32, name: &str) {
    add_number(bytes, block);
    let _ = bytes.extend_from_slice(name.as_bytes());
    for _ in name.len()..28 {
        let _ = bytes.push(0);
    }
}

/// Adds entries.
pub fn add_entries(bytes: &mut Data, entries: &[(u32, &str)]) {
    for (block, name) in entries {
        add_entry(bytes, *block, name);
    }
}
