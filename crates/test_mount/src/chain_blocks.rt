//! The bytes of clusters.

use crate::fields::{add_entries, head, number};
use tsd_model::Data;

/// The head of a cluster, with the next one or none.
fn cluster(next: Option<u32>, used: usize) -> Data {
    let next = next.map_or(0, |block| block.saturating_add(1));
    head(b"TSDCHAN1", next, number(used))
}

/// The bytes of a directory's cluster.
pub fn page(next: Option<u32>, entries: &[(u32, &str)]) -> Data {
    let mut bytes = cluster(next, entries.len());
    add_entries(&mut bytes, entries);
    bytes
}

/// The bytes of the files of these tests from one offset to another, at most 4,096.
fn body(first: u64, last: u64) -> Data {
    let mut bytes = Data::new();
    for placement in first..last {
        let _ = bytes.push((placement % 251) as u8);
    }
    bytes
}

/// The bytes of a file's cluster, and what is ignored behind them.
pub fn part(next: Option<u32>, first: u64, last: u64) -> Data {
    let body = body(first, last);
    let mut bytes = cluster(next, body.len());
    let _ = bytes.extend_from_slice(body.as_slice());
    for _ in bytes.len()..512 {
        let _ = bytes.push(0xff);
    }
    bytes
}
