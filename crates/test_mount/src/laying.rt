//! Worlds laid by hand.

use crate::chain_blocks::{page, part};
use crate::inode_blocks::{directory, file};
use fixtures_fs::{Untold, WRITE};
use fs_client::Client;
use fs_port::Blocks;
use std::process::Abort;
use tsd_model::Data;

/// Session 1, which hangs its tree from block 0.
const CLIENT: Client = Client {
    root: 0,
    cap: WRITE,
    session: 1,
};

/// What a block says.
#[derive(Clone, Copy)]
pub enum Said {
    /// A directory's inode with these entries.
    Dir(&'static [(u32, &'static str)]),

    /// A file's inode with this size and these blocks.
    File(u32, &'static [u32]),

    /// A directory's cluster: the next one or none, and its entries.
    Page(Option<u32>, &'static [(u32, &'static str)]),

    /// A file's cluster: the next one or none, and the file's bytes from one offset to another.
    Part(Option<u32>, u64, u64),
}

/// A world: how it is called, how many blocks are taken, its pairs by their sources and targets, and what its blocks
/// say.
#[derive(Clone, Copy)]
pub struct ByHand {
    pub case: &'static str,
    pub blocks: u32,
    pub pairs: &'static [(u32, u32)],
    pub said: &'static [(u32, Said)],
}

fn block_bytes(said: &Said) -> Data {
    match said {
        Said::Dir(entries) => directory(entries),
        Said::File(size, blocks) => file(*size, blocks),
        Said::Page(next, entries) => page(*next, entries),
        Said::Part(next, first, last) => part(*next, *first, *last),
    }
}

/// Takes so many blocks, all of which hang from the root, and comes to hold each.
fn take_blocks(rt: &impl Abort, disk: &mut Untold, blocks: u32, case: &str) {
    assert!(rt; !disk.is_spent());
    assert!(rt;
        blocks == 0 || CLIENT.alloc(disk, 0, blocks).is_ok(),
        "{case}"
    );
    for block in 0..=blocks {
        assert!(rt; !disk.is_spent());
        assert!(rt; CLIENT.read(disk, block).is_ok(), "{case}: block {block}");
    }
}

/// Makes the pairs that don't begin at the root.
fn link_blocks(rt: &impl Abort, disk: &mut Untold, pairs: &[(u32, u32)], case: &str) {
    for (source, target) in pairs {
        assert!(rt; !disk.is_spent());
        if *source != 0 {
            assert!(rt;
                CLIENT.link(disk, *source, *target).is_ok(),
                "{case}: {source} to {target}"
            );
        }
    }
}

/// Deletes the pairs from the root that don't stay.
fn unlink_blocks(
    rt: &impl Abort,
    disk: &mut Untold,
    blocks: u32,
    pairs: &[(u32, u32)],
    case: &str,
) {
    for block in 1..=blocks {
        assert!(rt; !disk.is_spent());
        if !pairs.contains(&(0, block)) {
            assert!(rt;
                CLIENT.unlink(disk, 0, block).is_ok(),
                "{case}: block {block}"
            );
        }
    }
}

/// Takes so many blocks, leaves just these pairs, and writes what each block says.
pub fn lay(
    rt: &impl Abort,
    disk: &mut Untold,
    blocks: u32,
    pairs: &[(u32, u32)],
    said: &[(u32, Said)],
    case: &str,
) {
    take_blocks(rt, disk, blocks, case);
    link_blocks(rt, disk, pairs, case);
    for (block, what) in said {
        assert!(rt; !disk.is_spent());
        assert!(rt;
            CLIENT.write(disk, *block, block_bytes(what)).is_ok(),
            "{case}: block {block}"
        );
    }
    unlink_blocks(rt, disk, blocks, pairs, case);
}

/// Asserts that the pairs out of a disk of sixteen blocks are these, by their sources and targets.
pub fn has_pairs(rt: &impl Abort, disk: &mut Untold, pairs: &[(u32, u32)], case: &str) {
    let mut count = 0usize;
    for source in 0..16 {
        assert!(rt; !disk.is_spent());
        if let Ok(targets) = CLIENT.list(disk, source, 0) {
            for target in targets.as_slice() {
                assert!(rt;
                    pairs.contains(&(source, *target)),
                    "{case}: {source} to {target} is left"
                );
                count = count.saturating_add(1);
            }
        }
    }
    assert_eq!(rt; count, pairs.len(), "{case}");
}
