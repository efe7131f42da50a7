//! Mounting worlds of inodes laid by hand, which are a tree or none.

use crate::laying::{ByHand, Said};
use crate::mounting::{left_alone, tidied};
use inode_fs::InodeFs;

/// A file of 600 bytes in blocks 2 and 3, and a directory in block 4.
const PAIRS: [(u32, u32); 4] = [(0, 1), (0, 4), (1, 2), (1, 3)];

/// What the blocks of that tree say.
const SAID: [(u32, Said); 3] = [
    (0, Said::Dir(&[(1, "a"), (4, "d")])),
    (1, Said::File(600, &[2, 3])),
    (4, Said::Dir(&[])),
];

/// Trees, the pairs that are left of each, which are all, and how many blocks are free then.
const TREES: [(ByHand, &[(u32, u32)], u32); 3] = [
    (
        ByHand {
            case: "empty",
            blocks: 0,
            pairs: &[],
            said: &[(0, Said::Dir(&[]))],
        },
        &[],
        15,
    ),
    (
        ByHand {
            case: "a file and a directory",
            blocks: 4,
            pairs: &PAIRS,
            said: &SAID,
        },
        &PAIRS,
        11,
    ),
    (
        ByHand {
            case: "a shared block",
            blocks: 3,
            pairs: &[(0, 1), (0, 2), (1, 3), (2, 3)],
            said: &[
                (0, Said::Dir(&[(1, "a"), (2, "b")])),
                (1, Said::File(9, &[3])),
                (2, Said::File(10, &[3])),
            ],
        },
        &[(0, 1), (0, 2), (1, 3), (2, 3)],
        12,
    ),
];

/// Trees with pairs that are deleted. By the rules of the disk a cycle that nothing leads to waits for a sweep; the
/// tree leads there no more.
const LEFTOVERS: [(ByHand, &[(u32, u32)], u32); 3] = [
    (
        ByHand {
            case: "a cycle of leftovers",
            blocks: 6,
            pairs: &[(0, 1), (0, 4), (1, 2), (1, 3), (0, 5), (5, 6), (6, 5)],
            said: &SAID,
        },
        &[(0, 1), (0, 4), (1, 2), (1, 3), (5, 6), (6, 5)],
        9,
    ),
    (
        ByHand {
            case: "pairs out of data blocks",
            blocks: 6,
            pairs: &[(0, 1), (0, 4), (1, 2), (1, 3), (2, 5), (3, 4), (3, 6)],
            said: &SAID,
        },
        &PAIRS,
        11,
    ),
    (
        ByHand {
            case: "pairs out of inodes",
            blocks: 6,
            pairs: &[
                (0, 1),
                (0, 2),
                (0, 4),
                (1, 2),
                (1, 3),
                (1, 5),
                (4, 1),
                (4, 6),
                (6, 4),
            ],
            said: &SAID,
        },
        &PAIRS,
        11,
    ),
];

/// Worlds that are no trees.
const NO_TREES: [ByHand; 9] = [
    ByHand {
        case: "a root of zeros",
        blocks: 2,
        pairs: &[(0, 1), (0, 2)],
        said: &[],
    },
    ByHand {
        case: "a file at the root",
        blocks: 1,
        pairs: &[(0, 1)],
        said: &[(0, Said::File(9, &[1]))],
    },
    ByHand {
        case: "an inode named twice",
        blocks: 2,
        pairs: &[(0, 1), (1, 2)],
        said: &[(0, Said::Dir(&[(1, "a"), (1, "b")])), (1, Said::Dir(&[]))],
    },
    ByHand {
        case: "names out of order",
        blocks: 2,
        pairs: &[(0, 1), (0, 2)],
        said: &[
            (0, Said::Dir(&[(1, "b"), (2, "a")])),
            (1, Said::Dir(&[])),
            (2, Said::Dir(&[])),
        ],
    },
    ByHand {
        case: "a block that isn't pointed to",
        blocks: 3,
        pairs: &[(0, 1), (0, 3), (1, 2)],
        said: &[(0, Said::Dir(&[(1, "a")])), (1, Said::File(600, &[2, 3]))],
    },
    ByHand {
        case: "an inode as a block of bytes",
        blocks: 2,
        pairs: &[(0, 1), (0, 2), (1, 2)],
        said: &[
            (0, Said::Dir(&[(1, "a"), (2, "d")])),
            (1, Said::File(9, &[2])),
            (2, Said::Dir(&[])),
        ],
    },
    ByHand {
        case: "a block of bytes that is an inode before",
        blocks: 2,
        pairs: &[(0, 1), (0, 2), (1, 2)],
        said: &[
            (0, Said::Dir(&[(2, "a"), (1, "d")])),
            (1, Said::File(9, &[2])),
            (2, Said::Dir(&[])),
        ],
    },
    ByHand {
        case: "a directory in itself",
        blocks: 1,
        pairs: &[(0, 1), (1, 1)],
        said: &[(0, Said::Dir(&[(1, "d")])), (1, Said::Dir(&[(1, "d")]))],
    },
    ByHand {
        case: "an entry that names no inode",
        blocks: 2,
        pairs: &[(0, 1), (0, 2)],
        said: &[(0, Said::Dir(&[(1, "a")]))],
    },
];

#[test]
fn trees_are_mounted(rt: HostRuntime) {
    for (world, left, unused) in &TREES {
        tidied::<InodeFs>(&rt, rt.alloc(), world, left, *unused);
    }
}

#[test]
fn leftovers_are_deleted(rt: HostRuntime) {
    for (world, left, unused) in &LEFTOVERS {
        tidied::<InodeFs>(&rt, rt.alloc(), world, left, *unused);
    }
}

#[test]
fn what_is_no_tree_is_left_alone(rt: HostRuntime) {
    for world in &NO_TREES {
        left_alone::<InodeFs>(&rt, rt.alloc(), world);
    }
}
