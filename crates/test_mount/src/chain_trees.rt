//! Mounting worlds of chains laid by hand, which are a tree or none.

use crate::laying::{ByHand, Said};
use crate::mounting::{left_alone, tidied};
use chain_fs::ChainFs;

/// A directory of one cluster, and a file of 497 bytes in blocks 1 and 2.
const PAIRS: [(u32, u32); 2] = [(0, 1), (1, 2)];

/// What the blocks of that tree say.
const SAID: [(u32, Said); 3] = [
    (0, Said::Page(None, &[(1, "a")])),
    (1, Said::Part(Some(2), 0, 496)),
    (2, Said::Part(None, 496, 497)),
];

/// Trees, the pairs that are left of each, which are all, and how many blocks are free then.
const TREES: [(ByHand, &[(u32, u32)], u32); 4] = [
    (
        ByHand {
            case: "empty",
            blocks: 0,
            pairs: &[],
            said: &[(0, Said::Page(None, &[]))],
        },
        &[],
        15,
    ),
    (
        ByHand {
            case: "two clusters",
            blocks: 2,
            pairs: &PAIRS,
            said: &SAID,
        },
        &PAIRS,
        13,
    ),
    (
        ByHand {
            case: "names in no order",
            blocks: 2,
            pairs: &[(0, 1), (0, 2)],
            said: &[
                (0, Said::Page(None, &[(1, "z"), (2, "a")])),
                (1, Said::Part(None, 0, 496)),
                (2, Said::Part(None, 0, 0)),
            ],
        },
        &[(0, 1), (0, 2)],
        13,
    ),
    (
        ByHand {
            case: "two clusters of the directory",
            blocks: 3,
            pairs: &[(0, 1), (0, 3), (3, 2)],
            said: &[
                (0, Said::Page(Some(3), &[(1, "a")])),
                (1, Said::Part(None, 0, 1)),
                (2, Said::Part(None, 0, 2)),
                (3, Said::Page(None, &[(2, "b")])),
            ],
        },
        &[(0, 1), (0, 3), (3, 2)],
        12,
    ),
];

/// Trees with pairs that are deleted. By the rules of the disk a cycle that nothing leads to waits for a sweep; the
/// tree leads there no more.
const LEFTOVERS: [(ByHand, &[(u32, u32)], u32); 2] = [
    (
        ByHand {
            case: "pairs out of each cluster",
            blocks: 5,
            pairs: &[
                (0, 1),
                (1, 2),
                (0, 3),
                (3, 4),
                (2, 4),
                (1, 3),
                (2, 5),
                (5, 1),
            ],
            said: &SAID,
        },
        &PAIRS,
        13,
    ),
    (
        ByHand {
            case: "a cycle of leftovers",
            blocks: 4,
            pairs: &[(0, 1), (1, 2), (0, 3), (3, 4), (4, 3)],
            said: &SAID,
        },
        &[(0, 1), (1, 2), (3, 4), (4, 3)],
        11,
    ),
];

/// Worlds in which a chain is no file.
const NO_FILES: [ByHand; 8] = [
    ByHand {
        case: "a root of zeros",
        blocks: 2,
        pairs: &[(0, 1), (0, 2)],
        said: &[],
    },
    ByHand {
        case: "an entry that names no cluster",
        blocks: 1,
        pairs: &[(0, 1)],
        said: &[(0, Said::Page(None, &[(1, "a")]))],
    },
    ByHand {
        case: "an entry that names no block",
        blocks: 1,
        pairs: &[(0, 1)],
        said: &[(0, Said::Page(None, &[(99, "a")]))],
    },
    ByHand {
        case: "the next isn't pointed to",
        blocks: 2,
        pairs: &[(0, 1), (0, 2)],
        said: &SAID,
    },
    ByHand {
        case: "the first isn't pointed to",
        blocks: 2,
        pairs: &[(0, 2), (2, 1), (1, 2)],
        said: &SAID,
    },
    ByHand {
        case: "the first isn't full",
        blocks: 2,
        pairs: &PAIRS,
        said: &[
            (0, Said::Page(None, &[(1, "a")])),
            (1, Said::Part(Some(2), 0, 495)),
            (2, Said::Part(None, 495, 497)),
        ],
    },
    ByHand {
        case: "an empty last one",
        blocks: 2,
        pairs: &PAIRS,
        said: &[
            (0, Said::Page(None, &[(1, "a")])),
            (1, Said::Part(Some(2), 0, 496)),
            (2, Said::Part(None, 496, 496)),
        ],
    },
    ByHand {
        case: "a chain that comes back",
        blocks: 2,
        pairs: &[(0, 1), (1, 2), (2, 1)],
        said: &[
            (0, Said::Page(None, &[(1, "a")])),
            (1, Said::Part(Some(2), 0, 496)),
            (2, Said::Part(Some(1), 496, 992)),
        ],
    },
];

/// Worlds in which the directory is none, or two files meet.
const NO_TREES: [ByHand; 6] = [
    ByHand {
        case: "a cluster in two files",
        blocks: 2,
        pairs: &[(0, 1), (0, 2), (1, 2)],
        said: &[
            (0, Said::Page(None, &[(1, "a"), (2, "b")])),
            (1, Said::Part(Some(2), 0, 496)),
            (2, Said::Part(None, 496, 497)),
        ],
    },
    ByHand {
        case: "a file named twice",
        blocks: 1,
        pairs: &[(0, 1)],
        said: &[
            (0, Said::Page(None, &[(1, "a"), (1, "b")])),
            (1, Said::Part(None, 0, 9)),
        ],
    },
    ByHand {
        case: "a name twice",
        blocks: 2,
        pairs: &[(0, 1), (0, 2)],
        said: &[
            (0, Said::Page(None, &[(1, "a"), (2, "a")])),
            (1, Said::Part(None, 0, 9)),
            (2, Said::Part(None, 0, 9)),
        ],
    },
    ByHand {
        case: "a name in two clusters",
        blocks: 3,
        pairs: &[(0, 1), (0, 3), (3, 2)],
        said: &[
            (0, Said::Page(Some(3), &[(1, "a")])),
            (1, Said::Part(None, 0, 1)),
            (2, Said::Part(None, 0, 2)),
            (3, Said::Page(None, &[(2, "a")])),
        ],
    },
    ByHand {
        case: "the root as a file's cluster",
        blocks: 1,
        pairs: &[(0, 1)],
        said: &[
            (0, Said::Page(None, &[(1, "a")])),
            (1, Said::Part(Some(0), 0, 496)),
        ],
    },
    ByHand {
        case: "a directory without an end",
        blocks: 1,
        pairs: &[(0, 1), (1, 1)],
        said: &[(0, Said::Page(Some(1), &[])), (1, Said::Page(Some(1), &[]))],
    },
];

#[test]
fn trees_are_mounted(rt: HostRuntime) {
    for (world, left, unused) in &TREES {
        tidied::<ChainFs>(&rt, rt.alloc(), world, left, *unused);
    }
}

#[test]
fn leftovers_are_deleted(rt: HostRuntime) {
    for (world, left, unused) in &LEFTOVERS {
        tidied::<ChainFs>(&rt, rt.alloc(), world, left, *unused);
    }
}

#[test]
fn chains_that_are_no_files(rt: HostRuntime) {
    for world in &NO_FILES {
        left_alone::<ChainFs>(&rt, rt.alloc(), world);
    }
}

#[test]
fn directories_that_are_no_trees(rt: HostRuntime) {
    for world in &NO_TREES {
        left_alone::<ChainFs>(&rt, rt.alloc(), world);
    }
}
