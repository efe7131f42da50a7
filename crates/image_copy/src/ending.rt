//! How a copy over an image ends.

use fs_copy::Copied;
use fs_trees::{FsRefusal, Path};

/// How a copy over an image ends, as its line says.
#[derive(Debug, Drop)]
pub enum CopyEnd {
    /// Both roots reach a block. Nothing has changed.
    Shared {
        /// The least of them.
        block: u32,
    },

    /// No tree of the layout hangs from the source's root. Nothing has changed.
    NotThisFs,

    /// The target's layout has no directories but `/`, and the tree has one. The target is as it was.
    Nested {
        /// The first of them.
        path: Path,
    },

    /// The target refuses a step. It has the tree after the steps before that.
    Refused {
        /// Why.
        refusal: FsRefusal,
    },

    /// All of the tree is under the target's root.
    Whole {
        /// What was copied.
        copied: Copied,
    },
}
