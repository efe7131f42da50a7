//! Why a tree is not copied, or not all of it.

use fs_trees::{FsRefusal, Path};

/// Why a tree is not copied, or not all of it.
#[derive(Debug, Drop)]
pub enum CopyRefusal {
    /// The target's layout has no directories but `/`, and the tree has one. Nothing has changed.
    Nested {
        /// The first of them.
        path: Path,
    },

    /// The target refuses a step. It has the tree after the steps before that.
    Into {
        /// Why.
        refusal: FsRefusal,
    },

    /// The disk failed.
    Device,
}
