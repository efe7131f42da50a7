//! What is asked of a tree.

use fs_trees::{Name, Path, ShellAsk};

/// An ask of the shell, or one that only looks and that no line spells.
#[derive(Debug, Drop)]
pub enum FileAsk {
    /// An ask of the shell.
    Shell {
        /// The ask.
        ask: ShellAsk,
    },

    /// What stands at a path: a file, with how many bytes it has, or a directory.
    Size {
        /// Where it stands.
        path: Path,
    },

    /// Some bytes of a file.
    Read {
        /// Where it stands.
        path: Path,

        /// The offset of the first of them.
        start: u64,

        /// How many at most. No answer has more than 4,096.
        count: u32,
    },

    /// The least name in a directory above another, and what it names.
    Next {
        /// The directory.
        path: Path,

        /// The name that it is to stand above; the empty one is below all.
        after: Name,
    },
}
