// What long work has done.

/// What long work has done by now.
#[derive(Clone, Copy, Debug, PartialEq, Eq)]
pub enum WorkDone {
    /// So many requests were carried out, of so many.
    Requests { done: u32, of: u32 },

    /// So many files were copied, and so many bytes in them.
    Copied { files: u64, bytes: u64 },
}
