//! What the write that decides a change leaves of a tree of chains: laws, without code.

ghost use Rattle.chain_reading.specs.Decided.{FilesInAnyOrder, NamesAreFound, EntryIsSet, EntryIsAdded, EntryIsRemoved};
ghost use Rattle.chain_reading.specs.Decided.{DirectoryGrows, FileGrows};

/// The tree of files doesn't depend on their order, and each name stands there for its file.
pub fn files_stand_in_any_order()
    /// promise (with names): The tree of files doesn't depend on their order, and each name stands there for its file.
    ensures order { FilesInAnyOrder }
    ensures names { NamesAreFound }
{}

/// The write of a cluster of the directory in which one entry is another's, one more, or gone, leaves the tree with
/// that entry so.
pub fn entries_decide()
    /// promise (with added, removed): The write of a cluster of the directory in which one entry is another's, one
    /// more, or gone, leaves the tree with that entry so.
    ensures set { EntryIsSet }
    ensures added { EntryIsAdded }
    ensures removed { EntryIsRemoved }
{}

/// The write of the directory's last cluster that links a new one with an entry leaves the tree with that entry.
pub fn a_new_cluster_is_linked()
    /// promise: The one write that links a new cluster leaves the tree with its entry.
    ensures { DirectoryGrows }
{}

/// The write of a file's last cluster with the bytes that it takes, and the next of those that take the others, leaves
/// the tree in which the file has them all.
pub fn a_file_grows()
    /// promise: The one write that lengthens a file leaves the tree with the bytes added.
    ensures { FileGrows }
{}
