//! What a cluster's bytes mean.

ghost use Rattle.chain_layout.specs.ReadsBack.{HeadReadsBack, EntriesReadBack, PartReadsBack};

/// What is written as a cluster is read as it, whatever stands behind it in the block: its head, the entries of one of
/// the directory, and the bytes of one of a file.
pub fn what_is_written_reads_back()
    /// promise (with entries, part): What is written reads back as that cluster.
    ensures head { HeadReadsBack }
    ensures entries { EntriesReadBack }
    ensures part { PartReadsBack }
{}
