//! What an inode's bytes mean.

ghost use Rattle.inode_layout.specs.Said.{IsReadInTwoSteps, ReadsBack};

/// A block is an inode exactly where its head is one's, as `Inode::parse` tests, and what that counts is in order, as
/// `Inode::is_in_order` tests.
pub fn blocks_are_read_in_two_steps()
    /// promise: To parse a block and then to test the order of its entries is to read its inode as the definitions do.
    ensures { IsReadInTwoSteps }
{}

/// What is written as an inode that is in order is read as that inode, whatever stands behind it in the block.
pub fn what_is_written_reads_back()
    /// promise: What is written reads back as that inode.
    ensures { ReadsBack }
{}
