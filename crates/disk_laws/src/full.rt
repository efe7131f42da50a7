//! When the disk is full.

ghost use Rattle.disk_laws.specs.FullDisk.{FullMeansFull};

/// A reply is Full exactly where free blocks are wanted, no rule before it applies, and fewer are free.
pub fn full_means_full()
    /// promise: **Full means full.** A reply is Full with two numbers exactly where the request wants free blocks, no
    /// rule that stands before Full applies, the first number is how many blocks are free, the second how many are
    /// wanted, and the first is less.
    ensures { FullMeansFull }
{}
