//! Changes of a raw world, and of what it settles to.

ghost use Rattle.graph_laws.specs.Changes.{DeleteSettles, DeleteDooms, CreateSettles, BytesPass, RecordsPass};

/// A change of a raw world, and the same change of what it settles to, come to the same world. So memory may answer by
/// the settled world while the disk still holds the raw one.
pub fn changes_pass()
    /// promise (with create, bytes, records): **Changes pass through settling.** A deletion, a pair added, bytes,
    /// records and the version come to the same on the raw world and on what it settles to, where they are at blocks
    /// that stay.
    ensures delete { DeleteSettles }
    /// promise: What a deletion dooms is what it dooms in the settled world, besides what was doomed before.
    ensures dooms { DeleteDooms }
    ensures create { CreateSettles }
    ensures bytes { BytesPass }
    ensures records { RecordsPass }
{}
