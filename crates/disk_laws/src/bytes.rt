//! What reads no bytes of blocks.

ghost use Rattle.disk_laws.specs.Bytes.{BytesLeaveWorldsLike, VerdictsReadNoBytes, LevelsReadNoBytes};
ghost use Rattle.disk_laws.specs.Bytes.{ChoicesReadNoBytes};

/// Worlds that differ in the bytes of their live blocks alone, as before and after a write, give the same verdict on
/// each request, the same attained levels and the same choices of blocks.
pub fn verdicts_read_no_bytes()
    ensures like { BytesLeaveWorldsLike }
    /// promise (with like, levels, choices): **A verdict reads no bytes.** Worlds that differ in the bytes of live
    /// blocks alone give the same verdict on each request, the same access and the same choices of free blocks.
    ensures verdict { VerdictsReadNoBytes }
    ensures levels { LevelsReadNoBytes }
    ensures choices { ChoicesReadNoBytes }
{}
