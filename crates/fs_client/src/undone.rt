//! Pairs that are made before a refusal.

ghost use Rattle.std.specs.Prelude.{◌≡◌};
ghost use Rattle.fs_client.specs.Leftovers.{refusal_before};

use fs_trees::FsRefusal;

/// The refusal as it would have been before so many pairs were made.
pub fn held_before(refusal: FsRefusal, made: u32) -> FsRefusal
    ensures { result ≡ refusal_before refusal made }
{
    match refusal {
        FsRefusal::PointersFull { held, max } => FsRefusal::PointersFull {
            held: held.saturating_sub(made),
            max,
        },
        _ => refusal,
    }
}
