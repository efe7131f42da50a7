//! Batches that are put in place.

ghost use Rattle.image_world.specs.Changes.{BytesAreChange, BytesArePassedOn, CapsAreChange, UpgradesAreChange};
ghost use Rattle.image_world.specs.Changes.{FlagsAreChange, BlocksAreChange};
ghost use Rattle.image_world.specs.Turns.{BatchesTurnImages};
ghost use Rattle.image_world.specs.Written.{WrittenBytesStand};

/// Over an image that passes the tests, a batch is a change of the world: bytes of a live block are that block's, and a
/// batch after which an image has other tables gives the world of those tables with the bytes that were.
pub fn batches_are_changes()
    ensures written { WrittenBytesStand }
    /// promise (with written, bytes, passed_on, blocks, caps, upgrade, flag): **A batch is a change.** Over an image
    /// that passes, patches after which it has other tables give the world of those tables with the bytes that were; a
    /// live block's patches give the world with those bytes; so for new blocks, records, the upgrade and the sweep
    /// flag.
    ensures turned { BatchesTurnImages }
    ensures bytes { BytesAreChange }
    ensures passed_on { BytesArePassedOn }
    ensures blocks { BlocksAreChange }
    ensures caps { CapsAreChange }
    ensures upgrade { UpgradesAreChange }
    ensures flag { FlagsAreChange }
{}
