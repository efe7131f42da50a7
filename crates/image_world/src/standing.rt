//! The world for which an image stands.

ghost use Rattle.image_world.specs.Debt.{DebtIsDoomed};
ghost use Rattle.image_world.specs.Stands.{ImagesStandForOne, RightSectorsAreRaw, WorldsAreValid, TablesTellTheWorld};

/// An image stands for one world at most, which is valid. Its tables tell all of that world but the bytes of blocks,
/// and how much is still to be reclaimed: what is doomed in its raw world.
pub fn images_stand_for_one_world()
    /// promise: **An image stands for one world at most.**
    ensures one { ImagesStandForOne }
    /// promise: The raw world of an image that passes all tests is raw.
    ensures raw { RightSectorsAreRaw }
    /// promise: The world for which an image stands is valid where sectors have 512 bytes.
    ensures valid { WorldsAreValid }
    /// promise (with debt): The tables of an image tell all of its world but the bytes of blocks, and how much is still
    /// to be reclaimed.
    ensures told { TablesTellTheWorld }
    ensures debt { DebtIsDoomed }
{}
