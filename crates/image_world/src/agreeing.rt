//! Which sectors matter.

ghost use Rattle.image_world.specs.Alike.{AlikeSayTheSame, AgreeingStandForTheSame, AgreeingHaveTheSameFault};
ghost use Rattle.image_world.specs.Alike.{AgreeingOweTheSame, UnusedMayBeAnything};

/// What an image stands for or which fault it has, and what it owes, is said by the header, the two gates, the open
/// records, the tables and the data of live blocks. The data of free blocks and all else may be anything.
pub fn only_what_matters_matters()
    ensures same { AlikeSayTheSame }
    /// promise (with same, fault, owes, unused): Images that agree on the header, both gates, the open records, the
    /// tables and the data of live blocks stand for the same and owe the same. The data of free blocks may be anything.
    ensures stands { AgreeingStandForTheSame }
    ensures fault { AgreeingHaveTheSameFault }
    ensures owes { AgreeingOweTheSame }
    ensures unused { UnusedMayBeAnything }
{}
