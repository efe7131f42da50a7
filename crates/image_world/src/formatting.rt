//! A disk that was formatted.

ghost use Rattle.image_world.specs.Fresh.{FreshSectorsHaveTheTables, FormattedStandsForFresh, TornGateIsClosedOrOpen};

/// A formatted disk stands for the fresh world, and one whose format gate was torn for it or for none.
pub fn formatted_disks_stand_for_fresh_worlds()
    ensures written { FreshSectorsHaveTheTables }
    /// promise (with written, torn): What formatting writes stands for the fresh world; while the format gate holds
    /// anything it stands for that or for none.
    ensures stands { FormattedStandsForFresh }
    ensures torn { TornGateIsClosedOrOpen }
{}
