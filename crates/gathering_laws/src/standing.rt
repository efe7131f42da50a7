//! What a gathering device, and what a crash leaves of it, stands for.

ghost use Rattle.gathering_laws.specs.Standing.{BeginsAsItStood, ClosedDisksCarryOver, GroupsKeepAWorld};
ghost use Rattle.gathering_laws.specs.Standing.{HomesStandAlike, NextGoesOn};

/// A group begins with the world that the device stands for, and each image that it leaves stands for that world, with
/// nothing more sent, or for the world at its end, with no more sent than was put. What is held in memory over the disk
/// of one group fits that of the next.
pub fn groups_keep_a_world()
    ensures alike { HomesStandAlike }
    ensures begins { BeginsAsItStood }
    /// promise (with alike): What a crash of a group leaves stands for the world of its start or for that of its end.
    ensures keeps { GroupsKeepAWorld }
    /// promise (with begins, goes_on): What is held in memory over one group's disk fits that of the next.
    ensures carries { ClosedDisksCarryOver }
    ensures goes_on { NextGoesOn }
{}
