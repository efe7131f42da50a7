//! The order of levels: nothing, read, write.

ghost use Rattle.std.specs.Prelude.{◌≡◌};
ghost use Rattle.tsd_model.specs.Sessions.{level_le, greater};

use crate::requests::Level;

/// Whether the first level is at most the second.
pub fn level_le(one: Level, other: Level) -> bool
    ensures { result ≡ level_le one other }
{
    match (one, other) {
        (Level::Bare, _) => true,
        (Level::Read, Level::Bare) => false,
        (Level::Read, _) => true,
        (Level::Write, Level::Write) => true,
        (Level::Write, _) => false,
    }
}

/// The greater of two levels.
pub fn greater(one: Level, other: Level) -> Level
    ensures { result ≡ greater one other }
{
    match (one, other) {
        (Level::Bare, other) => other,
        (Level::Read, Level::Write) => Level::Write,
        (Level::Read, _) => Level::Read,
        (Level::Write, _) => Level::Write,
    }
}
