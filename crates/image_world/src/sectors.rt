//! The tables of an image, in memory and in its sectors.

ghost use Rattle.image_world.specs.Sound.{TablesAreOne, TablesAreHad, RightTablesAreSound, SoundTablesPass};

/// Tables that were loaded from sectors are those that the sectors say, and the tests pass exactly where those fit one
/// another.
pub fn sectors_have_one_set_of_tables()
    /// promise (with had, sound, passes): The tables that sectors have are one, and the tests pass exactly where these
    /// fit one another.
    ensures one { TablesAreOne }
    ensures had { TablesAreHad }
    ensures sound { RightTablesAreSound }
    ensures passes { SoundTablesPass }
{}
