//! A level from each primary block.

ghost use Rattle.std.specs.Prelude.{◌≡◌, ℕ, ◌<◌, length, slice_index_or, slice_set, IsTrue};
ghost use Rattle.tsd_model.specs.Sessions.{greater, greatest};
ghost use Rattle.tsd_model.specs.declared.requests.Level.TheVariants as level;
ghost use Rattle.grant_table.specs.Granted.{no_origins};

use std::marker::Model;
use tsd_model::Level;
use tsd_model::levels::{greater, level_le};

/// How many primary blocks a disk may have.
pub const ORIGINS: usize = 16;

/// The level from each of 16 primary blocks, the origins.
#[derive(Clone, Copy, Debug, PartialEq, Eq)]
pub struct Origins {
    levels: [Level; ORIGINS],
}

impl Model for Origins {
    ghost use Rattle.std.specs.Prelude.{List, ◌≡◌, length};
    ghost use Rattle.tsd_model.specs.declared.requests.Level.{Level};

    ghost Value = { List Level };

    ghost view = { λ o. o.levels };

    ghost invariant = { λ o. length o.levels ≡ 16 };

    ghost inverse = { λ d. record { levels = d } };
}

impl Origins {
    /// Nothing, from any origin.
    pub fn bare() -> Origins
        ensures { result ≡ no_origins }
    {
        Origins {
            levels: [Level::Bare; ORIGINS],
        }
    }

    /// The level from a primary block; nothing from block 16 on.
    pub fn at(&self, primary: u32) -> Level
        ensures { result ≡ slice_index_or self.now primary level.Bare }
    {
        match self.levels.get(primary as usize) {
            Some(level) => *level,
            None => Level::Bare,
        }
    }

    /// The greatest of them.
    #[tactic(auto, using(crate::proofs::LevelLaws::greatest_more))]
    pub fn greatest(&self) -> Level
        ensures value { result ≡ greatest self.now }
        ensures sized { length self.now ≡ 16 }
    {
        let mut best = Level::Bare;
        for level in &self.levels {
            best = greater(best, *level);
        }
        best
    }

    /// Whether write is there from each of so many primary blocks, so that none can be raised.
    pub(crate) fn are_write(&self, primaries: u32) -> bool
        ensures { IsTrue result → (o : ℕ) → o < primaries → slice_index_or self.now o level.Bare ≡ level.Write }
    {
        for primary in 0..primaries {
            if !level_le(Level::Write, self.at(primary)) {
                return false;
            }
        }
        true
    }

    /// The level from a primary block becomes the greater of itself and this one; from block 16 on nothing changes.
    pub fn raise(&mut self, primary: u32, to: Level)
        ensures sized { length self.old ≡ 16 }
        ensures value { self.new ≡ slice_set self.old primary (greater (slice_index_or self.old primary level.Bare)
            to) }
    {
        let raised = greater(self.at(primary), to);
        let position = primary as usize;
        if position < ORIGINS {
            self.levels[position] = raised;
        }
    }
}
