//! What one open session holds.

ghost use Rattle.std.specs.Prelude.{◌≡◌, ℕ, ◌<◌, ◌≤◌, [], length, map, replicate, slice_index_or};
ghost use Rattle.std.specs.Prelude.{slice_set, IfOk};
ghost use Rattle.tsd_model.specs.Sessions.{greater, greatest, raised_held};
ghost use Rattle.tsd_model.specs.declared.requests.Level.{Level as AnyLevel};
ghost use Rattle.tsd_model.specs.declared.requests.Level.TheVariants as level;
ghost use Rattle.grant_table.specs.Led.{level_at};

use crate::levels::LevelBits;
use crate::origins::Origins;
use std::alloc::Global;
use std::marker::Model;
use tsd_model::levels::greater;
use tsd_model::{Level, NoMemory};

/// What one open session holds: the levels from each origin.
#[derive(Drop)]
pub struct Holding {
    tables: Vec<LevelBits>,
}

impl Model for Holding {
    ghost use Rattle.std.specs.Prelude.{List, ◌≤◌, length};
    ghost use Rattle.tsd_model.specs.declared.requests.Level.{Level};

    ghost Value = { List (List Level) };

    ghost view = { λ h. h.tables.items };

    ghost invariant = { λ h. length h.tables.items ≤ 16 };
}

impl Holding {
    /// Nothing, at so many blocks from so many origins.
    pub fn nothing(alloc: Global, primaries: u32, blocks: u32) -> Result<Holding, NoMemory>
        requires { primaries ≤ 16 }
        ensures { IfOk result (λ h. h ≡ replicate primaries (replicate blocks level.Bare)) }
    {
        let mut tables = Vec::new(alloc);
        for origin in 0..primaries {
            let table = LevelBits::bare(alloc, blocks)?;
            if tables.push(table).is_err() {
                return Err(NoMemory);
            }
        }
        Ok(Holding { tables })
    }

    /// The level from an origin at a block.
    pub fn level_from(&self, origin: u32, block: u32) -> Level
        ensures { result ≡ slice_index_or (slice_index_or self.now origin []) block level.Bare }
    {
        match self.tables.get(origin as usize) {
            Some(table) => table.level(block),
            None => Level::Bare,
        }
    }

    /// The greatest level at a block, from any origin.
    #[tactic(auto, using(crate::proofs::LevelLaws::greatest_map_more))]
    pub fn level(&self, block: u32) -> Level
        ensures { result ≡ greatest (map (λ levels. slice_index_or levels block level.Bare) self.now) }
    {
        let mut best = Level::Bare;
        for table in self.tables.as_slice() {
            best = greater(best, table.level(block));
        }
        best
    }

    /// Each of these levels becomes the greater of itself and the one held from its origin at a block.
    pub fn add_to(&self, block: u32, best: &mut Origins)
        ensures sized { length best.new ≡ length best.old }
        ensures each { (o : ℕ) → o < 16 → slice_index_or best.new o level.Bare
            ≡ greater (slice_index_or best.old o level.Bare) (slice_index_or (slice_index_or self.now o []) block
            level.Bare) }
    {
        let count = self.tables.len() as u32;
        for origin in 0..count {
            best.raise(origin, self.level_from(origin, block));
        }
    }

    /// Up to which block, from `start` on and at most up to `end`, nothing is held from any origin.
    pub fn bare_until(&self, start: u32, end: u32) -> u32
        requires { start ≤ end }
        ensures on { (start ≤ result) × (result ≤ end) }
        ensures bare { (o b : ℕ) → start ≤ b → b < result → level_at self.now o b ≡ level.Bare }
    {
        let mut until = end;
        for table in self.tables.as_slice() {
            until = table.bare_until(start, until);
        }
        until
    }

    /// The level at a block from each origin becomes the greater of itself and this one.
    pub fn raise(&mut self, block: u32, origins: &Origins)
        ensures { self.new ≡ raised_held block (λ o. slice_index_or origins.now o level.Bare) self.old }
    {
        let count = self.tables.len();
        for origin in 0..count {
            let to = origins.at(origin as u32);
            let table = &mut self.tables[origin];
            table.raise(block, to);
        }
    }

    /// Nothing is held at a block any more.
    pub fn drop_at(&mut self, block: u32)
        ensures { self.new ≡ map (λ levels. slice_set levels block level.Bare) self.old }
    {
        let count = self.tables.len();
        for origin in 0..count {
            let table = &mut self.tables[origin];
            table.drop_at(block);
        }
    }

    /// Nothing is held from an origin any more.
    pub fn drop_from(&mut self, origin: u32)
        ensures { self.new ≡ slice_set self.old origin (replicate (length (slice_index_or self.old origin []))
            level.Bare) }
    {
        let position = origin as usize;
        if position < self.tables.len() {
            let table = &mut self.tables[position];
            table.clear();
        }
    }
}
