//! What each session holds.

ghost use Rattle.std.specs.Prelude.{◌≡◌, ◌-◌, ◌+◌, ◌<◌, ◌≤◌, length, map, replicate, slice_set};
ghost use Rattle.std.specs.Prelude.{slice_index_or, ◌==◌, cond, [], Some, None, IfOk};
ghost use Rattle.std.specs.Prelude.{MatchOption};
ghost use Rattle.tsd_model.specs.Sessions.{held_by, is_open, level_from, levels_from};
ghost use Rattle.tsd_model.specs.Sessions.{no_sessions, with_held, session_begun, session_ended};
ghost use Rattle.tsd_model.specs.Sessions.{raised_sessions, raised_held, raised_level, dropped_from, levels_at_live};
ghost use Rattle.tsd_model.specs.Sessions.{fitted};
ghost use Rattle.tsd_model.specs.Attained.{shown_level, led_level, attained_from, attained};
ghost use Rattle.tsd_model.specs.declared.requests.Level.TheVariants as level;

use crate::world::World;
use arrayvec::ArrayVec;
use std::alloc::{AllocError, Global};
use std::marker::Model;
use tsd_model::levels::greater;
use tsd_model::needs::{Need, SESSIONS};
use tsd_model::records::{kept_of, record_level};
use tsd_model::{Level, Shown};

/// The level at each block, of one session and from one origin.
#[derive(Drop)]
pub(crate) struct LevelTable {
    levels: Vec<Level>,
}

impl Model for LevelTable {
    ghost use Rattle.std.specs.Prelude.{List};
    ghost use Rattle.tsd_model.specs.declared.requests.Level.{Level};

    ghost Value = { List Level };

    ghost view = { λ t. t.levels.items };
}

impl LevelTable {
    fn bare(alloc: Global, blocks: u32) -> Result<LevelTable, AllocError>
        ensures { IfOk result (λ t. t ≡ replicate blocks level.Bare) }
    {
        let levels = vec![in alloc; Level::Bare; blocks as usize]?;
        Ok(LevelTable { levels })
    }

    fn copy(&self, alloc: Global) -> Result<LevelTable, AllocError>
        ensures { IfOk result (λ t. t ≡ self.now) }
    {
        let levels = self.levels.as_slice().to_vec(alloc)?;
        Ok(LevelTable { levels })
    }

    fn level(&self, block: u32) -> Level
        ensures { result ≡ slice_index_or self.now block level.Bare }
    {
        match self.levels.get(block as usize) {
            Some(level) => *level,
            None => Level::Bare,
        }
    }

    /// The same with the greater of the old level and this one at a block.
    fn raise(&self, alloc: Global, block: u32, attained: Level) -> Result<LevelTable, AllocError>
        ensures { IfOk result (λ t. t ≡ raised_level block attained self.now) }
    {
        let mut table = self.copy(alloc)?;
        let index = block as usize;
        let raised = greater(self.level(block), attained);
        if index < table.levels.len() {
            table.levels[index] = raised;
        }
        Ok(table)
    }

    #[tactic(auto, using(tsd_model::proofs::LevelLaws::led_level_more))]
    /// The greatest level at these sources of pairs to a block.
    fn led_level(&self, block: u32, pairs: &[(u32, u32)]) -> Level
        ensures { result ≡ led_level self.now block pairs.now }
    {
        let mut best = Level::Bare;
        for pair in pairs {
            best = greater(best, level_if(pair.1 == block, self.level(pair.0)));
        }
        best
    }

    /// Without the levels at blocks that aren't live.
    fn at_live(&self, alloc: Global, world: &World) -> Result<LevelTable, AllocError>
        ensures { IfOk result (λ t. t ≡ levels_at_live world.now self.now) }
    {
        let levels = (0..world.geometry().blocks)
            .map(|block| level_if(world.is_live(block), self.level(block)))
            .collect(alloc)?;
        Ok(LevelTable { levels })
    }
}

/// What one session holds: the levels from each origin.
#[derive(Drop)]
pub(crate) struct Holding {
    tables: Vec<LevelTable>,
}

impl Model for Holding {
    ghost use Rattle.std.specs.Prelude.{List, ◌≤◌, length};
    ghost use Rattle.tsd_model.specs.declared.requests.Level.{Level};

    ghost Value = { List (List Level) };

    ghost view = { λ h. h.tables.items };

    ghost invariant = { λ h. length h.tables.items ≤ 16 };
}

impl Holding {
    /// Nothing, at so many blocks from so many origins.
    fn nothing(alloc: Global, primaries: u32, blocks: u32) -> Result<Holding, AllocError>
        requires { primaries ≤ 16 }
        ensures { IfOk result (λ h. h ≡ replicate primaries (replicate blocks level.Bare)) }
    {
        let mut tables = Vec::new(alloc);
        for origin in 0..primaries {
            tables.push(LevelTable::bare(alloc, blocks)?)?;
        }
        Ok(Holding { tables })
    }

    fn copy(&self, alloc: Global) -> Result<Holding, AllocError>
        ensures { IfOk result (λ h. h ≡ self.now) }
    {
        let mut tables = Vec::new(alloc);
        for table in self.tables.as_slice() {
            tables.push(table.copy(alloc)?)?;
        }
        Ok(Holding { tables })
    }

    /// The same with the levels at a block raised to those that the session attains there.
    fn raise(
        &self,
        alloc: Global,
        world: &World,
        before: &Sessions,
        session: u32,
        need: &Need,
    ) -> Result<Holding, AllocError>
        ensures { IfOk result (λ h. h ≡ raised_held need.now.block (attained_from world.now before.now session
            need.now.block need.now.shown) self.now) }
    {
        let mut tables = Vec::new(alloc);
        let held = self.tables.as_slice();
        let count = held.len() as u32;
        for origin in 0..count {
            let attained = attained_from(world, before, session, need.block, &need.shown, origin);
            let table = &held[origin as usize];
            tables.push(table.raise(alloc, need.block, attained)?)?;
        }
        Ok(Holding { tables })
    }

    /// The same without what came from this origin.
    fn without_origin(&self, alloc: Global, blocks: u32, origin: u32) -> Result<Holding, AllocError>
        ensures { IfOk result (λ h. h ≡ slice_set self.now origin (replicate blocks level.Bare)) }
    {
        let mut holding = self.copy(alloc)?;
        let index = origin as usize;
        let bare = LevelTable::bare(alloc, blocks)?;
        if index < holding.tables.len() {
            holding.tables[index] = bare;
        }
        Ok(holding)
    }

    /// The same without the levels at blocks that aren't live.
    fn at_live(&self, alloc: Global, world: &World) -> Result<Holding, AllocError>
        ensures { IfOk result (λ h. h ≡ map (levels_at_live world.now) self.now) }
    {
        let mut tables = Vec::new(alloc);
        for table in self.tables.as_slice() {
            tables.push(table.at_live(alloc, world)?)?;
        }
        Ok(Holding { tables })
    }
}

/// Which sessions are open, and what each holds.
#[derive(Drop)]
pub struct Sessions {
    held: ArrayVec<Option<Holding>, SESSIONS>,
}

impl Model for Sessions {
    ghost use Rattle.std.specs.Prelude.{List, Option, ◌≡◌, length};
    ghost use Rattle.tsd_model.specs.declared.requests.Level.{Level};

    ghost Value = { List (Option (List (List Level))) };

    ghost view = { λ v. v.held.items };

    ghost invariant = { λ v. length v.held.items ≡ 64 };
}

impl Sessions {
    /// No session is open.
    pub fn none(_alloc: Global) -> Sessions
        ensures { result ≡ no_sessions }
    {
        let mut held = ArrayVec::new();
        for index in 0..SESSIONS {
            held.push(None);
        }
        Sessions { held }
    }

    /// What a session holds, None exactly where it isn't open.
    fn holding(&self, session: u32) -> Option<&Holding>
        ensures { MatchOption result (held_by self.now session ≡ None) (λ held. held_by self.now session
            ≡ Some held.now) }
    {
        let index = session.checked_sub(1)?;
        match self.held.as_slice().get(index as usize) {
            Some(Some(holding)) => Some(holding),
            _ => None,
        }
    }

    /// The levels that a session holds from an origin; none where there are none.
    fn table(&self, session: u32, origin: u32) -> Option<&LevelTable>
        ensures { MatchOption result (levels_from self.now session origin ≡ [])
            (λ table. levels_from self.now session origin ≡ table.now) }
    {
        self.holding(session)?.tables.get(origin as usize)
    }

    /// Whether a session is open.
    pub fn is_open(&self, session: u32) -> bool
        ensures { result ≡ is_open self.now session }
    {
        self.holding(session).is_some()
    }

    /// The level that a session holds from an origin at a block.
    pub fn level_from(&self, session: u32, origin: u32, block: u32) -> Level
        ensures { result ≡ level_from self.now session origin block }
    {
        match self.table(session, origin) {
            Some(table) => table.level(block),
            None => Level::Bare,
        }
    }

    /// The greatest level that a session holds from an origin at a source of a pair to a block.
    #[tactic(auto, using(tsd_model::proofs::LevelLaws::led_level_nothing))]
    fn led_level(&self, session: u32, origin: u32, block: u32, pairs: &[(u32, u32)]) -> Level
        ensures { result ≡ led_level (levels_from self.now session origin) block pairs.now }
    {
        match self.table(session, origin) {
            Some(table) => table.led_level(block, pairs),
            None => Level::Bare,
        }
    }

    /// With this at a session's index.
    fn with(mut self, session: u32, holding: Option<Holding>) -> Sessions
        ensures { result ≡ with_held self session holding }
    {
        if session == 0 {
            return self;
        }
        let index = (session - 1) as usize;
        let held = self.held.as_mut_slice();
        if index < held.len() {
            held[index] = holding;
        }
        self
    }

    /// The same sessions.
    pub(crate) fn copy(&self, alloc: Global) -> Result<Sessions, AllocError>
        ensures { IfOk result (λ v. v ≡ self.now) }
    {
        let mut held = ArrayVec::new();
        for holding in self.held.as_slice() {
            held.push(match holding {
                None => None,
                Some(holding) => Some(holding.copy(alloc)?),
            });
        }
        Ok(Sessions { held })
    }

    /// With this session open, holding nothing.
    pub(crate) fn begun(
        self,
        alloc: Global,
        world: &World,
        session: u32,
    ) -> Result<Sessions, AllocError>
        ensures { IfOk result (λ v. v ≡ session_begun world.now self session) }
    {
        let geometry = world.geometry();
        let holding = Holding::nothing(alloc, geometry.primaries, geometry.blocks)?;
        Ok(self.with(session, Some(holding)))
    }

    /// With this session closed.
    pub(crate) fn ended(self, session: u32) -> Sessions
        ensures { result ≡ session_ended self session }
    {
        self.with(session, None)
    }

    /// At a block the levels of a session, from each origin, become the greater of the old ones and those that the
    /// session attains there in a world, as `before` tells what was held.
    pub(crate) fn raise(
        self,
        alloc: Global,
        world: &World,
        before: &Sessions,
        session: u32,
        need: &Need,
    ) -> Result<Sessions, AllocError>
        ensures { IfOk result (λ v. v ≡ raised_sessions self session need.now.block (attained_from world.now before.now
            session need.now.block need.now.shown)) }
    {
        let raised = match self.holding(session) {
            None => None,
            Some(holding) => Some(holding.raise(alloc, world, before, session, need)?),
        };
        Ok(self.with(session, raised))
    }

    /// Without what came from this origin, in every session.
    pub(crate) fn without_origin(
        &self,
        alloc: Global,
        blocks: u32,
        origin: u32,
    ) -> Result<Sessions, AllocError>
        ensures { IfOk result (λ v. v ≡ dropped_from blocks origin self.now) }
    {
        let mut held = ArrayVec::new();
        for holding in self.held.as_slice() {
            held.push(match holding {
                None => None,
                Some(holding) => Some(holding.without_origin(alloc, blocks, origin)?),
            });
        }
        Ok(Sessions { held })
    }

    /// Without the levels at blocks that aren't live, in every session.
    pub(crate) fn at_live(&self, alloc: Global, world: &World) -> Result<Sessions, AllocError>
        ensures { IfOk result (λ v. v ≡ fitted world.now self.now) }
    {
        let mut held = ArrayVec::new();
        for holding in self.held.as_slice() {
            held.push(match holding {
                None => None,
                Some(holding) => Some(holding.at_live(alloc, world)?),
            });
        }
        Ok(Sessions { held })
    }
}

/// What a shown capability attains at a primary block.
pub fn shown_level(world: &World, block: u32, shown: &Shown) -> Level
    ensures { result ≡ shown_level world.now block shown.now }
{
    match shown {
        Shown::Nothing => Level::Bare,
        Shown::Key(cap) => match world.records().get(block as usize) {
            None => Level::Bare,
            Some(held) => record_level(held, &kept_of(world.version(), cap)),
        },
    }
}

/// The level that a session attains at a block from an origin.
pub(crate) fn attained_from(
    world: &World,
    sessions: &Sessions,
    session: u32,
    block: u32,
    shown: &Shown,
    origin: u32,
) -> Level
    ensures { result ≡ attained_from world.now sessions.now session block shown.now origin }
{
    if !world.is_primary(block) {
        sessions.led_level(session, origin, block, world.pairs())
    } else if origin == block {
        shown_level(world, block, shown)
    } else {
        Level::Bare
    }
}

#[tactic(auto, using(tsd_model::proofs::LevelLaws::greatest_range_next))]
/// The greatest level that a session attains at a block, from any origin.
pub(crate) fn attained(
    world: &World,
    sessions: &Sessions,
    session: u32,
    block: u32,
    shown: &Shown,
) -> Level
    ensures { result ≡ attained world.now sessions.now session block shown.now }
{
    let mut best = Level::Bare;
    let count = world.geometry().primaries;
    for origin in 0..count {
        best = greater(
            best,
            attained_from(world, sessions, session, block, shown, origin),
        );
    }
    best
}

fn level_if(counts: bool, found: Level) -> Level
    ensures { result ≡ cond counts found level.Bare }
{
    if counts { found } else { Level::Bare }
}
