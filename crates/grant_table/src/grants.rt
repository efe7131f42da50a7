//! What all sessions hold.

ghost use Rattle.std.specs.Prelude.{◌≡◌, ℕ, ◌-◌, ◌<◌, ◌≤◌, [], length, map, replicate};
ghost use Rattle.std.specs.Prelude.{option_map, slice_index_or, slice_set, IfSome, OnOk, OnErr, IfErr, None, Some};
ghost use Rattle.std.specs.Prelude.{MatchOption};
ghost use Rattle.tsd_model.specs.Sessions.{Sessions as AllSessions, no_sessions, held_by, with_held, is_open};
ghost use Rattle.tsd_model.specs.Sessions.{level_from, greatest_level, session_ended, raised_sessions, raised_held};
ghost use Rattle.tsd_model.specs.Sessions.{dropped_from};
ghost use Rattle.tsd_model.specs.declared.requests.Level.{Level as AnyLevel};
ghost use Rattle.tsd_model.specs.declared.requests.Level.TheVariants as level;

use crate::holding::Holding;
use crate::origins::Origins;
use arrayvec::ArrayVec;
use std::alloc::Global;
use std::marker::Model;
use tsd_model::Level;
use tsd_model::needs::{SESSIONS, is_no_session};

/// Why a session isn't opened. Nothing has changed then.
#[derive(Clone, Copy, Debug, PartialEq, Eq)]
pub enum BeginRefusal {
    /// The session isn't in 1 to 64.
    BadSession,

    /// The session is open already.
    AlreadyOpen,

    /// No memory was found for what the session may hold.
    NoMemory,
}

/// Why a session isn't closed. Nothing has changed then.
#[derive(Clone, Copy, Debug, PartialEq, Eq)]
pub enum EndRefusal {
    /// The session isn't in 1 to 64.
    BadSession,

    /// The session isn't open.
    NotOpen,
}

/// Which sessions are open and what each holds, for a disk of so many blocks, so many of them primary. Contracts see
/// these two numbers and the sessions of the definition.
#[derive(Drop)]
pub struct Grants {
    alloc: Global,
    blocks: u32,
    primaries: u32,
    held: ArrayVec<Option<Holding>, SESSIONS>,
}

impl Model for Grants {
    ghost use Rattle.grant_table.specs.Table.{Table, IsTable};

    ghost Value = { Table };

    ghost view = { λ g. record { blocks = g.blocks; primaries = g.primaries; sessions = g.held.items } };

    ghost invariant = { λ g. IsTable (record { blocks = g.blocks; primaries = g.primaries; sessions = g.held.items }) };
}

impl Grants {
    ghost use Rattle.grant_table.specs.Table.{Table, IsTable, with_sessions, begun_in, dropped_at, begin_rule};
    ghost use Rattle.grant_table.specs.Table.{end_rule, begin_verdict, end_verdict, IsHeldAt};

    /// No session is open.
    pub fn new(alloc: Global, blocks: u32, primaries: u32) -> Grants
        requires { primaries ≤ 16 }
        ensures { result ≡ record { blocks = blocks; primaries = primaries; sessions = no_sessions } }
    {
        let mut held = ArrayVec::new();
        for position in 0..SESSIONS {
            held.push(None);
        }
        Grants {
            alloc,
            blocks,
            primaries,
            held,
        }
    }

    /// For how many blocks it was made.
    pub fn blocks(&self) -> u32
        ensures value { result ≡ self.now.blocks }
        ensures table { IsTable self.now }
    {
        self.blocks
    }

    /// For how many primary blocks it was made.
    pub fn primaries(&self) -> u32
        ensures value { result ≡ self.now.primaries }
        ensures table { IsTable self.now }
    {
        self.primaries
    }

    /// Opens a session, which holds nothing. This alone takes memory.
    pub fn begin(&mut self, session: u32) -> Result<(), BeginRefusal>
        /// promise (with granted, refused, unchanged): Refused exactly by the rules on sessions, want of memory aside,
        /// with nothing changed.
        ensures ok { OnOk result (self.new ≡ begun_in self.old session) }
        ensures granted { OnOk result (begin_verdict self.old.sessions session ≡ None) }
        ensures refused { IfErr result (λ r. begin_verdict self.old.sessions session ≡ begin_rule r) }
        ensures unchanged { OnErr result (self.new ≡ self.old) }
    {
        if is_no_session(session) {
            return Err(BeginRefusal::BadSession);
        }
        if self.is_begun(session) {
            return Err(BeginRefusal::AlreadyOpen);
        }
        match Holding::nothing(self.alloc, self.primaries, self.blocks) {
            Ok(holding) => {
                self.set(session, Some(holding));
                Ok(())
            }
            Err(_) => Err(BeginRefusal::NoMemory),
        }
    }

    /// Closes a session, and frees what it took.
    pub fn end(&mut self, session: u32) -> Result<(), EndRefusal>
        /// promise (with granted, refused, unchanged): Refused exactly by the rules on sessions, with nothing changed.
        ensures ok { OnOk result (self.new ≡ with_sessions self.old (session_ended self.old.sessions session)) }
        ensures granted { OnOk result (end_verdict self.old.sessions session ≡ None) }
        ensures refused { IfErr result (λ r. end_verdict self.old.sessions session ≡ end_rule r) }
        ensures unchanged { OnErr result (self.new ≡ self.old) }
    {
        if is_no_session(session) {
            return Err(EndRefusal::BadSession);
        }
        if !self.is_begun(session) {
            return Err(EndRefusal::NotOpen);
        }
        self.set(session, None);
        Ok(())
    }

    /// What a session holds, None exactly where it isn't open.
    pub(crate) fn holding(&self, session: u32) -> Option<&Holding>
        ensures held { MatchOption result (held_by self.now.sessions session ≡ None)
            (λ held. held_by self.now.sessions session ≡ Some held.now) }
        ensures table { IsTable self.now }
    {
        let held = self.held.as_slice();
        if session == 0 {
            return None;
        }
        match held.get((session - 1) as usize) {
            Some(Some(holding)) => Some(holding),
            _ => None,
        }
    }

    /// Whether a session is open.
    pub fn is_begun(&self, session: u32) -> bool
        ensures { result ≡ is_open self.now.sessions session }
    {
        self.holding(session).is_some()
    }

    /// The level that a session holds from a primary block at a block; nothing where it isn't open.
    pub fn level_from(&self, session: u32, block: u32, primary: u32) -> Level
        ensures { result ≡ level_from self.now.sessions session primary block }
    {
        match self.holding(session) {
            Some(holding) => holding.level_from(primary, block),
            None => Level::Bare,
        }
    }

    /// The greatest level that a session holds at a block, from any primary block.
    pub fn level(&self, session: u32, block: u32) -> Level
        ensures { result ≡ greatest_level self.now.sessions session block }
    {
        match self.holding(session) {
            Some(holding) => holding.level(block),
            None => Level::Bare,
        }
    }

    /// At a block the level from each primary block becomes the greater of itself and this one. Nothing changes where
    /// the session isn't open.
    pub fn raise(&mut self, session: u32, block: u32, origins: &Origins)
        ensures { (f : ℕ → AnyLevel) → ((o : ℕ) → o < self.old.primaries
            → f o ≡ slice_index_or origins.now o level.Bare)
            → self.new ≡ with_sessions self.old (raised_sessions self.old.sessions session block f) }
    {
        if session == 0 {
            return;
        }
        let position = (session - 1) as usize;
        let held = self.held.as_mut_slice();
        if position < held.len() {
            raise_held(&mut held[position], block, origins);
        }
    }

    /// Nothing is held at a block any more, in any session.
    pub fn drop_in_all(&mut self, block: u32)
        /// promise: No session holds anything at the block.
        ensures { self.new ≡ with_sessions self.old (dropped_at block self.old.sessions) }
    {
        drop_at_each(self.held.as_mut_slice(), block);
    }

    /// Nothing is held from a primary block any more, in any session and at any block.
    pub fn drop_from(&mut self, primary: u32)
        /// promise: No session holds anything from the primary block.
        ensures { self.new ≡ with_sessions self.old (dropped_from self.old.blocks primary self.old.sessions) }
    {
        drop_from_each(self.held.as_mut_slice(), primary);
    }

    fn set(&mut self, session: u32, holding: Option<Holding>)
        requires { IfSome holding (IsHeldAt self.old.blocks self.old.primaries) }
        ensures { self.new ≡ with_sessions self.old (with_held self.old.sessions session holding) }
    {
        if session == 0 {
            return;
        }
        let position = (session - 1) as usize;
        let held = self.held.as_mut_slice();
        if position < held.len() {
            held[position] = holding;
        }
    }
}

fn raise_held(held: &mut Option<Holding>, block: u32, origins: &Origins)
    ensures { held.new ≡ option_map (raised_held block (λ o. slice_index_or origins.now o level.Bare)) held.old }
{
    match held {
        Some(holding) => holding.raise(block, origins),
        None => {}
    }
}

fn drop_at(held: &mut Option<Holding>, block: u32)
    ensures { held.new ≡ option_map (map (λ levels. slice_set levels block level.Bare)) held.old }
{
    match held {
        Some(holding) => holding.drop_at(block),
        None => {}
    }
}

fn drop_from(held: &mut Option<Holding>, origin: u32)
    ensures { held.new ≡ option_map (λ h. slice_set h origin (replicate (length (slice_index_or h origin []))
        level.Bare)) held.old }
{
    match held {
        Some(holding) => holding.drop_from(origin),
        None => {}
    }
}

fn drop_at_each(held: &mut [Option<Holding>], block: u32)
    ensures { held.new ≡ map (option_map (map (λ levels. slice_set levels block level.Bare))) held.old }
{
    let count = held.len();
    for position in 0..count {
        drop_at(&mut held[position], block);
    }
}

fn drop_from_each(held: &mut [Option<Holding>], origin: u32)
    ensures { held.new ≡ map (option_map (λ h. slice_set h origin (replicate (length (slice_index_or h origin []))
        level.Bare))) held.old }
{
    let count = held.len();
    for position in 0..count {
        drop_from(&mut held[position], origin);
    }
}
