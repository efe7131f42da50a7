//! The levels that a session attains at a block.

ghost use Rattle.std.specs.Prelude.{◌≡◌, ℕ, ◌<◌, ◌≤◌, [], length, slice_index_or, IsTrue};
ghost use Rattle.std.specs.Prelude.{MatchOption};
ghost use Rattle.tsd_model.specs.Geometry.{IsLawful};
ghost use Rattle.tsd_model.specs.Attained.{led_level};
ghost use Rattle.tsd_model.specs.Next.{IsLeast};
ghost use Rattle.tsd_model.specs.Pairs.{holds};
ghost use Rattle.tsd_model.specs.Sessions.{Sessions as AllSessions, levels_from};
ghost use Rattle.tsd_model.specs.declared.requests.Level.TheVariants as level;
ghost use Rattle.grant_table.specs.Granted.{attained_at};
ghost use Rattle.grant_table.specs.Led.{AreFound};
ghost use Rattle.grant_table.specs.Table.{IsHeldAt, IsMadeFor};

use crate::facts::DiskFacts;
use crate::grants::Grants;
use crate::holding::Holding;
use crate::origins::Origins;
use std::cmp::{max, min};
use tsd_model::{Geometry, Shown};

/// So many sources are asked before any block at which something is held: few blocks have more.
const FIRST_SOURCES: u32 = 8;

/// How many words of each kind of level a step over the held blocks looks at, at most.
const STEP_WORDS: u32 = 256;

/// How many blocks a word tells of.
const WORD_BITS: u32 = 64;

impl Grants {
    /// The level that a session attains at a block, from each primary block. At a primary block it is what is shown
    /// there that counts; at another block what the session holds at the sources of the pairs to it, as the pairs are
    /// now.
    pub fn attained<F: DiskFacts>(
        &self,
        facts: &F,
        session: u32,
        block: u32,
        shown: &Shown,
    ) -> Origins
        requires made { IsMadeFor (F.world facts.now) self.now }
        requires within { block < (F.world facts.now).geometry.blocks }
        /// promise: The access that a session has at a block, from each primary block, for any disk that tells its
        /// facts.
        ensures { result ≡ attained_at (F.world facts.now) self.now.sessions session block shown.now }
    {
        if block < facts.geometry().primaries {
            shown_origins(facts, block, shown)
        } else {
            self.led_origins(facts, session, block)
        }
    }

    fn led_origins<F: DiskFacts>(&self, facts: &F, session: u32, block: u32) -> Origins
        requires made { IsMadeFor (F.world facts.now) self.now }
        requires within { block < (F.world facts.now).geometry.blocks }
        ensures sized { length result ≡ 16 }
        ensures each { (o : ℕ) → o < 16 → slice_index_or result o level.Bare
            ≡ led_level (levels_from self.now.sessions session o) block (F.world facts.now).pairs }
        ensures others { (o : ℕ) → (F.world facts.now).geometry.primaries ≤ o
            → levels_from self.now.sessions session o ≡ [] }
    {
        match self.holding(session) {
            Some(holding) => led_by(holding, facts, block),
            None => Origins::bare(),
        }
    }
}

/// What is shown at a primary block counts, and comes from that block.
fn shown_origins<F: DiskFacts>(facts: &F, block: u32, shown: &Shown) -> Origins
    requires { block < (F.world facts.now).geometry.primaries }
    ensures { (v : AllSessions) (s : ℕ) → result ≡ attained_at (F.world facts.now) v s block shown.now }
{
    let _geometry = facts.geometry();
    let mut origins = Origins::bare();
    origins.raise(block, facts.shown_level(block, shown));
    origins
}

/// The greatest levels held at the sources of the pairs to a block. After the first sources two sides take turns, the
/// other sources and the blocks at which anything is held: each alone finds what counts, and the first to end ends
/// both. So does write from each origin.
fn led_by<F: DiskFacts>(holding: &Holding, facts: &F, block: u32) -> Origins
    requires held { IsHeldAt (F.world facts.now).geometry.blocks (F.world facts.now).geometry.primaries holding.now }
    requires within { block < (F.world facts.now).geometry.blocks }
    ensures sized { length result ≡ 16 }
    ensures each { (o : ℕ) → o < 16 → slice_index_or result o level.Bare
        ≡ led_level (slice_index_or holding.now o []) block (F.world facts.now).pairs }
{
    let geometry = facts.geometry();
    let mut best = Origins::bare();
    let mut start = 0;
    let mut below = 0;
    let mut alone = FIRST_SOURCES;
    while below < geometry.blocks && !best.are_write(geometry.primaries) {
        let Some(source) = next_source_within(facts, block, start, geometry.blocks) else {
            return best;
        };
        holding.add_to(source, &mut best);
        start = source + 1;
        if alone > 0 {
            alone -= 1;
        } else {
            below = add_held(holding, facts, block, below, &mut best);
        }
    }
    best
}

/// A step over the blocks at which anything is held, which takes about as long as one over the sources. Below its
/// result they are counted.
fn add_held<F: DiskFacts>(
    holding: &Holding,
    facts: &F,
    block: u32,
    start: u32,
    best: &mut Origins,
) -> u32
    requires within { block < (F.world facts.now).geometry.blocks }
    requires start { start < (F.world facts.now).geometry.blocks }
    requires found { AreFound holding.now (F.world facts.now).pairs block start best.old }
    ensures on { result ≤ (F.world facts.now).geometry.blocks }
    ensures found { AreFound holding.now (F.world facts.now).pairs block result best.new }
    ensures kept { (n : ℕ) → AreFound holding.now (F.world facts.now).pairs block n best.old
        → AreFound holding.now (F.world facts.now).pairs block n best.new }
{
    let geometry = facts.geometry();
    let end = step_end(start, &geometry);
    let next = holding.bare_until(start, end);
    if next == end {
        return end;
    }
    if !facts.has(next, block) {
        return next + 1;
    }
    holding.add_to(next, best);
    next + 1
}

/// Where a step over the blocks ends: so many words further on, of all origins together.
fn step_end(start: u32, geometry: &Geometry) -> u32
    requires lawful { IsLawful geometry.now }
    requires within { start < geometry.now.blocks }
    ensures { (start < result) × (result ≤ geometry.now.blocks) }
{
    let step = max(STEP_WORDS / geometry.primaries, 1) * WORD_BITS;
    min(start - start % step + step, geometry.blocks)
}

/// The next source that is below a number: at no other block is anything held.
fn next_source_within<F: DiskFacts>(facts: &F, block: u32, start: u32, end: u32) -> Option<u32>
    requires { block < (F.world facts.now).geometry.blocks }
    ensures { MatchOption result ((a : ℕ) → IsTrue (holds (F.world facts.now).pairs a block) → start ≤ a
        → end ≤ a) (λ a. IsLeast (λ n. holds (F.world facts.now).pairs n block) start a × (a < end)) }
{
    match facts.next_source(block, start) {
        Some(source) if source < end => Some(source),
        _ => None,
    }
}
