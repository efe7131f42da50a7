//! Which rule refuses a request.

ghost use Rattle.std.specs.Prelude.{◌≡◌, ◌<◌, nat_le, false, Some, None, OnOk, IfOk, IfErr, IfSome};
ghost use Rattle.std.specs.Prelude.{slice_get};
ghost use Rattle.tsd_model.specs.Needs.{needs};
ghost use Rattle.tsd_model.specs.World.{is_free, is_primary};
ghost use Rattle.tsd_model.specs.Verdict.{is_bad, is_begin, has_bad_session, is_already_open, is_not_open};
ghost use Rattle.tsd_model.specs.Verdict.{has_bad_count, has_bad_size, names_missing_block, names_free_block};
ghost use Rattle.tsd_model.specs.Verdict.{sets_caps_elsewhere, points_to_primary, adds_held_pair, deletes_missing_pair};
ghost use Rattle.tsd_model.specs.Verdict.{wants_too_many, finds_no_run, has_no_room, denied, first_rule, session_rules};
ghost use Rattle.tsd_model.specs.Verdict.{block_rules, level_rules, pair_rules, room_rules, verdict};
ghost use Rattle.grant_table.specs.Granted.{attained_for, at_source, at_target, IsDenied};
ghost use Rattle.grant_table.specs.Table.{IsMadeFor};

use crate::facts::DiskFacts;
use crate::grants::Grants;
use crate::origins::Origins;
use tsd_model::levels::level_le;
use tsd_model::needs::{
    Need, has_bad_count, has_bad_session, is_bad, is_begin, named_blocks, needs, session_of,
    wanted_blocks, wanted_pairs,
};
use tsd_model::{Request, Rule, SECTOR_BYTES};

/// The levels that a granted request attains where it needs one.
#[derive(Clone, Copy, Debug, PartialEq, Eq)]
pub struct Granted {
    /// At the block or the source; nothing where none is needed.
    pub source: Origins,

    /// At the target of a Create; nothing for other requests.
    pub target: Origins,
}

impl Grants {
    /// The first rule that refuses a request; else the levels that it attains where it needs one.
    pub fn verdict<F: DiskFacts>(&self, facts: &F, request: &Request) -> Result<Granted, Rule>
        requires { IsMadeFor (F.world facts.now) self.now }
        /// promise (with err): The definitions' verdict: the first rule that refuses, with its numbers, or the levels
        /// where they are needed, for any disk that tells its facts.
        ensures ok { OnOk result (verdict (F.world facts.now) self.now.sessions request.now ≡ None) }
        ensures source { IfOk result (λ g. g.source ≡ at_source (F.world facts.now) self.now.sessions request.now) }
        ensures target { IfOk result (λ g. g.target ≡ at_target (F.world facts.now) self.now.sessions request.now) }
        ensures err { IfErr result (λ r. verdict (F.world facts.now) self.now.sessions request.now ≡ Some r) }
    {
        self.check_session(request)?;
        check_blocks(facts, request)?;
        let granted = self.check_levels(facts, request)?;
        check_pair(facts, request)?;
        check_room(facts, request)?;
        Ok(granted)
    }

    fn is_already_open(&self, request: &Request) -> bool
        ensures { result ≡ is_already_open self.now.sessions request.now }
    {
        is_begin(request) && session_of(request).is_some_and(|session| self.is_begun(session))
    }

    fn is_not_open(&self, request: &Request) -> bool
        ensures { result ≡ is_not_open self.now.sessions request.now }
    {
        !is_begin(request) && session_of(request).is_some_and(|session| !self.is_begun(session))
    }

    fn check_session(&self, request: &Request) -> Result<(), Rule>
        ensures ok { OnOk result (first_rule (session_rules self.now.sessions request.now) ≡ None) }
        ensures err { IfErr result (λ r. first_rule (session_rules self.now.sessions request.now) ≡ Some r) }
    {
        if is_bad(request) {
            return Err(Rule::BadRequest);
        }
        if has_bad_session(request) {
            return Err(Rule::BadSession);
        }
        if self.is_already_open(request) {
            return Err(Rule::AlreadyOpen);
        }
        if self.is_not_open(request) {
            return Err(Rule::NotOpen);
        }
        Ok(())
    }

    fn check_levels<F: DiskFacts>(&self, facts: &F, request: &Request) -> Result<Granted, Rule>
        requires made { IsMadeFor (F.world facts.now) self.now }
        requires there { names_missing_block (F.world facts.now) request.now ≡ false }
        ensures ok { OnOk result (first_rule (level_rules (F.world facts.now) self.now.sessions request.now) ≡ None) }
        ensures source { IfOk result (λ g. g.source ≡ at_source (F.world facts.now) self.now.sessions request.now) }
        ensures target { IfOk result (λ g. g.target ≡ at_target (F.world facts.now) self.now.sessions request.now) }
        ensures err { IfErr result (λ r. first_rule (level_rules (F.world facts.now) self.now.sessions request.now)
            ≡ Some r) }
    {
        let session = session_of(request).unwrap_or(0);
        let source = self.check_need(facts, session, need_at(request, 0))?;
        let target = self.check_need(facts, session, need_at(request, 1))?;
        Ok(Granted { source, target })
    }

    /// What a session attains where it needs a level, or the rule that denies it.
    fn check_need<F: DiskFacts>(
        &self,
        facts: &F,
        session: u32,
        need: Option<Need>,
    ) -> Result<Origins, Rule>
        requires made { IsMadeFor (F.world facts.now) self.now }
        requires there { IfSome need (λ n. n.block < (F.world facts.now).geometry.blocks) }
        ensures ok { IfOk result (λ o. o ≡ attained_for (F.world facts.now) self.now.sessions session need) }
        ensures suffices { OnOk result
            (IfSome need (λ n. (denied (F.world facts.now) self.now.sessions session n).applies ≡ false)) }
        ensures err { IfErr result (λ r. IsDenied (F.world facts.now) self.now.sessions session need r) }
    {
        match need {
            Some(need) => self.check_level(facts, session, &need),
            None => Ok(Origins::bare()),
        }
    }

    fn check_level<F: DiskFacts>(
        &self,
        facts: &F,
        session: u32,
        need: &Need,
    ) -> Result<Origins, Rule>
        requires made { IsMadeFor (F.world facts.now) self.now }
        requires there { need.now.block < (F.world facts.now).geometry.blocks }
        ensures ok { IfOk result (λ o. o ≡ attained_for (F.world facts.now) self.now.sessions session
            (Some need.now)) }
        ensures suffices { OnOk result ((denied (F.world facts.now) self.now.sessions session need.now).applies
            ≡ false) }
        ensures err { IfErr result (λ r. IsDenied (F.world facts.now) self.now.sessions session (Some need.now) r) }
    {
        let origins = self.attained(facts, session, need.block, &need.shown);
        let found = origins.greatest();
        if level_le(need.level, found) {
            Ok(origins)
        } else {
            Err(Rule::Denied {
                attained: found,
                needed: need.level,
            })
        }
    }
}

/// The first or the second need of a request.
fn need_at(request: &Request, position: usize) -> Option<Need>
    ensures { result ≡ slice_get (needs request.now) position }
{
    needs(request).as_slice().get(position).copied()
}

fn has_bad_size<F: DiskFacts>(facts: &F, request: &Request) -> bool
    ensures { result ≡ has_bad_size (F.world facts.now) request.now }
{
    match request {
        Request::Write { bytes, .. } => SECTOR_BYTES * (facts.geometry().sectors as usize)
            < bytes.len(),
        _ => false,
    }
}

fn is_missing<F: DiskFacts>(facts: &F, block: u32) -> bool
    ensures { result ≡ nat_le (F.world facts.now).geometry.blocks block }
{
    facts.geometry().blocks <= block
}

fn names_missing_block<F: DiskFacts>(facts: &F, request: &Request) -> bool
    ensures { result ≡ names_missing_block (F.world facts.now) request.now }
{
    named_blocks(request)
        .as_slice()
        .iter()
        .any(|block| is_missing(facts, *block))
}

fn is_free<F: DiskFacts>(facts: &F, block: u32) -> bool
    ensures { result ≡ is_free (F.world facts.now) block }
{
    block < facts.geometry().blocks && !facts.live(block)
}

fn names_free_block<F: DiskFacts>(facts: &F, request: &Request) -> bool
    ensures { result ≡ names_free_block (F.world facts.now) request.now }
{
    named_blocks(request)
        .as_slice()
        .iter()
        .any(|block| is_free(facts, *block))
}

fn is_primary<F: DiskFacts>(facts: &F, block: u32) -> bool
    ensures { result ≡ is_primary (F.world facts.now) block }
{
    block < facts.geometry().primaries
}

fn sets_caps_elsewhere<F: DiskFacts>(facts: &F, request: &Request) -> bool
    ensures { result ≡ sets_caps_elsewhere (F.world facts.now) request.now }
{
    match request {
        Request::SetCap { block, .. } => !is_primary(facts, *block),
        _ => false,
    }
}

fn points_to_primary<F: DiskFacts>(facts: &F, request: &Request) -> bool
    ensures { result ≡ points_to_primary (F.world facts.now) request.now }
{
    match request {
        Request::Create { target, .. } => is_primary(facts, *target),
        _ => false,
    }
}

fn check_blocks<F: DiskFacts>(facts: &F, request: &Request) -> Result<(), Rule>
    ensures ok { OnOk result (first_rule (block_rules (F.world facts.now) request.now) ≡ None) }
    ensures counted { OnOk result (has_bad_count request.now ≡ false) }
    ensures there { OnOk result (names_missing_block (F.world facts.now) request.now ≡ false) }
    ensures err { IfErr result (λ r. first_rule (block_rules (F.world facts.now) request.now) ≡ Some r) }
{
    if has_bad_count(request) {
        return Err(Rule::BadCount);
    }
    if has_bad_size(facts, request) {
        return Err(Rule::BadSize);
    }
    if names_missing_block(facts, request) {
        return Err(Rule::NoSuchBlock);
    }
    if names_free_block(facts, request) {
        return Err(Rule::FreeBlock);
    }
    if sets_caps_elsewhere(facts, request) {
        return Err(Rule::NotPrimary);
    }
    if points_to_primary(facts, request) {
        return Err(Rule::IsPrimary);
    }
    Ok(())
}

fn adds_held_pair<F: DiskFacts>(facts: &F, request: &Request) -> bool
    requires { names_missing_block (F.world facts.now) request.now ≡ false }
    ensures { result ≡ adds_held_pair (F.world facts.now) request.now }
{
    match request {
        Request::Create { source, target, .. } => facts.has(*source, *target),
        _ => false,
    }
}

fn deletes_missing_pair<F: DiskFacts>(facts: &F, request: &Request) -> bool
    requires { names_missing_block (F.world facts.now) request.now ≡ false }
    ensures { result ≡ deletes_missing_pair (F.world facts.now) request.now }
{
    match request {
        Request::Delete { source, target, .. } => !facts.has(*source, *target),
        _ => false,
    }
}

fn check_pair<F: DiskFacts>(facts: &F, request: &Request) -> Result<(), Rule>
    requires { names_missing_block (F.world facts.now) request.now ≡ false }
    ensures ok { OnOk result (first_rule (pair_rules (F.world facts.now) request.now) ≡ None) }
    ensures err { IfErr result (λ r. first_rule (pair_rules (F.world facts.now) request.now) ≡ Some r) }
{
    if adds_held_pair(facts, request) {
        return Err(Rule::PointerExists);
    }
    if deletes_missing_pair(facts, request) {
        return Err(Rule::NoPointer);
    }
    Ok(())
}

fn wants_too_many<F: DiskFacts>(facts: &F, request: &Request) -> bool
    ensures { result ≡ wants_too_many (F.world facts.now) request.now }
{
    wanted_blocks(request).is_some_and(|count| facts.free() < count)
}

fn finds_no_run<F: DiskFacts>(facts: &F, request: &Request) -> bool
    requires { has_bad_count request.now ≡ false }
    ensures { result ≡ finds_no_run (F.world facts.now) request.now }
{
    match request {
        Request::Contig { count, .. } => !facts.has_run(*count),
        _ => false,
    }
}

fn has_no_room<F: DiskFacts>(facts: &F, request: &Request) -> bool
    ensures { result ≡ has_no_room (F.world facts.now) request.now }
{
    let held = facts.pointers() as u64;
    let slots = facts.geometry().slots as u64;
    wanted_pairs(request).is_some_and(|more| slots < held + more as u64)
}

fn check_room<F: DiskFacts>(facts: &F, request: &Request) -> Result<(), Rule>
    requires { has_bad_count request.now ≡ false }
    ensures ok { OnOk result (first_rule (room_rules (F.world facts.now) request.now) ≡ None) }
    ensures err { IfErr result (λ r. first_rule (room_rules (F.world facts.now) request.now) ≡ Some r) }
{
    let free = facts.free();
    let wanted = wanted_blocks(request).unwrap_or(0);
    if wants_too_many(facts, request) {
        return Err(Rule::Full { free, wanted });
    }
    if finds_no_run(facts, request) {
        return Err(Rule::NoRun { free, wanted });
    }
    if has_no_room(facts, request) {
        return Err(Rule::PointersFull {
            held: facts.pointers(),
            max: facts.geometry().slots,
        });
    }
    Ok(())
}
