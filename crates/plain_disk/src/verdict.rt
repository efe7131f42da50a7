//! Which rule refuses a request.

ghost use Rattle.std.specs.Prelude.{◌≡◌, true, false, Some, None, OnOk, IfErr};
ghost use Rattle.tsd_model.specs.Needs.{named_blocks};
ghost use Rattle.tsd_model.specs.Verdict.{denied, is_already_open, is_not_open, has_bad_count, has_bad_size};
ghost use Rattle.tsd_model.specs.Verdict.{names_missing_block, names_free_block, sets_caps_elsewhere};
ghost use Rattle.tsd_model.specs.Verdict.{points_to_primary, adds_held_pair, deletes_missing_pair, wants_too_many};
ghost use Rattle.tsd_model.specs.Verdict.{finds_no_run, has_no_room, first_rule, session_rules, block_rules};
ghost use Rattle.tsd_model.specs.Verdict.{level_rules, pair_rules, room_rules, verdict};

use crate::placing::has_run;
use crate::sessions::{Sessions, attained};
use crate::world::World;
use tsd_model::levels::level_le;
use tsd_model::needs::{
    Need, has_bad_count, has_bad_session, is_bad, is_begin, named_blocks, needs, session_of,
    wanted_blocks, wanted_pairs,
};
use tsd_model::{Request, Rule};

fn is_already_open(sessions: &Sessions, request: &Request) -> bool
    ensures { result ≡ is_already_open sessions.now request.now }
{
    is_begin(request) && session_of(request).is_some_and(|session| sessions.is_open(session))
}

fn is_not_open(sessions: &Sessions, request: &Request) -> bool
    ensures { result ≡ is_not_open sessions.now request.now }
{
    !is_begin(request) && session_of(request).is_some_and(|session| !sessions.is_open(session))
}

fn has_bad_size(world: &World, request: &Request) -> bool
    ensures { result ≡ has_bad_size world.now request.now }
{
    match request {
        Request::Write { bytes, .. } => 512 * (world.geometry().sectors as usize) < bytes.len(),
        _ => false,
    }
}

fn check_session(sessions: &Sessions, request: &Request) -> Result<(), Rule>
    ensures ok { OnOk result (first_rule (session_rules sessions.now request.now) ≡ None) }
    ensures err { IfErr result (λ r. first_rule (session_rules sessions.now request.now) ≡ Some r) }
{
    if is_bad(request) {
        return Err(Rule::BadRequest);
    }
    if has_bad_session(request) {
        return Err(Rule::BadSession);
    }
    if is_already_open(sessions, request) {
        return Err(Rule::AlreadyOpen);
    }
    if is_not_open(sessions, request) {
        return Err(Rule::NotOpen);
    }
    Ok(())
}

fn names_missing_block(world: &World, request: &Request) -> bool
    ensures { result ≡ names_missing_block world.now request.now }
{
    let blocks = world.geometry().blocks;
    named_blocks(request)
        .as_slice()
        .iter()
        .any(|block| blocks <= *block)
}

fn names_free_block(world: &World, request: &Request) -> bool
    ensures { result ≡ names_free_block world.now request.now }
{
    named_blocks(request)
        .as_slice()
        .iter()
        .any(|block| world.is_free(*block))
}

fn sets_caps_elsewhere(world: &World, request: &Request) -> bool
    ensures { result ≡ sets_caps_elsewhere world.now request.now }
{
    match request {
        Request::SetCap { block, .. } => !world.is_primary(*block),
        _ => false,
    }
}

fn points_to_primary(world: &World, request: &Request) -> bool
    ensures { result ≡ points_to_primary world.now request.now }
{
    match request {
        Request::Create { target, .. } => world.is_primary(*target),
        _ => false,
    }
}

fn check_blocks(world: &World, request: &Request) -> Result<(), Rule>
    ensures ok { OnOk result (first_rule (block_rules world.now request.now) ≡ None) }
    ensures counted { OnOk result (has_bad_count request.now ≡ false) }
    ensures sized { OnOk result (has_bad_size world.now request.now ≡ false) }
    ensures err { IfErr result (λ r. first_rule (block_rules world.now request.now) ≡ Some r) }
{
    if has_bad_count(request) {
        return Err(Rule::BadCount);
    }
    if has_bad_size(world, request) {
        return Err(Rule::BadSize);
    }
    if names_missing_block(world, request) {
        return Err(Rule::NoSuchBlock);
    }
    if names_free_block(world, request) {
        return Err(Rule::FreeBlock);
    }
    if sets_caps_elsewhere(world, request) {
        return Err(Rule::NotPrimary);
    }
    if points_to_primary(world, request) {
        return Err(Rule::IsPrimary);
    }
    Ok(())
}

fn check_level(world: &World, sessions: &Sessions, session: u32, need: &Need) -> Result<(), Rule>
    ensures ok { OnOk result ((denied world.now sessions.now session need.now).applies ≡ false) }
    ensures err { IfErr result (λ r. ((denied world.now sessions.now session need.now).applies ≡ true)
        × ((denied world.now sessions.now session need.now).answer ≡ r)) }
{
    let found = attained(world, sessions, session, need.block, &need.shown);
    if level_le(need.level, found) {
        Ok(())
    } else {
        Err(Rule::Denied {
            attained: found,
            needed: need.level,
        })
    }
}

fn check_levels(world: &World, sessions: &Sessions, request: &Request) -> Result<(), Rule>
    ensures ok { OnOk result (first_rule (level_rules world.now sessions.now request.now) ≡ None) }
    ensures err { IfErr result (λ r. first_rule (level_rules world.now sessions.now request.now) ≡ Some r) }
{
    let session = session_of(request).unwrap_or(0);
    let needs = needs(request);
    for need in needs.as_slice() {
        check_level(world, sessions, session, need)?;
    }
    Ok(())
}

fn adds_held_pair(world: &World, request: &Request) -> bool
    ensures { result ≡ adds_held_pair world.now request.now }
{
    match request {
        Request::Create { source, target, .. } => world.holds(*source, *target),
        _ => false,
    }
}

fn deletes_missing_pair(world: &World, request: &Request) -> bool
    ensures { result ≡ deletes_missing_pair world.now request.now }
{
    match request {
        Request::Delete { source, target, .. } => !world.holds(*source, *target),
        _ => false,
    }
}

fn check_pair(world: &World, request: &Request) -> Result<(), Rule>
    ensures ok { OnOk result (first_rule (pair_rules world.now request.now) ≡ None) }
    ensures err { IfErr result (λ r. first_rule (pair_rules world.now request.now) ≡ Some r) }
{
    if adds_held_pair(world, request) {
        return Err(Rule::PointerExists);
    }
    if deletes_missing_pair(world, request) {
        return Err(Rule::NoPointer);
    }
    Ok(())
}

fn wants_too_many(world: &World, request: &Request) -> bool
    ensures { result ≡ wants_too_many world.now request.now }
{
    wanted_blocks(request).is_some_and(|count| world.free_count() < count)
}

fn finds_no_run(world: &World, request: &Request) -> bool
    requires { has_bad_count request.now ≡ false }
    ensures { result ≡ finds_no_run world.now request.now }
{
    match request {
        Request::Contig { count, .. } => !has_run(world, *count),
        _ => false,
    }
}

fn has_no_room(world: &World, request: &Request) -> bool
    ensures { result ≡ has_no_room world.now request.now }
{
    let held = world.pair_count() as u64;
    let slots = world.geometry().slots as u64;
    wanted_pairs(request).is_some_and(|more| slots < held + more as u64)
}

fn check_room(world: &World, request: &Request) -> Result<(), Rule>
    requires { has_bad_count request.now ≡ false }
    ensures ok { OnOk result (first_rule (room_rules world.now request.now) ≡ None) }
    ensures room { OnOk result (has_no_room world.now request.now ≡ false) }
    ensures err { IfErr result (λ r. first_rule (room_rules world.now request.now) ≡ Some r) }
{
    let free = world.free_count();
    let wanted = wanted_blocks(request).unwrap_or(0);
    if wants_too_many(world, request) {
        return Err(Rule::Full { free, wanted });
    }
    if finds_no_run(world, request) {
        return Err(Rule::NoRun { free, wanted });
    }
    if has_no_room(world, request) {
        return Err(Rule::PointersFull {
            held: world.pair_count(),
            max: world.geometry().slots,
        });
    }
    Ok(())
}

/// The first rule that refuses a request; Ok where none does.
pub fn verdict(world: &World, sessions: &Sessions, request: &Request) -> Result<(), Rule>
    ensures ok { OnOk result (verdict world.now sessions.now request.now ≡ None) }
    ensures counted { OnOk result (has_bad_count request.now ≡ false) }
    ensures sized { OnOk result (has_bad_size world.now request.now ≡ false) }
    ensures room { OnOk result (has_no_room world.now request.now ≡ false) }
    ensures err { IfErr result (λ r. verdict world.now sessions.now request.now ≡ Some r) }
{
    check_session(sessions, request)?;
    check_blocks(world, request)?;
    check_levels(world, sessions, request)?;
    check_pair(world, request)?;
    check_room(world, request)
}
