//! One request: what it changes and what is answered.

ghost use Rattle.std.specs.Prelude.{◌≡◌, ◌≤◌, ◌<◌, ◌+◌, ◌^◌, ◌++◌, ◌∷◌, ◌==◌};
ghost use Rattle.std.specs.Prelude.{◌&&◌, [], false, take, nat_le, length, unwrap_or, None, IfOk};
ghost use Rattle.std.specs.Option.{ForSome};
ghost use Rattle.tsd_model.specs.Geometry.{block_len};
ghost use Rattle.tsd_model.specs.World.{contents};
ghost use Rattle.tsd_model.specs.Records.{kept};
ghost use Rattle.tsd_model.specs.Sessions.{session_begun, session_ended, dropped_from};
ghost use Rattle.tsd_model.specs.Reach.{swept};
ghost use Rattle.tsd_model.specs.Doomed.{settle};
ghost use Rattle.tsd_model.specs.Placing.{chosen, chosen_run};
ghost use Rattle.tsd_model.specs.Step.{gives, done, filled, with_contents, with_pointer, with_caps, raised_by, run_at};
ghost use Rattle.tsd_model.specs.Step.{without_pointer, targets_from, with_new_blocks, allocated, reclaimed, change};
ghost use Rattle.tsd_model.specs.Step.{step};
ghost use Rattle.tsd_model.specs.Valid.{IsValid};
ghost use Rattle.tsd_model.specs.Verdict.{has_bad_count, has_bad_size, has_no_room};
ghost use Rattle.disk_laws.specs.Reached.{KeepsWhatIsReached};
ghost use Rattle.disk_laws.specs.Reclaiming.{is_sweep, ReclaimsTheLost};

use crate::graph::{plain_doomed, plain_reach};
use crate::placing::{choose, choose_run};
use crate::sessions::Sessions;
use crate::verdict::verdict;
use crate::world::{Block, World};
use std::alloc::{AllocError, Global};
use tsd_model::needs::{needs, session_of};
use tsd_model::records::kept;
use tsd_model::{BlockList, CapPair, Data, Hint, NoMemory, PlaceKind, Reply, Request};

/// Carries out one request: the world and the sessions after it, and the reply. The reply is never `Reply::NoMemory`;
/// want of memory is `Err(NoMemory)` at every request.
///
/// At a valid world a request reclaims no block that is reached after it; and one that isn't a sweep reclaims exactly
/// the blocks that have lost their last pointer.
pub fn plain_step(
    alloc: Global,
    kind: PlaceKind,
    world: &World,
    sessions: &Sessions,
    request: &Request,
) -> Result<(World, Sessions, Reply), NoMemory>
    /// promise: **The request is carried out exactly as the abstract disk's definitions say**: the world afterwards,
    /// the sessions and the reply.
    ensures value { IfOk result (λ r. gives r.0 r.1 r.2
        ≡ step kind (record { world = world.now; sessions = sessions.now }) request.now) }
    /// promise: At a valid world no block that is still reached afterwards is reclaimed.
    ensures reached { IsValid world.now → IfOk result (λ r. KeepsWhatIsReached world.now r.0) }
    /// promise: At a valid world a request that isn't a sweep reclaims exactly the blocks that have lost their last
    /// pointer.
    ensures last_pointer { IsValid world.now → is_sweep request.now ≡ false
        → IfOk result (λ r. ReclaimsTheLost world.now r.0) }
{
    carry_out(alloc, kind, world, sessions, request)
}

/// The world, the sessions and the reply, as the definitions say.
fn carry_out(
    alloc: Global,
    kind: PlaceKind,
    world: &World,
    sessions: &Sessions,
    request: &Request,
) -> Result<Changed, NoMemory>
    ensures { IfOk result (λ r. gives r.0 r.1 r.2 ≡ step kind (record { world = world.now; sessions = sessions.now })
        request.now) }
{
    match verdict(world, sessions, request) {
        Err(rule) => Ok((
            world.copy(alloc)?,
            sessions.copy(alloc)?,
            Reply::Refused(rule),
        )),
        Ok(()) => {
            let raised = raised_by(alloc, world, sessions, request)?;
            let (next, held, reply) = change(alloc, kind, world, raised, request)?;
            let fitted = held.at_live(alloc, &next)?;
            Ok((next, fitted, reply))
        }
    }
}

/// The levels after a granted request: where one was needed, it becomes the greater of the old and the attained one.
fn raised_by(
    alloc: Global,
    world: &World,
    sessions: &Sessions,
    request: &Request,
) -> Result<Sessions, AllocError>
    ensures { IfOk result (λ v. v ≡ raised_by world.now sessions.now request.now) }
{
    let mut now = sessions.copy(alloc)?;
    if let Some(session) = session_of(request) {
        let needs = needs(request);
        for need in needs.as_slice() {
            now = now.raise(alloc, world, sessions, session, need)?;
        }
    }
    Ok(now)
}

/// The world and the sessions after a granted request, and the reply.
type Changed = (World, Sessions, Reply);

/// What a granted request changes, and its reply.
fn change(
    alloc: Global,
    kind: PlaceKind,
    world: &World,
    sessions: Sessions,
    request: &Request,
) -> Result<Changed, NoMemory>
    requires counted { has_bad_count request.now ≡ false }
    requires sized { has_bad_size world.now request.now ≡ false }
    requires room { has_no_room world.now request.now ≡ false }
    ensures { IfOk result (λ r. gives r.0 r.1 r.2 ≡ change kind world.now sessions request.now) }
{
    match request {
        Request::Bad => unchanged(alloc, world, sessions, Reply::Done),
        Request::Begin { session } => begin(alloc, world, sessions, *session),
        Request::End { session } => end(alloc, world, sessions, *session),
        Request::Read { block, .. } => {
            unchanged(alloc, world, sessions, Reply::Bytes(data_of(world, *block)))
        }
        Request::Write { block, bytes, .. } => write(alloc, world, sessions, *block, bytes),
        Request::Alloc {
            source,
            hint,
            count,
            ..
        } => { allocate(alloc, kind, world, sessions, *source, hint, *count) }
        Request::Contig {
            source,
            hint,
            count,
            ..
        } => { allocate_run(alloc, kind, world, sessions, *source, hint, *count) }
        Request::GetFree => unchanged(alloc, world, sessions, Reply::Free(world.free_count())),
        Request::Create { source, target, .. } => create(alloc, world, sessions, *source, *target),
        Request::Delete { source, target, .. } => delete(alloc, world, sessions, *source, *target),
        Request::SetCap { block, caps, .. } => set_caps(alloc, world, sessions, *block, caps),
        Request::Sweep { .. } => sweep(alloc, world, sessions),
        Request::List { source, start, .. } => {
            let targets = targets_from(world.pairs(), *source, *start);
            unchanged(alloc, world, sessions, Reply::Targets(targets))
        }
    }
}

fn unchanged(
    alloc: Global,
    world: &World,
    sessions: Sessions,
    reply: Reply,
) -> Result<Changed, NoMemory>
    ensures { IfOk result (λ r. gives r.0 r.1 r.2 ≡ gives world.now sessions reply) }
{
    Ok((world.copy(alloc)?, sessions, reply))
}

fn begin(
    alloc: Global,
    world: &World,
    sessions: Sessions,
    session: u32,
) -> Result<Changed, NoMemory>
    ensures { IfOk result (λ r. gives r.0 r.1 r.2 ≡ done world.now (session_begun world.now sessions session)) }
{
    let begun = sessions.begun(alloc, world, session)?;
    unchanged(alloc, world, begun, Reply::Done)
}

fn end(alloc: Global, world: &World, sessions: Sessions, session: u32) -> Result<Changed, NoMemory>
    ensures { IfOk result (λ r. gives r.0 r.1 r.2 ≡ done world.now (session_ended sessions session)) }
{
    unchanged(alloc, world, sessions.ended(session), Reply::Done)
}

fn write(
    alloc: Global,
    world: &World,
    sessions: Sessions,
    block: u32,
    bytes: &Data,
) -> Result<Changed, NoMemory>
    requires { length bytes.now ≤ block_len world.now.geometry }
    ensures { IfOk result (λ r. gives r.0 r.1 r.2
        ≡ done (with_contents world.now block (filled (block_len world.now.geometry) bytes.now)) sessions) }
{
    let mut next = world.copy(alloc)?;
    let filled = Block::filled(alloc, world.block_len(), bytes.as_slice())?;
    next.set_block(block, filled);
    Ok((next, sessions, Reply::Done))
}

fn allocate(
    alloc: Global,
    kind: PlaceKind,
    world: &World,
    sessions: Sessions,
    source: u32,
    hint: &Hint,
    count: u32,
) -> Result<Changed, NoMemory>
    requires counted { count ≤ 32 }
    requires room { length world.now.pairs + count ≤ world.now.geometry.slots }
    ensures { IfOk result (λ r. gives r.0 r.1 r.2 ≡ allocated world.now sessions source
        (chosen kind world.now hint.now count)) }
{
    let blocks = choose(alloc, kind, world, hint, count)?;
    take(alloc, world, sessions, source, blocks.as_slice())
}

fn allocate_run(
    alloc: Global,
    kind: PlaceKind,
    world: &World,
    sessions: Sessions,
    source: u32,
    hint: &Hint,
    count: u32,
) -> Result<Changed, NoMemory>
    requires counted { count ≤ 32 }
    requires room { length world.now.pairs + count ≤ world.now.geometry.slots }
    ensures { IfOk result (λ r. gives r.0 r.1 r.2 ≡ allocated world.now sessions source
        (run_at (chosen_run kind world.now hint.now count) count)) }
{
    let first = choose_run(alloc, kind, world, hint, count)?;
    let blocks = run_at(alloc, first, count)?;
    take(alloc, world, sessions, source, blocks.as_slice())
}

/// Makes these blocks live, with zeros, and points to each from the source.
fn take(
    alloc: Global,
    world: &World,
    sessions: Sessions,
    source: u32,
    blocks: &[u32],
) -> Result<Changed, NoMemory>
    requires count { length blocks.now ≤ 32 }
    requires room { length world.now.pairs + length blocks.now ≤ world.now.geometry.slots }
    ensures { IfOk result (λ r. gives r.0 r.1 r.2 ≡ allocated world.now sessions source blocks.now) }
{
    let next = with_new_blocks(alloc, world, source, blocks)?;
    let mut taken = BlockList::new();
    let _fits = taken.extend_from_slice(blocks);
    Ok((next, sessions, Reply::Blocks(taken)))
}

fn create(
    alloc: Global,
    world: &World,
    sessions: Sessions,
    source: u32,
    target: u32,
) -> Result<Changed, NoMemory>
    requires { length world.now.pairs < world.now.geometry.slots }
    ensures { IfOk result (λ r. gives r.0 r.1 r.2 ≡ done (with_pointer world.now source target) sessions) }
{
    let mut next = world.copy(alloc)?;
    next.add_pointer(source, target)?;
    Ok((next, sessions, Reply::Done))
}

/// Deletes a pointer and reclaims what is doomed then.
fn delete(
    alloc: Global,
    world: &World,
    sessions: Sessions,
    source: u32,
    target: u32,
) -> Result<Changed, NoMemory>
    ensures { IfOk result (λ r. gives r.0 r.1 r.2 ≡ reclaimed world.now sessions
        (settle (without_pointer world.now source target))) }
{
    let raw = world.without_pointer(alloc, source, target)?;
    let doomed = plain_doomed(alloc, &raw)?;
    let left = raw.restricted(alloc, doomed.as_slice(), false)?;
    reclaim(alloc, world, sessions, left)
}

/// Reclaims the blocks that no primary block leads to.
fn sweep(alloc: Global, world: &World, sessions: Sessions) -> Result<Changed, NoMemory>
    ensures { IfOk result (λ r. gives r.0 r.1 r.2 ≡ reclaimed world.now sessions (swept world.now)) }
{
    let reached = plain_reach(alloc, world)?;
    let left = world.restricted(alloc, reached.as_slice(), true)?;
    reclaim(alloc, world, sessions, left)
}

/// What is left of a world, and how many blocks became free.
fn reclaim(
    alloc: Global,
    world: &World,
    sessions: Sessions,
    left: World,
) -> Result<Changed, NoMemory>
    ensures { IfOk result (λ r. gives r.0 r.1 r.2 ≡ reclaimed world.now sessions left) }
{
    let gone = left.free_count().saturating_sub(world.free_count());
    Ok((left, sessions, Reply::Gone(gone)))
}

fn set_caps(
    alloc: Global,
    world: &World,
    sessions: Sessions,
    block: u32,
    caps: &CapPair,
) -> Result<Changed, NoMemory>
    ensures { IfOk result (λ r. gives r.0 r.1 r.2
        ≡ done (with_caps world.now block (kept world.now.version caps.now)) (dropped_from (length world.now.blocks)
        block sessions)) }
{
    let mut next = world.copy(alloc)?;
    next.set_record(block, kept(world.version(), caps));
    let left = sessions.without_origin(alloc, world.geometry().blocks, block)?;
    Ok((next, left, Reply::Done))
}

/// The bytes of a block; none where it is free.
fn data_of(world: &World, block: u32) -> Data
    ensures { result ≡ unwrap_or (contents world.now block) [] }
{
    let mut bytes = Data::new();
    if let Some(found) = world.bytes_of(block) {
        let _fits = bytes.extend_from_slice(found);
    }
    bytes
}

fn with_new_blocks(
    alloc: Global,
    world: &World,
    source: u32,
    blocks: &[u32],
) -> Result<World, AllocError>
    requires { length world.now.pairs + length blocks.now ≤ world.now.geometry.slots }
    ensures { IfOk result (λ w. w ≡ with_new_blocks world.now source blocks.now) }
{
    let mut next = world.copy(alloc)?;
    let len = world.block_len();
    for block in blocks {
        next.set_block(*block, Block::zeros(alloc, len)?);
        next.add_pointer(source, *block)?;
    }
    Ok(next)
}

/// So many blocks in a row; none where no run was found.
fn run_at(alloc: Global, first: Option<u32>, count: u32) -> Result<Vec<u32>, AllocError>
    requires first { ForSome first (λ b. b < 2 ^ 31) }
    requires counted { count < 2 ^ 31 }
    ensures value { IfOk result (λ v. v.items ≡ run_at first count) }
    ensures counted { IfOk result (λ v. length v.items ≤ count) }
{
    match first {
        None => Ok(Vec::new(alloc)),
        Some(first) => (first..first + count).collect(alloc),
    }
}

#[tactic(auto, using(crate::proofs::StepLaws::targets_from_more))]
/// The least 64 targets of a block that are not below `start`.
fn targets_from(pairs: &[(u32, u32)], source: u32, start: u32) -> BlockList
    ensures { result ≡ targets_from pairs.now source start }
{
    let mut targets = BlockList::new();
    for pair in pairs {
        targets.push_wanted(pair.1, is_target(*pair, source, start));
    }
    targets
}

fn is_target(pair: (u32, u32), source: u32, start: u32) -> bool
    ensures { result ≡ ((pair.0 == source) && nat_le start pair.1) }
{
    pair.0 == source && start <= pair.1
}
