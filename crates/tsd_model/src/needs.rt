//! What a request names and needs.

ghost use Rattle.std.specs.Prelude.{◌≡◌, ◌∷◌};
ghost use Rattle.tsd_model.specs.Needs.{session_of, named_blocks, needs, wanted_blocks, wanted_pairs};
ghost use Rattle.tsd_model.specs.Verdict.{is_bad, is_begin, is_no_session, has_bad_session, has_bad_count};

use crate::caps::Shown;
use crate::requests::{Level, Request};
use arrayvec::ArrayVec;

/// How many sessions there are. They are numbered from 1.
pub const SESSIONS: usize = 64;

/// The greatest number of blocks that one request takes.
pub const COUNT_MAX: u32 = 32;

/// A level that is needed at a block, and what is shown there.
#[derive(Clone, Copy, Debug, Default, PartialEq, Eq)]
pub struct Need {
    /// The block.
    pub block: u32,

    /// The level.
    pub level: Level,

    /// What is shown.
    pub shown: Shown,
}

/// Whose a request is, None where it is of no session.
pub fn session_of(request: &Request) -> Option<u32>
    /// promise: The session in which the request comes, where it names one.
    ensures { result ≡ session_of request.now }
{
    match request {
        Request::Bad | Request::GetFree => None,
        Request::Begin { session }
        | Request::End { session }
        | Request::Read { session, .. }
        | Request::Write { session, .. }
        | Request::Alloc { session, .. }
        | Request::Contig { session, .. }
        | Request::Create { session, .. }
        | Request::Delete { session, .. }
        | Request::SetCap { session, .. }
        | Request::Sweep { session, .. }
        | Request::List { session, .. } => Some(*session),
    }
}

/// The blocks that a request names: the block or the source, then the target. A sweep names block 0.
pub fn named_blocks(request: &Request) -> ArrayVec<u32, 2>
    /// promise: The blocks that the request names, in order.
    ensures { result.items ≡ named_blocks request.now }
{
    let mut blocks = ArrayVec::new();
    match request {
        Request::Bad | Request::GetFree | Request::Begin { .. } | Request::End { .. } => {}
        Request::Read { block, .. }
        | Request::Write { block, .. }
        | Request::SetCap { block, .. } => blocks.push(*block),
        Request::Alloc { source, .. }
        | Request::Contig { source, .. }
        | Request::List { source, .. } => blocks.push(*source),
        Request::Create { source, target, .. } | Request::Delete { source, target, .. } => {
            blocks.push(*source);
            blocks.push(*target);
        }
        Request::Sweep { .. } => blocks.push(0),
    }
    blocks
}

/// What a request needs: a capability is shown at the block or the source; a sweep needs write at block 0.
pub fn needs(request: &Request) -> ArrayVec<Need, 2>
    /// promise: What the request needs: which level at which block, by the table of requests.
    ensures { result.items ≡ needs request.now }
{
    let mut needs = ArrayVec::new();
    match request {
        Request::Bad | Request::GetFree | Request::Begin { .. } | Request::End { .. } => {}
        Request::Read { block, shown, .. } => needs.push(need_of(*block, Level::Read, *shown)),
        Request::List { source, shown, .. } => needs.push(need_of(*source, Level::Read, *shown)),
        Request::Write { block, shown, .. } | Request::SetCap { block, shown, .. } => {
            needs.push(need_of(*block, Level::Write, *shown));
        }
        Request::Alloc { source, shown, .. }
        | Request::Contig { source, shown, .. }
        | Request::Delete { source, shown, .. } => {
            needs.push(need_of(*source, Level::Write, *shown));
        }
        Request::Create {
            source,
            shown,
            target,
            ..
        } => {
            needs.push(need_of(*source, Level::Write, *shown));
            needs.push(need_of(*target, Level::Write, Shown::Nothing));
        }
        Request::Sweep { shown, .. } => needs.push(need_of(0, Level::Write, *shown)),
    }
    needs
}

fn need_of(block: u32, level: Level, shown: Shown) -> Need
    ensures { result ≡ record { block = block; level = level; shown = shown } }
{
    Need {
        block,
        level,
        shown,
    }
}

/// How many free blocks a request takes.
pub fn wanted_blocks(request: &Request) -> Option<u32>
    /// promise: How many free blocks the request wants.
    ensures { result ≡ wanted_blocks request.now }
{
    match request {
        Request::Alloc { count, .. } | Request::Contig { count, .. } => Some(*count),
        _ => None,
    }
}

/// How many pointers a request adds.
pub fn wanted_pairs(request: &Request) -> Option<u32>
    /// promise: How many new pointers the request wants.
    ensures { result ≡ wanted_pairs request.now }
{
    match request {
        Request::Alloc { count, .. } | Request::Contig { count, .. } => Some(*count),
        Request::Create { .. } => Some(1),
        _ => None,
    }
}

/// Whether it is no request.
pub fn is_bad(request: &Request) -> bool
    /// promise: True exactly where the request is none, by the rule that looks at the request alone.
    ensures { result ≡ is_bad request.now }
{
    matches!(request, Request::Bad)
}

/// Whether it opens a session.
pub fn is_begin(request: &Request) -> bool
    ensures { result ≡ is_begin request.now }
{
    matches!(request, Request::Begin { .. })
}

/// Whether a number is none of a session: they are numbered from 1 to 64.
pub fn is_no_session(session: u32) -> bool
    ensures { result ≡ is_no_session session }
{
    session < 1 || SESSIONS < session as usize
}

/// Whether its session isn't in 1 to 64.
pub fn has_bad_session(request: &Request) -> bool
    ensures { result ≡ has_bad_session request.now }
{
    session_of(request).is_some_and(is_no_session)
}

/// Whether it takes blocks, and not 1 to 32 of them.
pub fn has_bad_count(request: &Request) -> bool
    ensures { result ≡ has_bad_count request.now }
{
    wanted_blocks(request).is_some_and(|count| count < 1 || COUNT_MAX < count)
}
