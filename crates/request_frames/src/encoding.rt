//! Requests as they are sent. Tests alone call it: it stands here as a law, that what is sent decodes back.

ghost use Rattle.std.specs.Prelude.{◌≡◌, ◌≢◌, ◌≤◌, [], ◌∷◌, length};
ghost use Rattle.request_frames.specs.Fields.{Code, Number, Show, AllFit, bytes_of};
ghost use Rattle.request_frames.specs.Requests.{IsBody, request_body, fields};
ghost use Rattle.request_frames.specs.Frames.{frame_of};

use crate::codes::{
    ALLOC, BEGIN, CONTIG, CREATE, DELETE, END, GET_FREE, LIST, READ, SET_CAP, SWEEP, WRITE,
};
use crate::frame_buf::FrameBuf;
use crate::writing::{put_cap, put_code, put_hint, put_number, put_shown};
use tsd_model::{Request, Shown};

/// The most bytes of a length, a code, a session, a block and what is shown.
const PLACE_ROOM: usize = 28;

/// Replaces the bytes by the frame of a request.
pub fn encode_request(request: &Request, into: &mut FrameBuf)
    requires { request.now ≢ Request.Bad }
    /// promise (with spelled): The frame of the one body of the request.
    ensures frame { into.new ≡ frame_of (request_body request.now) }
    ensures spelled { IsBody (request_body request.now) request.now }
{
    into.begin();
    put_request(into, request);
    into.end();
}

/// The body of a request, after room for its length.
fn put_request(into: &mut FrameBuf, request: &Request)
    requires some { request.now ≢ Request.Bad }
    requires empty { into.old ≡ 0 ∷ 0 ∷ [] }
    ensures body { into.new ≡ 0 ∷ 0 ∷ request_body request.now }
    ensures fits { AllFit (fields request.now) }
{
    match request {
        Request::Bad => {}
        Request::Begin { session } => {
            put_code(into, BEGIN);
            put_number(into, *session);
        }
        Request::End { session } => {
            put_code(into, END);
            put_number(into, *session);
        }
        Request::GetFree => put_code(into, GET_FREE),
        Request::Sweep {
            session,
            shown: cap,
        } => {
            put_code(into, SWEEP);
            put_number(into, *session);
            put_shown(into, cap);
        }
        Request::Read {
            session,
            block,
            shown: cap,
        } => {
            access(into, READ, *session, *block, cap);
        }
        Request::Write {
            session,
            block,
            shown: cap,
            bytes: all,
        } => {
            access(into, WRITE, *session, *block, cap);
            into.put(all.as_slice());
        }
        Request::Alloc {
            session,
            source,
            shown: cap,
            hint: near,
            count,
        } => {
            access(into, ALLOC, *session, *source, cap);
            put_hint(into, *near);
            put_number(into, *count);
        }
        Request::Contig {
            session,
            source,
            shown: cap,
            hint: near,
            count,
        } => {
            access(into, CONTIG, *session, *source, cap);
            put_hint(into, *near);
            put_number(into, *count);
        }
        Request::Create {
            session,
            source,
            shown: cap,
            target,
        } => {
            access(into, CREATE, *session, *source, cap);
            put_number(into, *target);
        }
        Request::Delete {
            session,
            source,
            shown: cap,
            target,
        } => {
            access(into, DELETE, *session, *source, cap);
            put_number(into, *target);
        }
        Request::SetCap {
            session,
            block,
            shown: cap,
            caps,
        } => {
            access(into, SET_CAP, *session, *block, cap);
            put_cap(into, &caps.read);
            put_cap(into, &caps.write);
        }
        Request::List {
            session,
            source,
            shown: cap,
            start,
        } => {
            access(into, LIST, *session, *source, cap);
            put_number(into, *start);
        }
    }
}

/// What most requests begin with.
fn access(into: &mut FrameBuf, code: u8, session: u32, block: u32, cap: &Shown)
    requires { into.old ≡ 0 ∷ 0 ∷ [] }
    ensures bytes { into.new ≡ 0 ∷ 0 ∷ bytes_of (Code code ∷ Number session ∷ Number block ∷ Show cap.now
        ∷ []) }
    ensures fits { AllFit (Number session ∷ Number block ∷ Show cap.now ∷ []) }
    ensures room { length into.new ≤ PLACE_ROOM }
{
    put_code(into, code);
    put_number(into, session);
    put_number(into, block);
    put_shown(into, cap);
}
