//! Requests as they are printed. Tests alone call it: it stands here as a law, that what is printed parses back.

ghost use Rattle.std.specs.Prelude.{◌≡◌, ◌≢◌, ◌+◌, ◌<◌, ◌≤◌, [], ◌∷◌, ◌++◌, length};
ghost use Rattle.std.specs.List.{join_with_byte};
ghost use Rattle.script_text.specs.Grammar.{IsLine, IsField, Number, Show};
ghost use Rattle.script_text.specs.Texts.{field_text, request_text};

use crate::out_buf::OutBuf;
use crate::parse::LINE_MAX;
use crate::printing::{put_cap, put_data, put_hint, put_number, put_shown};
use tsd_model::{Request, Shown};

/// The most bytes of a request's name.
const NAME_MAX: usize = 6;

/// The most bytes of name, session, block and what is shown.
const PLACE_ROOM: usize = 61;

/// Replaces the bytes by the line of a request, which reads as this request, and a line feed. Numbers have no leading
/// zeros, and hexadecimal digits are of lower case.
pub fn print_request(request: &Request, into: &mut OutBuf)
    requires { request.now ≢ Request.Bad }
    /// promise (with reads): A line of the grammar, which reads as the request.
    ensures text { into.new ≡ request_text request.now ++ 10 ∷ [] }
    ensures reads { IsLine (request_text request.now) request.now }
{
    into.clear();
    request_words(into, request);
    into.put(b"\n".as_slice());
}

/// The line of a request.
fn request_words(into: &mut OutBuf, request: &Request)
    requires some { request.now ≢ Request.Bad }
    requires empty { into.old ≡ [] }
    ensures text { into.new ≡ request_text request.now }
    ensures room { length into.new < LINE_MAX }
    ensures reads { IsLine (request_text request.now) request.now }
{
    match request {
        Request::Bad => {}
        Request::Begin { session } => {
            into.put(b"open".as_slice());
            put_number(into, *session);
        }
        Request::End { session } => {
            into.put(b"close".as_slice());
            put_number(into, *session);
        }
        Request::GetFree => into.put(b"free".as_slice()),
        Request::Sweep {
            session,
            shown: cap,
        } => {
            into.put(b"sweep".as_slice());
            put_number(into, *session);
            put_shown(into, cap);
        }
        Request::Read {
            session,
            block,
            shown: cap,
        } => {
            access(into, b"read".as_slice(), *session, *block, cap);
        }
        Request::Write {
            session,
            block,
            shown: cap,
            bytes: all,
        } => {
            access(into, b"write".as_slice(), *session, *block, cap);
            put_data(into, all.as_slice());
        }
        Request::Alloc {
            session,
            source,
            shown: cap,
            hint: near,
            count,
        } => {
            access(into, b"alloc".as_slice(), *session, *source, cap);
            put_hint(into, *near);
            put_number(into, *count);
        }
        Request::Contig {
            session,
            source,
            shown: cap,
            hint: near,
            count,
        } => {
            access(into, b"contig".as_slice(), *session, *source, cap);
            put_hint(into, *near);
            put_number(into, *count);
        }
        Request::Create {
            session,
            source,
            shown: cap,
            target,
        } => {
            access(into, b"create".as_slice(), *session, *source, cap);
            put_number(into, *target);
        }
        Request::Delete {
            session,
            source,
            shown: cap,
            target,
        } => {
            access(into, b"delete".as_slice(), *session, *source, cap);
            put_number(into, *target);
        }
        Request::SetCap {
            session,
            block,
            shown: cap,
            caps,
        } => {
            access(into, b"setcap".as_slice(), *session, *block, cap);
            put_cap(into, &caps.read);
            put_cap(into, &caps.write);
        }
        Request::List {
            session,
            source,
            shown: cap,
            start,
        } => {
            access(into, b"list".as_slice(), *session, *source, cap);
            put_number(into, *start);
        }
    }
}

/// What most requests begin with.
fn access(into: &mut OutBuf, name: &[u8], session: u32, block: u32, cap: &Shown)
    requires short { length name.now ≤ NAME_MAX }
    requires empty { into.old ≡ [] }
    ensures text { into.new ≡ join_with_byte 32 (name.now ∷ field_text (Number session) ∷ field_text
        (Number block) ∷ field_text (Show cap.now) ∷ []) }
    ensures room { length into.new ≤ PLACE_ROOM }
    ensures session { IsField (Number session) (field_text (Number session)) }
    ensures block { IsField (Number block) (field_text (Number block)) }
    ensures shown { IsField (Show cap.now) (field_text (Show cap.now)) }
{
    into.put(name);
    put_number(into, session);
    put_number(into, block);
    put_shown(into, cap);
}
