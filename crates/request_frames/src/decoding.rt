//! The request that a body spells.

ghost use Rattle.std.specs.Prelude.{◌≡◌, ◌<◌, ◌⊎◌, length, unwrap_or};
ghost use Rattle.tsd_model.specs.declared.requests.Request.{Request};
ghost use Rattle.tsd_model.specs.declared.requests.Request.TheVariants as ask;
ghost use Rattle.request_frames.specs.Requests.{IsBody};
ghost use Rattle.request_frames.specs.Reading.{begin_of, end_of, read_of, write_of, alloc_of, contig_of, free_of};
ghost use Rattle.request_frames.specs.Reading.{create_of, delete_of, set_cap_of, sweep_of, list_of, coded, asked};
ghost use Rattle.request_frames.specs.Reading.{ended, request_of};
ghost use Rattle.script_text.specs.Parsing.{request_parsed, request_said};

use crate::codes::{
    ALLOC, BEGIN, CONTIG, CREATE, DELETE, END, GET_FREE, LIST, READ, SET_CAP, SWEEP, WRITE,
};
use crate::reader::BodyReader;
use script_text::parsed::{Parsed, Sent, put_request};
use tsd_model::{CapPair, Request};

/// Puts the request that a body spells into the room for it, and Bad where it spells none.
pub fn decode_body(body: &[u8], into: &mut Request)
    // What is read is spelled so, from the first byte to the last.
    /// promise (with only, long): A request exactly where the body is its spelling, with nothing after the last field,
    /// and `Bad` exactly where it is none's.
    ensures spelled { (into.new ≡ Request.Bad) ⊎ IsBody body.now into.new }
    // What is spelled so is read: so no body has two requests. No body spells Bad.
    ensures only { (q : Request) → IsBody body.now q → into.new ≡ q }
    // A longer body is no request's.
    ensures long { 4122 < length body.now → into.new ≡ Request.Bad }
    // As a function that computes.
    ensures value { into.new ≡ request_of body.now }
{
    put_request(&read_body(body), into);
}

/// What a body says.
#[inline(never)]
#[tactic(auto, unfolding(crate::specs::Reading::request_of))]
fn read_body(body: &[u8]) -> Parsed<'_>
    ensures { unwrap_or (request_parsed result) ask.Bad ≡ request_of body.now }
{
    match asked(BodyReader::of(body)) {
        Some(parsed) => parsed,
        None => Parsed::Bad,
    }
}

#[tactic(auto, unfolding(crate::specs::Reading::asked))]
fn asked(mut reader: BodyReader<'_>) -> Option<Parsed<'_>>
    ensures { request_said result ≡ asked reader.entry }
{
    let code = reader.byte()?;
    coded(code, reader)
}

/// The request by its code.
#[tactic(auto, unfolding(crate::specs::Reading::coded))]
fn coded(code: u8, reader: BodyReader<'_>) -> Option<Parsed<'_>>
    ensures { request_said result ≡ coded code reader.entry }
{
    match code {
        BEGIN => begin(reader),
        END => end(reader),
        READ => read(reader),
        WRITE => write(reader),
        ALLOC => alloc(reader),
        CONTIG => contig(reader),
        GET_FREE => free(reader),
        CREATE => create(reader),
        DELETE => delete(reader),
        SET_CAP => set_cap(reader),
        SWEEP => sweep(reader),
        LIST => list(reader),
        _ => None,
    }
}

/// What was read, where no byte is left.
fn done<'a>(reader: BodyReader<'a>, parsed: Parsed<'a>) -> Option<Parsed<'a>>
    ensures { request_said result ≡ ended reader.entry (request_parsed parsed.entry) }
{
    if reader.is_empty() {
        Some(parsed)
    } else {
        None
    }
}

#[tactic(auto, unfolding(crate::specs::Reading::begin_of))]
fn begin(mut reader: BodyReader<'_>) -> Option<Parsed<'_>>
    ensures { request_said result ≡ begin_of reader.entry }
{
    let session = reader.number()?;
    done(reader, Parsed::Begin { session })
}

#[tactic(auto, unfolding(crate::specs::Reading::end_of))]
fn end(mut reader: BodyReader<'_>) -> Option<Parsed<'_>>
    ensures { request_said result ≡ end_of reader.entry }
{
    let session = reader.number()?;
    done(reader, Parsed::End { session })
}

#[tactic(auto, unfolding(crate::specs::Reading::read_of))]
fn read(mut reader: BodyReader<'_>) -> Option<Parsed<'_>>
    ensures { request_said result ≡ read_of reader.entry }
{
    let access = reader.access()?;
    done(reader, Parsed::Read { access })
}

#[tactic(auto, unfolding(crate::specs::Reading::write_of), using(crate::proofs::RequestLaws::all_written))]
fn write(mut reader: BodyReader<'_>) -> Option<Parsed<'_>>
    ensures { request_said result ≡ write_of reader.entry }
{
    let access = reader.access()?;
    Some(Parsed::Write {
        access,
        sent: Sent::Bytes(reader.left()),
    })
}

#[tactic(auto, unfolding(crate::specs::Reading::alloc_of))]
fn alloc(mut reader: BodyReader<'_>) -> Option<Parsed<'_>>
    ensures { request_said result ≡ alloc_of reader.entry }
{
    let access = reader.access()?;
    let hint = reader.hint()?;
    let count = reader.number()?;
    done(
        reader,
        Parsed::Alloc {
            access,
            hint,
            count,
        },
    )
}

#[tactic(auto, unfolding(crate::specs::Reading::contig_of))]
fn contig(mut reader: BodyReader<'_>) -> Option<Parsed<'_>>
    ensures { request_said result ≡ contig_of reader.entry }
{
    let access = reader.access()?;
    let hint = reader.hint()?;
    let count = reader.number()?;
    done(
        reader,
        Parsed::Contig {
            access,
            hint,
            count,
        },
    )
}

fn free(reader: BodyReader<'_>) -> Option<Parsed<'_>>
    ensures { request_said result ≡ free_of reader.entry }
{
    done(reader, Parsed::GetFree)
}

#[tactic(auto, unfolding(crate::specs::Reading::create_of))]
fn create(mut reader: BodyReader<'_>) -> Option<Parsed<'_>>
    ensures { request_said result ≡ create_of reader.entry }
{
    let access = reader.access()?;
    let target = reader.number()?;
    done(reader, Parsed::Create { access, target })
}

#[tactic(auto, unfolding(crate::specs::Reading::delete_of))]
fn delete(mut reader: BodyReader<'_>) -> Option<Parsed<'_>>
    ensures { request_said result ≡ delete_of reader.entry }
{
    let access = reader.access()?;
    let target = reader.number()?;
    done(reader, Parsed::Delete { access, target })
}

#[tactic(auto, unfolding(crate::specs::Reading::set_cap_of))]
fn set_cap(mut reader: BodyReader<'_>) -> Option<Parsed<'_>>
    ensures { request_said result ≡ set_cap_of reader.entry }
{
    let access = reader.access()?;
    let read = reader.cap()?;
    let write = reader.cap()?;
    let caps = CapPair { read, write };
    done(reader, Parsed::SetCap { access, caps })
}

#[tactic(auto, unfolding(crate::specs::Reading::sweep_of))]
fn sweep(mut reader: BodyReader<'_>) -> Option<Parsed<'_>>
    ensures { request_said result ≡ sweep_of reader.entry }
{
    let session = reader.number()?;
    let shown = reader.shown()?;
    done(reader, Parsed::Sweep { session, shown })
}

#[tactic(auto, unfolding(crate::specs::Reading::list_of))]
fn list(mut reader: BodyReader<'_>) -> Option<Parsed<'_>>
    ensures { request_said result ≡ list_of reader.entry }
{
    let access = reader.access()?;
    let start = reader.number()?;
    done(reader, Parsed::List { access, start })
}
