//! The request that a line spells.
//!
//! A line has words that are parted by exactly one space. The first is a name, and the name says what the others are.

ghost use Rattle.std.specs.Prelude.{◌≡◌, ◌⊎◌, ℕ, List, take, unwrap_or};
ghost use Rattle.tsd_model.specs.declared.requests.Request.{Request};
ghost use Rattle.tsd_model.specs.declared.requests.Request.TheVariants as ask;
ghost use Rattle.script_text.specs.Grammar.{IsLine, held_max};
ghost use Rattle.script_text.specs.Reading.{begin_of, end_of, read_of, write_of, alloc_of, contig_of, free_of};
ghost use Rattle.script_text.specs.Reading.{create_of, delete_of, set_cap_of, sweep_of, list_of, named, asked};
ghost use Rattle.script_text.specs.Reading.{request_of};
ghost use Rattle.script_text.specs.Parsing.{ended, request_parsed, request_said};

use crate::parsed::{Parsed, Sent, put_request};
use crate::words::Words;
use tsd_model::{CapPair, Request};

/// The most bytes of a line, its line feed not counted.
pub const LINE_MAX: usize = 8400;

/// Puts the request that a line spells into the room for it, and Bad where it spells none. The line comes without its
/// line feed.
pub fn parse_line(line: &[u8], into: &mut Request)
    // What is read is spelled so.
    /// promise (with only): A request exactly where the line is its spelling by the grammar, and `Bad` exactly where it
    /// is none's; so no line has two requests.
    ensures spelled { (into.new ≡ Request.Bad) ⊎ IsLine line.now into.new }
    // What is spelled so is read: so no line has two requests. No line spells Bad.
    ensures only { (q : Request) → IsLine line.now q → into.new ≡ q }
    // A longer line is as bad where it is cut to one byte more than a line may have.
    /// promise: A line that is too long is as bad where it is cut.
    ensures cut { (whole : List ℕ) → line.now ≡ take held_max whole → into.new ≡ request_of whole }
    // As a function that computes.
    ensures value { into.new ≡ request_of line.now }
{
    put_request(&read_line(line), into);
}

/// What a line says.
#[inline(never)]
#[tactic(auto, unfolding(crate::specs::Reading::request_of))]
fn read_line(line: &[u8]) -> Parsed<'_>
    ensures { unwrap_or (request_parsed result) ask.Bad ≡ request_of line.now }
{
    if line.len() > LINE_MAX {
        return Parsed::Bad;
    }
    match asked(Words::of(line)) {
        Some(parsed) => parsed,
        None => Parsed::Bad,
    }
}

#[tactic(auto, unfolding(crate::specs::Reading::asked))]
fn asked(mut words: Words<'_>) -> Option<Parsed<'_>>
    ensures { request_said result ≡ asked words.entry }
{
    let name = words.next()?;
    named(name, words)
}

/// What the words say, by the first.
#[tactic(auto, unfolding(crate::specs::Reading::named))]
fn named<'a>(name: &[u8], words: Words<'a>) -> Option<Parsed<'a>>
    ensures { request_said result ≡ named name.now words.entry }
{
    if name == b"open".as_slice() {
        begin(words)
    } else if name == b"close".as_slice() {
        end(words)
    } else if name == b"read".as_slice() {
        read(words)
    } else if name == b"write".as_slice() {
        write(words)
    } else if name == b"alloc".as_slice() {
        alloc(words)
    } else if name == b"contig".as_slice() {
        contig(words)
    } else if name == b"free".as_slice() {
        free(words)
    } else if name == b"create".as_slice() {
        create(words)
    } else if name == b"delete".as_slice() {
        delete(words)
    } else if name == b"setcap".as_slice() {
        set_cap(words)
    } else if name == b"sweep".as_slice() {
        sweep(words)
    } else if name == b"list".as_slice() {
        list(words)
    } else {
        None
    }
}

/// What was read, where no word is left.
fn done<'a>(words: Words<'a>, parsed: Parsed<'a>) -> Option<Parsed<'a>>
    ensures { request_said result ≡ ended words.entry (request_parsed parsed.entry) }
{
    if words.is_empty() { Some(parsed) } else { None }
}

#[tactic(auto, unfolding(crate::specs::Reading::begin_of))]
fn begin(mut words: Words<'_>) -> Option<Parsed<'_>>
    ensures { request_said result ≡ begin_of words.entry }
{
    let session = words.number()?;
    done(words, Parsed::Begin { session })
}

#[tactic(auto, unfolding(crate::specs::Reading::end_of))]
fn end(mut words: Words<'_>) -> Option<Parsed<'_>>
    ensures { request_said result ≡ end_of words.entry }
{
    let session = words.number()?;
    done(words, Parsed::End { session })
}

#[tactic(auto, unfolding(crate::specs::Reading::read_of))]
fn read(mut words: Words<'_>) -> Option<Parsed<'_>>
    ensures { request_said result ≡ read_of words.entry }
{
    let access = words.access()?;
    done(words, Parsed::Read { access })
}

#[tactic(auto, unfolding(crate::specs::Reading::write_of))]
fn write(mut words: Words<'_>) -> Option<Parsed<'_>>
    ensures { request_said result ≡ write_of words.entry }
{
    let access = words.access()?;
    let sent = Sent::Word(words.next()?);
    done(words, Parsed::Write { access, sent })
}

#[tactic(auto, unfolding(crate::specs::Reading::alloc_of))]
fn alloc(mut words: Words<'_>) -> Option<Parsed<'_>>
    ensures { request_said result ≡ alloc_of words.entry }
{
    let access = words.access()?;
    let hint = words.hint()?;
    let count = words.number()?;
    done(
        words,
        Parsed::Alloc {
            access,
            hint,
            count,
        },
    )
}

#[tactic(auto, unfolding(crate::specs::Reading::contig_of))]
fn contig(mut words: Words<'_>) -> Option<Parsed<'_>>
    ensures { request_said result ≡ contig_of words.entry }
{
    let access = words.access()?;
    let hint = words.hint()?;
    let count = words.number()?;
    done(
        words,
        Parsed::Contig {
            access,
            hint,
            count,
        },
    )
}

fn free(words: Words<'_>) -> Option<Parsed<'_>>
    ensures { request_said result ≡ free_of words.entry }
{
    done(words, Parsed::GetFree)
}

#[tactic(auto, unfolding(crate::specs::Reading::create_of))]
fn create(mut words: Words<'_>) -> Option<Parsed<'_>>
    ensures { request_said result ≡ create_of words.entry }
{
    let access = words.access()?;
    let target = words.number()?;
    done(words, Parsed::Create { access, target })
}

#[tactic(auto, unfolding(crate::specs::Reading::delete_of))]
fn delete(mut words: Words<'_>) -> Option<Parsed<'_>>
    ensures { request_said result ≡ delete_of words.entry }
{
    let access = words.access()?;
    let target = words.number()?;
    done(words, Parsed::Delete { access, target })
}

#[tactic(auto, unfolding(crate::specs::Reading::set_cap_of))]
fn set_cap(mut words: Words<'_>) -> Option<Parsed<'_>>
    ensures { request_said result ≡ set_cap_of words.entry }
{
    let access = words.access()?;
    let read = words.new_cap()?;
    let write = words.new_cap()?;
    done(
        words,
        Parsed::SetCap {
            access,
            caps: CapPair { read, write },
        },
    )
}

#[tactic(auto, unfolding(crate::specs::Reading::sweep_of))]
fn sweep(mut words: Words<'_>) -> Option<Parsed<'_>>
    ensures { request_said result ≡ sweep_of words.entry }
{
    let session = words.number()?;
    let shown = words.shown()?;
    done(words, Parsed::Sweep { session, shown })
}

#[tactic(auto, unfolding(crate::specs::Reading::list_of))]
fn list(mut words: Words<'_>) -> Option<Parsed<'_>>
    ensures { request_said result ≡ list_of words.entry }
{
    let access = words.access()?;
    let start = words.number()?;
    done(words, Parsed::List { access, start })
}
