//! The reply that a body spells. Tests alone call it: it stands here as a law, that what is sent decodes back.

ghost use Rattle.std.specs.Prelude.{◌≡◌, MatchOption};
ghost use Rattle.tsd_model.specs.declared.replies.Reply.{Reply};
ghost use Rattle.request_frames.specs.Replies.{IsReply};
ghost use Rattle.request_frames.specs.Reading.{ends};
ghost use Rattle.request_frames.specs.ReplyReading.{is_block_size, bare, bytes_reply, blocks_reply, free_reply};
ghost use Rattle.request_frames.specs.ReplyReading.{gone_reply, targets_reply, denied_reply, full_reply, no_run_reply};
ghost use Rattle.request_frames.specs.ReplyReading.{pointers_full_reply, ruled, refused_reply, answered, reply_of};

use crate::codes;
use crate::reader::BodyReader;
use tsd_model::{Reply, Rule};

/// The most blocks that one request takes.
const NEW_BLOCKS_MAX: usize = 32;

/// The reply that a body spells, where it spells one.
pub fn decode_reply(body: &[u8]) -> Option<Reply>
    // What is read is spelled so, from the first byte to the last.
    /// promise (with only): A reply exactly where the body is its spelling, and none exactly where it is none's.
    ensures spelled { MatchOption result (Unit {0}) (λ r. IsReply body.now r) }
    // What is spelled so is read: so no body has two replies, and None comes only where the body has none.
    ensures only { (r : Reply) → IsReply body.now r → result ≡ Some r }
    // As a function that computes.
    ensures value { result ≡ reply_of body.now }
{
    read_reply(BodyReader::of(body))
}

#[tactic(auto, unfolding(crate::specs::ReplyReading::reply_of))]
fn read_reply(mut reader: BodyReader) -> Option<Reply>
    ensures { result ≡ reply_of reader.entry }
{
    let code = reader.byte()?;
    answered(code, reader)
}

/// The reply by its code.
#[tactic(auto, unfolding(crate::specs::ReplyReading::answered))]
fn answered(code: u8, reader: BodyReader) -> Option<Reply>
    ensures { result ≡ answered code reader.entry }
{
    match code {
        codes::DONE => done(reader, Reply::Done),
        codes::BYTES => bytes(reader),
        codes::BLOCKS => blocks(reader),
        codes::FREE => free(reader),
        codes::GONE => gone(reader),
        codes::TARGETS => targets(reader),
        codes::NO_MEMORY => done(reader, Reply::NoMemory),
        codes::REFUSED => refused(reader),
        _ => None,
    }
}

/// The reply, where no byte is left.
fn done(reader: BodyReader, reply: Reply) -> Option<Reply>
    ensures { result ≡ ends reader.entry reply }
{
    if reader.is_empty() { Some(reply) } else { None }
}

/// Whether a block may have so many bytes: 1, 2, 4 or 8 sectors of 512.
fn is_block_size(bytes: usize) -> bool
    ensures { result ≡ is_block_size bytes }
{
    matches!(bytes, 512 | 1024 | 2048 | 4096)
}

#[tactic(auto, unfolding(crate::specs::ReplyReading::bytes_reply))]
fn bytes(mut reader: BodyReader) -> Option<Reply>
    ensures { result ≡ bytes_reply reader.entry }
{
    let all = reader.data()?;
    if is_block_size(all.len()) {
        done(reader, Reply::Bytes(all))
    } else {
        None
    }
}

#[tactic(auto, unfolding(crate::specs::ReplyReading::blocks_reply))]
fn blocks(reader: BodyReader) -> Option<Reply>
    ensures { result ≡ blocks_reply reader.entry }
{
    let all = reader.blocks()?;
    if 1 <= all.len() && all.len() <= NEW_BLOCKS_MAX {
        Some(Reply::Blocks(all))
    } else {
        None
    }
}

#[tactic(auto, unfolding(crate::specs::ReplyReading::free_reply))]
fn free(mut reader: BodyReader) -> Option<Reply>
    ensures { result ≡ free_reply reader.entry }
{
    let count = reader.number()?;
    done(reader, Reply::Free(count))
}

#[tactic(auto, unfolding(crate::specs::ReplyReading::gone_reply))]
fn gone(mut reader: BodyReader) -> Option<Reply>
    ensures { result ≡ gone_reply reader.entry }
{
    let count = reader.number()?;
    done(reader, Reply::Gone(count))
}

#[tactic(auto, unfolding(crate::specs::ReplyReading::targets_reply))]
fn targets(reader: BodyReader) -> Option<Reply>
    ensures { result ≡ targets_reply reader.entry }
{
    let all = reader.blocks()?;
    Some(Reply::Targets(all))
}

#[tactic(auto, unfolding(crate::specs::ReplyReading::refused_reply))]
fn refused(mut reader: BodyReader) -> Option<Reply>
    ensures { result ≡ refused_reply reader.entry }
{
    let code = reader.byte()?;
    ruled(code, reader)
}

/// The refusal by its rule's code.
#[tactic(auto, unfolding(crate::specs::ReplyReading::ruled))]
fn ruled(code: u8, reader: BodyReader) -> Option<Reply>
    ensures { result ≡ ruled code reader.entry }
{
    match code {
        codes::BAD_REQUEST => rule(reader, Rule::BadRequest),
        codes::BAD_SESSION => rule(reader, Rule::BadSession),
        codes::NOT_OPEN => rule(reader, Rule::NotOpen),
        codes::ALREADY_OPEN => rule(reader, Rule::AlreadyOpen),
        codes::BAD_COUNT => rule(reader, Rule::BadCount),
        codes::BAD_SIZE => rule(reader, Rule::BadSize),
        codes::NO_SUCH_BLOCK => rule(reader, Rule::NoSuchBlock),
        codes::FREE_BLOCK => rule(reader, Rule::FreeBlock),
        codes::NOT_PRIMARY => rule(reader, Rule::NotPrimary),
        codes::IS_PRIMARY => rule(reader, Rule::IsPrimary),
        codes::DENIED => denied(reader),
        codes::POINTER_EXISTS => rule(reader, Rule::PointerExists),
        codes::NO_POINTER => rule(reader, Rule::NoPointer),
        codes::FULL => full(reader),
        codes::NO_RUN => no_run(reader),
        codes::POINTERS_FULL => pointers_full(reader),
        _ => None,
    }
}

/// The refusal by a rule, where no byte is left.
fn rule(reader: BodyReader, rule: Rule) -> Option<Reply>
    ensures { result ≡ bare rule reader.entry }
{
    done(reader, Reply::Refused(rule))
}

#[tactic(auto, unfolding(crate::specs::ReplyReading::denied_reply))]
fn denied(mut reader: BodyReader) -> Option<Reply>
    ensures { result ≡ denied_reply reader.entry }
{
    let attained = reader.level()?;
    let needed = reader.level()?;
    rule(reader, Rule::Denied { attained, needed })
}

#[tactic(auto, unfolding(crate::specs::ReplyReading::full_reply))]
fn full(mut reader: BodyReader) -> Option<Reply>
    ensures { result ≡ full_reply reader.entry }
{
    let free = reader.number()?;
    let wanted = reader.number()?;
    rule(reader, Rule::Full { free, wanted })
}

#[tactic(auto, unfolding(crate::specs::ReplyReading::no_run_reply))]
fn no_run(mut reader: BodyReader) -> Option<Reply>
    ensures { result ≡ no_run_reply reader.entry }
{
    let free = reader.number()?;
    let wanted = reader.number()?;
    rule(reader, Rule::NoRun { free, wanted })
}

#[tactic(auto, unfolding(crate::specs::ReplyReading::pointers_full_reply))]
fn pointers_full(mut reader: BodyReader) -> Option<Reply>
    ensures { result ≡ pointers_full_reply reader.entry }
{
    let held = reader.number()?;
    let max = reader.number()?;
    rule(reader, Rule::PointersFull { held, max })
}
