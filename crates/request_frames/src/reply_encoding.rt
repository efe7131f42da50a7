//! Replies as they are sent.

ghost use Rattle.std.specs.Prelude.{◌≡◌, ◌+◌, ◌^◌, ◌<◌, ◌≤◌, [], ◌∷◌, ◌++◌, length, true};
ghost use Rattle.tsd_model.specs.ReplyForm.{HasBody};
ghost use Rattle.tsd_model.specs.declared.replies.Reply.{Reply};
ghost use Rattle.request_frames.specs.Fields.{Code, Number, AllFit, bytes_of};
ghost use Rattle.request_frames.specs.Replies.{IsReply, reply_body, reply_fields, rule_fields};
ghost use Rattle.request_frames.specs.Frames.{frame_of};
ghost use Rattle.request_frames.specs.FrameRoom.{frame_room, is_short};

use crate::codes;
use crate::frame_buf::{FRAME_MAX, Frame, FrameBuf, LENGTH_BYTES, SHORT_DATA, ShortFrame};
use crate::writing::{put_code, put_level, put_number, put_numbers};
use tsd_model::{Reply, Rule};

/// The most bytes of a rule: its code and two numbers.
const RULE_ROOM: usize = 9;

/// Replaces the bytes by the frame of a reply.
pub fn encode_reply(reply: &Reply, into: &mut FrameBuf)
    requires { HasBody reply.now }
    /// promise (with spelled): The frame of the one body of the reply.
    ensures frame { into.new ≡ frame_of (reply_body reply.now) }
    ensures spelled { IsReply (reply_body reply.now) reply.now }
{
    encode(reply, into);
}

/// Replaces the bytes by the frame of a reply where that is short, and answers whether it is: it isn't where the reply
/// is the bytes of a larger block.
pub fn put_short_frame(reply: &Reply, into: &mut ShortFrame) -> bool
    /// promise: A reply's frame is short unless the reply is the bytes of a block of more than 1,024.
    ensures short { result ≡ is_short reply.now }
    /// promise: Where it is short, the bytes are the frame of the reply.
    ensures frame { result ≡ true → into.new ≡ frame_of (reply_body reply.now) }
{
    let is_short = is_short(reply);
    if is_short {
        encode(reply, into);
    }
    is_short
}

/// Whether a reply's frame is short.
fn is_short(reply: &Reply) -> bool
    ensures { result ≡ is_short reply.now }
{
    match reply {
        Reply::Bytes(all) => all.len() <= SHORT_DATA,
        _ => true,
    }
}

/// Replaces the bytes by the frame of a reply, for which there is room.
fn encode<const N: usize>(reply: &Reply, into: &mut Frame<N>)
    requires room { frame_room reply.now ≤ N }
    requires least { LENGTH_BYTES ≤ N }
    requires most { N ≤ FRAME_MAX }
    ensures frame { into.new ≡ frame_of (reply_body reply.now) }
    ensures fits { AllFit (reply_fields reply.now) }
{
    into.begin();
    put_reply(into, reply);
    into.end();
}

/// The body of a reply, after room for its length.
fn put_reply<const N: usize>(into: &mut Frame<N>, reply: &Reply)
    requires empty { into.old ≡ 0 ∷ 0 ∷ [] }
    requires room { frame_room reply.now ≤ N }
    ensures body { into.new ≡ 0 ∷ 0 ∷ reply_body reply.now }
    ensures fits { AllFit (reply_fields reply.now) }
{
    match reply {
        Reply::Done => put_code(into, codes::DONE),
        Reply::Bytes(all) => {
            put_code(into, codes::BYTES);
            into.put(all.as_slice());
        }
        Reply::Blocks(blocks) => {
            put_code(into, codes::BLOCKS);
            put_numbers(into, blocks.as_slice());
        }
        Reply::Free(count) => {
            put_code(into, codes::FREE);
            put_number(into, *count);
        }
        Reply::Gone(count) => {
            put_code(into, codes::GONE);
            put_number(into, *count);
        }
        Reply::Targets(blocks) => {
            put_code(into, codes::TARGETS);
            put_numbers(into, blocks.as_slice());
        }
        Reply::NoMemory => put_code(into, codes::NO_MEMORY),
        Reply::Refused(why) => {
            put_code(into, codes::REFUSED);
            put_rule(into, why);
        }
    }
}

/// The byte of a rule and its numbers.
fn put_rule<const N: usize>(into: &mut Frame<N>, rule: &Rule)
    requires { length into.old + RULE_ROOM ≤ N }
    ensures bytes { into.new ≡ into.old ++ bytes_of (rule_fields rule.now) }
    ensures fits { AllFit (rule_fields rule.now) }
{
    match rule {
        Rule::BadRequest => put_code(into, codes::BAD_REQUEST),
        Rule::BadSession => put_code(into, codes::BAD_SESSION),
        Rule::NotOpen => put_code(into, codes::NOT_OPEN),
        Rule::AlreadyOpen => put_code(into, codes::ALREADY_OPEN),
        Rule::BadCount => put_code(into, codes::BAD_COUNT),
        Rule::BadSize => put_code(into, codes::BAD_SIZE),
        Rule::NoSuchBlock => put_code(into, codes::NO_SUCH_BLOCK),
        Rule::FreeBlock => put_code(into, codes::FREE_BLOCK),
        Rule::NotPrimary => put_code(into, codes::NOT_PRIMARY),
        Rule::IsPrimary => put_code(into, codes::IS_PRIMARY),
        Rule::Denied { attained, needed } => {
            put_code(into, codes::DENIED);
            put_level(into, *attained);
            put_level(into, *needed);
        }
        Rule::PointerExists => put_code(into, codes::POINTER_EXISTS),
        Rule::NoPointer => put_code(into, codes::NO_POINTER),
        Rule::Full { free, wanted } => put_two(into, codes::FULL, *free, *wanted),
        Rule::NoRun { free, wanted } => put_two(into, codes::NO_RUN, *free, *wanted),
        Rule::PointersFull { held, max } => put_two(into, codes::POINTERS_FULL, *held, *max),
    }
}

/// A code and two numbers.
fn put_two<const N: usize>(into: &mut Frame<N>, code: u8, first: u32, second: u32)
    requires { length into.old + RULE_ROOM ≤ N }
    ensures bytes { into.new ≡ into.old ++ bytes_of (Code code ∷ Number first ∷ Number second ∷ []) }
    ensures fits { AllFit (Number first ∷ Number second ∷ []) }
{
    put_code(into, code);
    put_number(into, first);
    put_number(into, second);
}

/// The body of a reply fits a frame.
pub fn bodies_fit()
    /// promise: Each reply of the disk fits one frame.
    ensures { (r : Reply) → HasBody r → length (reply_body r) < 2 ^ 16 }
{}
