//! Replies as they are printed.

ghost use Rattle.std.specs.Prelude.{◌≡◌, ◌+◌, ◌<◌, ℕ, List, [], ◌∷◌, ◌++◌, length, true};
ghost use Rattle.tsd_model.specs.ReplyForm.{HasNumbers};
ghost use Rattle.tsd_model.specs.declared.replies.Reply.{Reply};
ghost use Rattle.script_text.specs.Pieces.{line_feeds};
ghost use Rattle.script_text.specs.Texts.{is_short, reply_text};

use crate::out_buf::OutBuf;
use crate::parse::LINE_MAX;
use crate::printing::put_data;
use crate::short::{ShortLine, put_short};
use crate::trimming::trimmed;
use tsd_model::Reply;

/// Replaces the bytes by the text of a reply and a line feed.
pub fn print_reply(reply: &Reply, into: &mut OutBuf)
    /// promise: Exactly the reply's text.
    ensures { into.new ≡ reply_text reply.now ++ 10 ∷ [] }
{
    into.clear();
    reply_in_words(into, reply);
    into.put(b"\n".as_slice());
}

/// The text of a reply.
fn reply_in_words(into: &mut OutBuf, reply: &Reply)
    requires { into.old ≡ [] }
    ensures text { into.new ≡ reply_text reply.now }
    ensures room { length into.new < LINE_MAX }
{
    match reply {
        Reply::Done => short(into, reply),
        Reply::Bytes(all) => {
            into.put(b"data".as_slice());
            put_data(into, trimmed(all.as_slice()));
        }
        Reply::Blocks(_) => short(into, reply),
        Reply::Free(_) => short(into, reply),
        Reply::Gone(_) => short(into, reply),
        Reply::Targets(_) => short(into, reply),
        Reply::NoMemory => short(into, reply),
        Reply::Refused(_) => short(into, reply),
    }
}

/// The text of a short reply.
fn short(into: &mut OutBuf, reply: &Reply)
    requires short { is_short reply.now ≡ true }
    requires empty { into.old ≡ [] }
    ensures text { into.new ≡ reply_text reply.now }
    ensures room { length into.new < LINE_MAX }
{
    let mut line = ShortLine::new();
    let _is_short = put_short(reply, &mut line);
    into.put(line.as_slice());
}

/// Replies as they are sent, one behind the other, part in one way: each has one line feed, its last byte. So the line
/// feeds of what was sent count the replies that were sent whole.
pub fn replies_part()
    // No byte of a reply's text is a line feed.
    /// promise (with whole, part): A reply as it is sent has one line feed, its last byte; so the line feeds of what
    /// was sent count the replies that were sent whole.
    ensures text { (r : Reply) → HasNumbers r → line_feeds (reply_text r) ≡ 0 }
    // A whole reply counts as one, whatever follows.
    ensures whole { (r : Reply) (behind : List ℕ) → HasNumbers r
        → line_feeds ((reply_text r ++ 10 ∷ []) ++ behind) ≡ 1 + line_feeds behind }
    // A front of a reply that isn't all of it counts as none.
    ensures part { (r : Reply) (front back : List ℕ) → HasNumbers r → reply_text r ++ 10 ∷ [] ≡ front ++ back
        → 0 < length back → line_feeds front ≡ 0 }
{}
