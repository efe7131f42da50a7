//! What the words of a line say, or the fields of a frame's body.
//!
//! It is small: a `Request` has room for a whole block, and each one that is made or handed on clears that room. So it
//! is put together once, in the caller's room for it.

ghost use Rattle.std.specs.Prelude.{◌≡◌, [], Some, None, cond, true, unwrap_or};
ghost use Rattle.script_text.specs.Parsing.{data_sent, is_making, names_pointers, request_parsed, write_parsed};
ghost use Rattle.tsd_model.specs.declared.requests.Request.TheVariants as ask;

use crate::fields::read_data;
use tsd_model::{CapPair, Data, Hint, Request, Shown};

/// What most requests begin with.
#[derive(Clone, Copy, Debug)]
pub struct Access {
    /// The session.
    pub session: u32,

    /// The block, or the source of pointers.
    pub block: u32,

    /// What is shown.
    pub shown: Shown,
}

/// Bytes to write, as they were sent.
#[derive(Clone, Copy, Debug)]
pub enum Sent<'a> {
    /// The word of a line that is to spell them.
    Word(&'a [u8]),

    /// The bytes themselves.
    Bytes(&'a [u8]),
}

/// A request, but for the bytes to write: those still stand where they were sent.
#[derive(Drop)]
pub enum Parsed<'a> {
    /// What was sent says nothing.
    Bad,

    /// Opens a session.
    Begin {
        session: u32,
    },

    /// Closes a session.
    End {
        session: u32,
    },

    /// Reads a block.
    Read {
        access: Access,
    },

    /// Sets a block's bytes to those that were sent, if they are some that a block may have.
    Write {
        access: Access,
        sent: Sent<'a>,
    },

    /// Takes free blocks.
    Alloc {
        access: Access,
        hint: Hint,
        count: u32,
    },

    /// The same with blocks in a row.
    Contig {
        access: Access,
        hint: Hint,
        count: u32,
    },

    /// Asks how many blocks are free.
    GetFree,

    /// Adds a pointer.
    Create {
        access: Access,
        target: u32,
    },

    /// Deletes a pointer.
    Delete {
        access: Access,
        target: u32,
    },

    /// Gives a primary block new capabilities.
    SetCap {
        access: Access,
        caps: CapPair,
    },

    /// Reclaims all blocks that no primary block leads to.
    Sweep {
        session: u32,
        shown: Shown,
    },

    /// Lists targets of a block's pointers.
    List {
        access: Access,
        start: u32,
    },
}

/// Puts the request into the room for it, and Bad where there is none. Each way writes the room once, so that it
/// needn't be cleared before: a `match` has a way for no variant too, which writes nothing.
#[inline(never)]
pub fn put_request(parsed: &Parsed<'_>, into: &mut Request)
    ensures { into.new ≡ unwrap_or (request_parsed parsed.now) ask.Bad }
{
    if let Parsed::Bad = *parsed {
        *into = Request::Bad;
        return;
    }
    if let Parsed::GetFree = *parsed {
        *into = Request::GetFree;
        return;
    }
    if let Parsed::Begin { session } = *parsed {
        *into = Request::Begin { session };
        return;
    }
    if let Parsed::End { session } = *parsed {
        *into = Request::End { session };
        return;
    }
    if let Parsed::Sweep { session, shown } = *parsed {
        *into = Request::Sweep { session, shown };
        return;
    }
    if let Parsed::Read { access } = *parsed {
        *into = Request::Read {
            session: access.session,
            block: access.block,
            shown: access.shown,
        };
        return;
    }
    if let Parsed::Write { access, sent } = *parsed {
        put_write(&access, sent, into);
        return;
    }
    put_pointers(parsed, into);
}

/// The same of a request that names pointers of a block, or is to make some.
#[inline(never)]
fn put_pointers(parsed: &Parsed<'_>, into: &mut Request)
    requires { names_pointers parsed.now ≡ true }
    ensures { into.new ≡ unwrap_or (request_parsed parsed.now) ask.Bad }
{
    if let Parsed::List { access, start } = *parsed {
        *into = Request::List {
            session: access.session,
            source: access.block,
            shown: access.shown,
            start,
        };
        return;
    }
    if let Parsed::Create { access, target } = *parsed {
        *into = Request::Create {
            session: access.session,
            source: access.block,
            shown: access.shown,
            target,
        };
        return;
    }
    if let Parsed::Delete { access, target } = *parsed {
        *into = Request::Delete {
            session: access.session,
            source: access.block,
            shown: access.shown,
            target,
        };
        return;
    }
    put_making(parsed, into);
}

/// The same of a request that makes blocks, or capabilities.
#[inline(never)]
fn put_making(parsed: &Parsed<'_>, into: &mut Request)
    requires { is_making parsed.now ≡ true }
    ensures { into.new ≡ unwrap_or (request_parsed parsed.now) ask.Bad }
{
    if let Parsed::Alloc {
        access,
        hint,
        count,
    } = *parsed
    {
        *into = Request::Alloc {
            session: access.session,
            source: access.block,
            shown: access.shown,
            hint,
            count,
        };
        return;
    }
    if let Parsed::Contig {
        access,
        hint,
        count,
    } = *parsed
    {
        *into = Request::Contig {
            session: access.session,
            source: access.block,
            shown: access.shown,
            hint,
            count,
        };
        return;
    }
    if let Parsed::SetCap { access, caps } = *parsed {
        *into = Request::SetCap {
            session: access.session,
            block: access.block,
            shown: access.shown,
            caps,
        };
        return;
    }
    *into = Request::Bad;
}

/// A write of the bytes that were sent, and Bad where a block may not have them.
#[inline(never)]
fn put_write(access: &Access, sent: Sent<'_>, into: &mut Request)
    ensures { into.new ≡ unwrap_or (write_parsed access.now sent.entry) ask.Bad }
{
    *into = Request::Write {
        session: access.session,
        block: access.block,
        shown: access.shown,
        bytes: Data::new(),
    };
    let mut is_put = false;
    if let Request::Write { bytes, .. } = into {
        is_put = put_data(sent, bytes);
    }
    if !is_put {
        *into = Request::Bad;
    }
}

/// Puts the bytes that were sent into `room`, which is empty, and answers whether a block may have them.
fn put_data(sent: Sent<'_>, room: &mut Data) -> bool
    requires { room.old ≡ [] }
    ensures { data_sent sent.entry ≡ cond result (Some room.new) None }
{
    match sent {
        Sent::Word(word) => read_data(word, room),
        Sent::Bytes(bytes) => room.extend_from_slice(bytes).is_ok(),
    }
}
