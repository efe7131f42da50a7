//! What two words of a stream ask.
//!
//! | kind | request |
//! |---|---|
//! | 0 | reads a |
//! | 1 | writes a, with the bytes of the second word |
//! | 2 | takes blocks near b for a |
//! | 3 | takes blocks in a row near b for a |
//! | 4 | adds a pointer from a to b |
//! | 5 | deletes a pointer from a to b |
//! | 6 | asks how many blocks are free |
//! | 7 | lists the targets of a |

ghost use Rattle.std.specs.Prelude.{◌≡◌, ◌<◌};
ghost use Rattle.std.specs.Int.{w32, to_le_bytes};
ghost use Rattle.load_gen.specs.Requests.{shown_at, count_of, request_of_kind, request_of_words};

use tsd_model::{CapList, Data, Hint, Request, Shown};

/// The session of every request.
pub const SESSION: u32 = 1;

/// How many kinds of request there are.
const KINDS: u32 = 8;

/// The words that ask for one count of blocks: a fourth of them all.
const WORDS_PER_COUNT: u32 = 1 << 30;

const _: () = prove!(SESSION == 1);

const _: () = prove!(KINDS == 8);

const _: () = prove!(WORDS_PER_COUNT == 1_073_741_824);

/// The capability to write of a primary block; at another block nothing is shown.
fn shown_at(caps: &CapList, primaries: u32, block: u32) -> Shown
    ensures { result ≡ shown_at caps.now primaries block }
{
    if block >= primaries {
        return Shown::Nothing;
    }
    match caps.as_slice().get(block as usize) {
        Some(pair) => Shown::Key(pair.write),
        None => Shown::Nothing,
    }
}

/// The four bytes of a word, the lowest first.
fn word_bytes(word: u32) -> Data
    ensures { result ≡ to_le_bytes w32 word }
{
    let mut bytes = Data::new();
    let _fit = bytes.extend_from_slice(&word.to_le_bytes());
    bytes
}

/// How many blocks a word asks for, 1 to 4.
fn count_of(word: u32) -> u32
    ensures { result ≡ count_of word }
{
    1 + word / WORDS_PER_COUNT
}

/// The request of a kind.
fn request_of_kind(kind: u32, a: u32, b: u32, shown: Shown, word: u32) -> Request
    ensures { result ≡ request_of_kind kind a b shown word }
{
    let session = SESSION;
    match kind {
        0 => Request::Read {
            session,
            block: a,
            shown,
        },
        1 => Request::Write {
            session,
            block: a,
            shown,
            bytes: word_bytes(word),
        },
        2 => Request::Alloc {
            session,
            source: a,
            shown,
            hint: Hint::At(b),
            count: count_of(word),
        },
        3 => Request::Contig {
            session,
            source: a,
            shown,
            hint: Hint::At(b),
            count: count_of(word),
        },
        4 => Request::Create {
            session,
            source: a,
            shown,
            target: b,
        },
        5 => Request::Delete {
            session,
            source: a,
            shown,
            target: b,
        },
        6 => Request::GetFree,
        _ => Request::List {
            session,
            source: a,
            shown,
            start: 0,
        },
    }
}

/// The request of two words that names some of the first blocks.
pub fn request_of_words(caps: &CapList, primaries: u32, named: u32, x: u32, y: u32) -> Request
    requires { 0 < named }
    ensures { result ≡ request_of_words caps.now primaries named x y }
{
    let a = x / KINDS % named;
    let shown = shown_at(caps, primaries, a);
    request_of_kind(x % KINDS, a, y % named, shown, y)
}
