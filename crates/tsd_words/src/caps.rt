//! Lines of capabilities.

ghost use Rattle.std.specs.Prelude.{◌≡◌, ◌+◌, ◌≤◌, ◌∷◌, ◌++◌, length};
ghost use Rattle.tsd_words.specs.Lines.{cap_lines, cap_words, line_of};

use script_text::OutBuf;
use script_text::parse::LINE_MAX;
use script_text::printing::{put_cap, put_number};
use tsd_model::{CapList, CapPair};

/// The most bytes of the line of one primary block.
const CAP_LINE_ROOM: usize = 100;

/// A line for each primary block, with its capabilities.
pub fn cap_lines(caps: &CapList) -> OutBuf
    /// promise: The lines that `format` prints: each primary block with its capabilities.
    ensures { result ≡ cap_lines 0 caps.now }
{
    let mut lines = OutBuf::new();
    let mut block = 0;
    for pair in caps.as_slice() {
        put_caps(&mut lines, block, pair);
        block += 1;
    }
    lines
}

/// The line of a primary block.
fn put_caps(into: &mut OutBuf, block: u32, pair: &CapPair)
    requires { length into.old + CAP_LINE_ROOM ≤ LINE_MAX }
    ensures text { into.new ≡ into.old ++ line_of (cap_words block pair.now) }
    ensures room { length into.new ≤ length into.old + CAP_LINE_ROOM }
{
    into.put(b"cap".as_slice());
    put_number(into, block);
    put_cap(into, &pair.read);
    put_cap(into, &pair.write);
    into.put(b"\n".as_slice());
}
