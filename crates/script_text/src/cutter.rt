//! Cuts a text that comes in pieces into its lines.
//!
//! However the text is cut into pieces, the lines are the same: those of the text itself. A line of more than 8,400
//! bytes is held cut to 8,401, so that it is told apart from every shorter one.

ghost use Rattle.std.specs.Prelude.{◌≡◌, ◌<◌, ◌≤◌, ◌++◌, ℕ, List, [], length, map, take, true};
ghost use Rattle.std.specs.Prelude.{false};
ghost use Rattle.script_text.specs.Grammar.{held_max};
ghost use Rattle.script_text.specs.Pieces.{lines};
ghost use Rattle.script_text.specs.Lines.{Cutting, Cuts, FollowOn, WasFed, lines_held, rest, text_fed};

use crate::parse::LINE_MAX;
use crate::words::first_position;
use arrayvec::ArrayVec;
use std::marker::Model;

/// How many bytes of a line are held: one more than the most that a line may have.
pub const HELD_MAX: usize = LINE_MAX + 1;

/// What one feed did.
#[derive(Clone, Copy, Debug, PartialEq, Eq)]
pub struct Fed {
    /// How many bytes of the piece were used, from its front.
    pub used: usize,

    /// Whether the last of them was a line feed, so that a line is whole.
    pub whole: bool,
}

/// Puts the bytes of a text together to lines. It takes no memory.
#[derive(Drop)]
pub struct LineCutter {
    line: ArrayVec<u8, HELD_MAX>,
    whole: bool,
}

impl Model for LineCutter {
    ghost use Rattle.script_text.specs.Lines.{Cutting};

    ghost Value = { Cutting };

    ghost view = { λ c. record { line = c.line.items; whole = c.whole } };
}

impl LineCutter {
    /// A cutter that was fed nothing.
    pub fn new() -> LineCutter
        ensures line { result.line ≡ [] }
        ensures whole { result.whole ≡ false }
        ensures fed { WasFed [] result }
    {
        LineCutter {
            line: ArrayVec::new(),
            whole: false,
        }
    }

    /// Takes the piece up to and including its first line feed, or all of it. After a whole line it begins a new one.
    #[inline(never)]
    pub fn feed(&mut self, piece: &[u8]) -> Fed
        /// promise (with some, all, whole, cuts, fed): The lines of the bytes fed so far, however they are cut into
        /// pieces.
        ensures within { result.used ≤ length piece.now }
        ensures some { result.whole ≡ true → 0 < result.used }
        ensures all { result.whole ≡ false → result.used ≡ length piece.now }
        ensures whole { self.new.whole ≡ result.whole }
        // After any text, the bytes that were used end its next line, or they end none.
        ensures cuts { (text : List ℕ) → WasFed text self.old → Cuts text (take result.used piece.now) self.new }
        ensures fed { (text : List ℕ) → WasFed text self.old
            → WasFed (text ++ take result.used piece.now) self.new }
    {
        if self.whole {
            self.line.clear();
        }
        match first_position(piece, b'\n') {
            Some(i) => {
                push_all(&mut self.line, &piece[..i]);
                self.whole = true;
                Fed {
                    used: i + 1,
                    whole: true,
                }
            }
            None => {
                push_all(&mut self.line, piece);
                self.whole = false;
                Fed {
                    used: piece.len(),
                    whole: false,
                }
            }
        }
    }

    /// The line so far without its line feed, cut to 8,401 bytes; after a whole line that line, until the next feed.
    pub fn line(&self) -> &[u8]
        ensures value { result.now ≡ self.now.line }
        ensures fits { length result.now ≤ held_max }
    {
        self.line.as_slice()
    }

    /// What stands after the last line feed, cut to 8,401 bytes. At the end of the text it is one more line, where it
    /// is something.
    pub fn rest(&self) -> &[u8]
        ensures value { result.now ≡ rest self.now }
        ensures fits { length result.now ≤ held_max }
    {
        if self.whole {
            return b"".as_slice();
        }
        self.line.as_slice()
    }
}

/// Appends what there is room for.
fn push_all(line: &mut ArrayVec<u8, HELD_MAX>, bytes: &[u8])
    ensures { line.new.items ≡ take held_max (line.old.items ++ bytes.now) }
{
    let fitting = line.remaining_capacity().min(bytes.len());
    let _fit = line.try_extend_from_slice(&bytes[..fitting]);
}

/// However a text is cut into pieces, the lines that a cutter holds whole, one after another, are those of the text,
/// each cut to 8,401 bytes.
pub fn any_cutting()
    /// promise: However a text is cut into pieces, the lines that are handed out are those of the text, each cut to
    /// 8,401 bytes.
    ensures { (feeds : List (List ℕ × Cutting)) → FollowOn [] feeds
        → lines_held feeds ≡ map (take held_max) (lines (text_fed feeds)) }
{}

/// The lines of a text come first among those of a longer text: more bytes change no line that is whole.
pub fn lines_stay()
    /// promise: More bytes change no line that is whole.
    ensures { (x y : List ℕ) → (more : List (List ℕ)) × (lines (x ++ y) ≡ lines x ++ more) }
{}
