//! Cuts a text of frames that comes in pieces into its frames.
//!
//! However the text is cut into pieces, the frames are the same: those of the text itself.

ghost use Rattle.std.specs.Prelude.{◌≡◌, ◌≢◌, ◌↔◌, ◌+◌, ◌-◌, ◌^◌, ◌<◌, ◌≤◌};
ghost use Rattle.std.specs.Prelude.{◌++◌, ℕ, List, [], ◌∷◌, length, take, slice_index, min, cond};
ghost use Rattle.std.specs.Prelude.{nat_le, true, false, IsTrue, IfOk};
ghost use Rattle.std.specs.Vec.{vec_capacity};
ghost use Rattle.request_frames.specs.Frames.{IsCut, frame_of, frames, unended, frame_size, has_frame};
ghost use Rattle.request_frames.specs.Cutting.{Cutting, Cuts, FollowOn, WasFed, bodies_held, frame_body, rest};
ghost use Rattle.request_frames.specs.Cutting.{text_fed};

use crate::frame_buf::LENGTH_BYTES;
use byteorder::{ByteOrder, LittleEndian};
use std::alloc::Global;
use std::marker::Model;
use tsd_model::NoMemory;

/// The most bytes of a body that a frame may have.
pub const BODY_MAX: usize = 65_535;

/// As many as two bytes count.
const _: () = prove!(BODY_MAX == u16::MAX as usize);

/// Room for the longest frame.
const ROOM: usize = LENGTH_BYTES + BODY_MAX;

/// What one feed did.
#[derive(Clone, Copy, Debug, PartialEq, Eq)]
pub struct Fed {
    /// How many bytes of the piece were used, from its front.
    pub used: usize,

    /// Whether the last of them ended a frame, so that a body is whole.
    pub whole: bool,
}

/// Puts the bytes of a text together to frames. Room for the longest is taken when it is made, and none later.
#[derive(Drop)]
pub struct FrameCutter {
    held: Vec<u8>,
    whole: bool,
}

impl Model for FrameCutter {
    ghost use Rattle.std.specs.Prelude.{◌≡◌, ◌≤◌, false};
    ghost use Rattle.std.specs.Vec.{vec_capacity};
    ghost use Rattle.request_frames.specs.Frames.{has_frame};
    ghost use Rattle.request_frames.specs.Cutting.{Cutting};

    ghost Value = { Cutting };

    ghost view = { λ c. record { held = c.held.items; whole = c.whole } };

    ghost invariant = { λ c. (65537 ≤ vec_capacity c.held) × (c.whole ≡ false → has_frame c.held.items ≡ false) };
}

impl FrameCutter {
    /// A cutter that was fed nothing.
    pub fn new(alloc: Global) -> Result<FrameCutter, NoMemory>
        ensures held { IfOk result (λ c. c.held ≡ []) }
        ensures whole { IfOk result (λ c. c.whole ≡ false) }
        ensures fed { IfOk result (λ c. WasFed [] c) }
    {
        let held = Vec::with_capacity(alloc, ROOM)?;
        Ok(FrameCutter { held, whole: false })
    }

    /// Takes the piece up to the end of its first frame, or all of it. After a whole frame it begins a new one.
    #[inline(never)]
    pub fn feed(&mut self, piece: &[u8]) -> Fed
        /// promise (with some, all, whole, held, cuts, fed): The bodies of the frames fed so far, however the text is
        /// cut.
        ensures within { result.used ≤ length piece.now }
        ensures some { result.whole ≡ true → 0 < result.used }
        ensures all { result.whole ≡ false → result.used ≡ length piece.now }
        ensures whole { self.new.whole ≡ result.whole }
        ensures held { self.new.held ≡ rest self.old ++ take result.used piece.now }
        // After any text, the bytes that were used end its next frame, or they end none.
        ensures cuts { (text : List ℕ) → WasFed text self.old → Cuts text (take result.used piece.now) self.new }
        ensures fed { (text : List ℕ) → WasFed text self.old
            → WasFed (text ++ take result.used piece.now) self.new }
    {
        begin_anew(&mut self.held, self.whole);
        let fed = take_frame(&mut self.held, piece);
        self.whole = fed.whole;
        fed
    }

    /// The body so far; after a whole frame its body, until the next feed.
    pub fn body(&self) -> &[u8]
        ensures { result.now ≡ frame_body self.now }
    {
        match self.held.get(LENGTH_BYTES..) {
            Some(bytes) => bytes,
            None => b"".as_slice(),
        }
    }

    /// Whether the bytes that were fed end inside a frame.
    pub fn is_inside(&self) -> bool
        /// promise (with text): True exactly where the bytes fed end inside a frame.
        ensures value { IsTrue result ↔ (rest self.now ≢ []) }
        ensures text { (text : List ℕ) → WasFed text self.now → (IsTrue result ↔ (unended text ≢ [])) }
    {
        !self.whole && !self.held.is_empty()
    }
}

/// Lets a whole frame go.
fn begin_anew(held: &mut Vec<u8>, whole: bool)
    ensures items { held.new.items ≡ cond whole [] held.old.items }
    ensures room { vec_capacity held.new ≡ vec_capacity held.old }
{
    if whole {
        held.clear();
    }
}

/// Adds the front of a piece up to the end of the frame that is held, which hasn't come to its end.
fn take_frame(held: &mut Vec<u8>, piece: &[u8]) -> Fed
    requires room { ROOM ≤ vec_capacity held.old }
    requires begun { has_frame held.old.items ≡ false }
    ensures items { held.new.items ≡ held.old.items ++ take result.used piece.now }
    ensures room { ROOM ≤ vec_capacity held.new }
    ensures within { result.used ≤ length piece.now }
    ensures whole { result.whole ≡ true → (length held.new.items ≡ frame_size held.new.items)
        × (0 < result.used) }
    ensures none { result.whole ≡ false → (has_frame held.new.items ≡ false)
        × (result.used ≡ length piece.now) }
{
    let of_length = fill(held, LENGTH_BYTES, piece);
    let size = known_size(held.as_slice());
    let of_body = fill(held, size, &piece[of_length..]);
    Fed {
        used: of_length + of_body,
        whole: held.len() == known_size(held.as_slice()),
    }
}

/// Adds the front of a piece up to a length, and tells how many bytes it added.
fn fill(held: &mut Vec<u8>, size: usize, piece: &[u8]) -> usize
    requires { size ≤ vec_capacity held.old }
    ensures used { result ≡ min (size - length held.old.items) (length piece.now) }
    ensures items { held.new.items ≡ held.old.items ++ take result piece.now }
    ensures room { vec_capacity held.old ≤ vec_capacity held.new }
{
    let used = size.saturating_sub(held.len()).min(piece.len());
    let _fit = held.extend_from_slice(&piece[..used]);
    used
}

/// How many bytes the frame has that begins so, or its length where that isn't there whole.
fn known_size(held: &[u8]) -> usize
    ensures value { result ≡ cond (nat_le 2 (length held.now)) (frame_size held.now) 2 }
    ensures fits { result ≤ ROOM }
{
    if held.len() < LENGTH_BYTES {
        return LENGTH_BYTES;
    }
    LENGTH_BYTES + LittleEndian::read_u16(held) as usize
}

/// However a text is cut into pieces, the bodies that a cutter holds whole, one after another, are those of the text's
/// frames.
pub fn any_cutting()
    /// promise: However a text is cut into pieces, the bodies that are handed out are those of its frames.
    ensures { (feeds : List (List ℕ × Cutting)) → FollowOn [] feeds
        → bodies_held feeds ≡ frames (text_fed feeds) }
{}

/// What the frames of a text are: the text is these frames, one after another, and then bytes that begin a frame and
/// don't end it, or none. A text is so in one way.
pub fn frames_are()
    /// promise (with only): The frames of a text are its only cutting.
    ensures cut { (text : List ℕ) → ((i : ℕ) → slice_index text i < 256)
        → IsCut text (frames text) (unended text) }
    ensures only { (text : List ℕ) (bodies : List (List ℕ)) (more : List ℕ) → IsCut text bodies more
        → (frames text ≡ bodies) × (unended text ≡ more) }
{}

/// Frames one behind the other part in one way. So the frames of what was sent count the replies that were sent whole.
pub fn frames_part()
    // The frames of a text come first in a longer one: more bytes change no frame that is whole.
    /// promise (with first, none): More bytes change no whole frame; a frame before other bytes is the first of their
    /// frames; a proper front of a frame has none.
    ensures stay { (x y : List ℕ) → frames (x ++ y) ≡ frames x ++ frames (unended x ++ y) }
    // A frame before bytes is the first of their frames.
    ensures first { (body behind : List ℕ) → length body < 2 ^ 16 → frames (frame_of body ++ behind)
        ≡ body ∷ frames behind }
    // A front of a frame that isn't all of it has none.
    ensures none { (body front back : List ℕ) → length body < 2 ^ 16 → frame_of body ≡ front ++ back
        → 0 < length back → frames front ≡ [] }
{}
