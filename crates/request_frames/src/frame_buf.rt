//! A frame to be sent, in a buffer of bounded size: one for every frame, and one for short frames.

ghost use Rattle.std.specs.Prelude.{◌≡◌, ◌+◌, ◌-◌, ◌≤◌, [], ◌∷◌, ◌++◌, length, drop};
ghost use Rattle.byteorder.specs.Endian.{little_bytes};

use arrayvec::ArrayVec;
use byteorder::{ByteOrder, LittleEndian};
use std::marker::Model;

/// The most bytes of a request's body: those of a Write that shows a capability and fills the largest block.
pub const REQUEST_MAX: usize = 4122;

/// How many bytes a frame's length has.
pub const LENGTH_BYTES: usize = 2;

/// The most bytes of a frame that is sent.
pub const FRAME_MAX: usize = LENGTH_BYTES + REQUEST_MAX;

/// The most bytes of a block whose frame is short.
pub const SHORT_DATA: usize = 1024;

/// The most bytes of a short frame: a length, a code, and the bytes of a block.
pub const SHORT_MAX: usize = LENGTH_BYTES + 1 + SHORT_DATA;

/// At most `N` bytes. It takes no memory. Contracts see it as the list of its bytes.
#[derive(Drop)]
pub struct Frame<const N: usize> {
    bytes: ArrayVec<u8, N>,
}

/// At most 4,124 bytes: room for every frame.
pub type FrameBuf = Frame<FRAME_MAX>;

/// At most 1,027 bytes: room that costs little to clear.
pub type ShortFrame = Frame<SHORT_MAX>;

impl<const N: usize> Model for Frame<N> {
    ghost use Rattle.std.specs.Prelude.{List, ℕ};

    ghost Value = { List ℕ };

    ghost view = { λ b. b.bytes.items };
}

impl<const N: usize> Frame<N> {
    /// No bytes.
    pub fn new() -> Frame<N>
        ensures { result ≡ [] }
    {
        Frame {
            bytes: ArrayVec::new(),
        }
    }

    /// The bytes.
    pub fn as_slice(&self) -> &[u8]
        ensures value { result.now ≡ self.now }
        ensures fits { length self.now ≤ N }
    {
        self.bytes.as_slice()
    }

    /// Leaves room for a length alone.
    pub(crate) fn begin(&mut self)
        requires { LENGTH_BYTES ≤ N }
        ensures { self.new ≡ 0 ∷ 0 ∷ [] }
    {
        self.bytes.clear();
        self.put([0; LENGTH_BYTES].as_slice());
    }

    /// Adds bytes at the end, for which there is room.
    pub(crate) fn put(&mut self, bytes: &[u8])
        requires { length self.old + length bytes.now ≤ N }
        ensures { self.new ≡ self.old ++ bytes.now }
    {
        let _fit = self.bytes.try_extend_from_slice(bytes);
    }

    /// Writes the length of the body that stands after it.
    pub(crate) fn end(&mut self)
        requires some { LENGTH_BYTES ≤ length self.old }
        requires most { N ≤ FRAME_MAX }
        ensures { self.new ≡ little_bytes 2 (length self.old - 2) ++ drop 2 self.old }
    {
        let length = (self.bytes.len() - LENGTH_BYTES) as u16;
        LittleEndian::write_u16(self.bytes.as_mut_slice(), length);
    }
}
