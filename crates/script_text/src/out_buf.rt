//! A line to be sent, in a buffer of bounded size.

ghost use Rattle.std.specs.Prelude.{◌≡◌, ◌↔◌, ◌+◌, ◌<◌, ◌≤◌, [], ◌∷◌, ◌++◌, length};
ghost use Rattle.std.specs.Prelude.{IsOk, OnOk, OnErr};

use crate::parse::LINE_MAX;
use arrayvec::ArrayVec;
use std::marker::Model;
use tsd_model::ListFull;

/// At most 8,400 bytes. It takes no memory. Contracts see it as the list of its bytes.
#[derive(Drop)]
pub struct OutBuf {
    bytes: ArrayVec<u8, LINE_MAX>,
}

impl Model for OutBuf {
    ghost use Rattle.std.specs.Prelude.{List, ℕ};

    ghost Value = { List ℕ };

    ghost view = { λ b. b.bytes.items };
}

impl OutBuf {
    /// No bytes.
    pub fn new() -> OutBuf
        ensures { result ≡ [] }
    {
        OutBuf {
            bytes: ArrayVec::new(),
        }
    }

    /// Takes all bytes out.
    pub fn clear(&mut self)
        ensures { self.new ≡ [] }
    {
        self.bytes.clear();
    }

    /// Adds a byte at the end. A full buffer stays as it is.
    pub fn push(&mut self, byte: u8) -> Result<(), ListFull>
        ensures variant { IsOk result ↔ (length self.old < LINE_MAX) }
        ensures ok { OnOk result (self.new ≡ self.old ++ byte ∷ []) }
        ensures err { OnErr result (self.new ≡ self.old) }
    {
        match self.bytes.try_push(byte) {
            Ok(()) => Ok(()),
            Err(_) => Err(ListFull),
        }
    }

    /// Adds bytes at the end, for which there is room.
    pub fn put(&mut self, bytes: &[u8])
        requires { length self.old + length bytes.now ≤ LINE_MAX }
        ensures { self.new ≡ self.old ++ bytes.now }
    {
        let _fit = self.bytes.try_extend_from_slice(bytes);
    }

    /// The bytes.
    pub fn as_slice(&self) -> &[u8]
        ensures value { result.now ≡ self.now }
        ensures fits { length self.now ≤ LINE_MAX }
    {
        self.bytes.as_slice()
    }
}
