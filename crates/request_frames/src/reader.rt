//! The bytes of a body, read from its front field by field. The fields of other bodies are read by it too.

ghost use Rattle.std.specs.Prelude.{◌≡◌, ◌↔◌, [], IsTrue, MatchOption};
ghost use Rattle.request_frames.specs.Reading.{byte_of, taken, num_of, cap_of, shown_of, hint_of, level_of, data_of};
ghost use Rattle.request_frames.specs.Reading.{list_of_blocks, access_of};

use crate::codes::{ABSENT, LEVEL_NONE, LEVEL_READ, LEVEL_WRITE, PRESENT};
use byteorder::{ByteOrder, LittleEndian};
use script_text::parsed::Access;
use std::marker::Model;
use tsd_model::caps::CAP_BYTES;
use tsd_model::lists::DATA_MAX;
use tsd_model::{BlockList, Cap, Data, Hint, Level, Shown};

/// How many bytes a number has.
pub const NUMBER_BYTES: usize = 4;

/// The bytes of a body that aren't read yet. Contracts see them as a list.
#[derive(Drop)]
pub struct BodyReader<'a> {
    left: &'a [u8],
}

impl<'a> Model for BodyReader<'a> {
    ghost use Rattle.std.specs.Prelude.{List, ℕ};

    ghost Value = { List ℕ };

    ghost view = { λ r. r.left.now };
}

impl<'a> BodyReader<'a> {
    /// All bytes of a body.
    pub fn of(body: &'a [u8]) -> BodyReader<'a>
        ensures { result ≡ body.now }
    {
        BodyReader { left: body }
    }

    /// The bytes that are left.
    pub fn left(&self) -> &'a [u8]
        ensures { result.now ≡ self.now }
    {
        self.left
    }

    /// Whether all are read.
    pub fn is_empty(&self) -> bool
        ensures { IsTrue result ↔ (self.now ≡ []) }
    {
        self.left.is_empty()
    }

    /// The next byte.
    pub fn byte(&mut self) -> Option<u8>
        ensures { MatchOption result (byte_of self.old ≡ None) (λ b. byte_of self.old ≡ Some (b, self.new)) }
    {
        let (first, left) = self.left.split_first()?;
        self.left = left;
        Some(*first)
    }

    /// The next bytes, so many.
    pub fn take(&mut self, count: usize) -> Option<&'a [u8]>
        ensures { MatchOption result (taken count self.old ≡ None) (λ bytes. taken count self.old
            ≡ Some (bytes.now, self.new)) }
    {
        let left = self.left;
        if left.len() < count {
            return None;
        }
        self.left = &left[count..];
        Some(&left[..count])
    }

    /// The next four bytes as a number, the lowest first.
    #[tactic(auto, unfolding(crate::specs::Reading::num_of), using(crate::proofs::FieldLaws::number_taken))]
    pub fn number(&mut self) -> Option<u32>
        ensures { MatchOption result (num_of self.old ≡ None) (λ n. num_of self.old ≡ Some (n, self.new)) }
    {
        let bytes = self.take(NUMBER_BYTES)?;
        Some(LittleEndian::read_u32(bytes))
    }

    /// The next 16 bytes as a capability.
    pub fn cap(&mut self) -> Option<Cap>
        ensures { MatchOption result (cap_of self.old ≡ None) (λ c. cap_of self.old ≡ Some (c, self.new)) }
    {
        let taken = self.take(CAP_BYTES)?;
        let mut bytes = [0; CAP_BYTES];
        bytes.copy_from_slice(taken);
        Some(Cap { bytes })
    }

    /// What is shown: a byte 0 for nothing, or a byte 1 and a capability.
    pub fn shown(&mut self) -> Option<Shown>
        ensures { MatchOption result (shown_of self.old ≡ None) (λ c. shown_of self.old ≡ Some (c, self.new)) }
    {
        match self.byte()? {
            ABSENT => Some(Shown::Nothing),
            PRESENT => Some(Shown::Key(self.cap()?)),
            _ => None,
        }
    }

    /// A hint: a byte 0 for none, or a byte 1 and a block's number.
    pub fn hint(&mut self) -> Option<Hint>
        ensures { MatchOption result (hint_of self.old ≡ None) (λ h. hint_of self.old ≡ Some (h, self.new)) }
    {
        match self.byte()? {
            ABSENT => Some(Hint::Null),
            PRESENT => Some(Hint::At(self.number()?)),
            _ => None,
        }
    }

    /// A level.
    pub fn level(&mut self) -> Option<Level>
        ensures { MatchOption result (level_of self.old ≡ None) (λ l. level_of self.old ≡ Some (l, self.new)) }
    {
        match self.byte()? {
            LEVEL_NONE => Some(Level::Bare),
            LEVEL_READ => Some(Level::Read),
            LEVEL_WRITE => Some(Level::Write),
            _ => None,
        }
    }

    /// All bytes that are left as numbers of blocks, at most 64.
    pub fn blocks(mut self) -> Option<BlockList>
        ensures { result ≡ list_of_blocks self.entry }
    {
        let mut blocks = BlockList::new();
        while !self.is_empty() {
            let block = self.number()?;
            if blocks.push(block).is_err() {
                return None;
            }
        }
        Some(blocks)
    }

    /// All bytes that are left, at most 4,096.
    pub fn data(&mut self) -> Option<Data>
        ensures { MatchOption result (data_of self.old ≡ None) (λ d. data_of self.old ≡ Some (d, self.new)) }
    {
        let left = self.left;
        if left.len() > DATA_MAX {
            return None;
        }
        let mut data = Data::new();
        let _fit = data.extend_from_slice(left);
        self.left = &left[left.len()..];
        Some(data)
    }

    /// Session, block and what is shown.
    #[tactic(auto, unfolding(crate::specs::Reading::access_of))]
    pub fn access(&mut self) -> Option<Access>
        ensures { MatchOption result (access_of self.old ≡ None) (λ p. access_of self.old ≡ Some (p, self.new)) }
    {
        let session = self.number()?;
        let block = self.number()?;
        let shown = self.shown()?;
        Some(Access {
            session,
            block,
            shown,
        })
    }
}
