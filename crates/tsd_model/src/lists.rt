//! Lists of bounded length, which take no memory. Contracts see each as the list of its items.

ghost use Rattle.std.specs.Prelude.{◌≡◌, ◌↔◌, ◌<◌, ◌≤◌, ◌+◌, [], ◌∷◌, ◌++◌, length};
ghost use Rattle.std.specs.Prelude.{take, cond, nat_eq, IsTrue, IsOk, OnOk, OnErr};
ghost use Rattle.std.specs.Cmp.{partial_equiv_from_equiv};
ghost use Rattle.std.specs.Cmp.Lexicographic.{nat_list_eq_equiv, pointwise};

use crate::caps::CapPair;
use arrayvec::ArrayVec;
use std::marker::Model;

/// The list holds its greatest number of items.
#[derive(Clone, Copy, Debug, PartialEq, Eq)]
pub struct ListFull;

/// How many bytes the largest block has.
pub const DATA_MAX: usize = 4096;

/// How many targets one request lists.
pub const BLOCKS_MAX: usize = 64;

/// How many primary blocks a disk may have.
pub const CAPS_MAX: usize = 16;

const _: () = prove!(DATA_MAX == 4096);

const _: () = prove!(BLOCKS_MAX == 64);

const _: () = prove!(CAPS_MAX == 16);

/// Bytes to write or that were read, at most 4,096.
#[derive(Debug, Drop)]
pub struct Data {
    bytes: ArrayVec<u8, DATA_MAX>,
}

impl Model for Data {
    ghost use Rattle.std.specs.Prelude.{List, ℕ};

    ghost Value = { List ℕ };

    ghost view = { λ d. d.bytes.items };
}

impl PartialEq for Data {
    ghost eq = { pointwise nat_eq };

    ghost laws = { partial_equiv_from_equiv nat_list_eq_equiv };

    fn eq(&self, other: &Data) -> bool {
        self.bytes.as_slice() == other.bytes.as_slice()
    }
}

impl Eq for Data {
    ghost laws = { nat_list_eq_equiv };
}

impl Data {
    /// No bytes.
    pub fn new() -> Data
        ensures { result ≡ [] }
    {
        Data {
            bytes: ArrayVec::new(),
        }
    }

    /// How many bytes.
    pub fn len(&self) -> usize
        ensures value { result ≡ length self.now }
        ensures fits { result ≤ DATA_MAX }
    {
        self.bytes.len()
    }

    /// Whether there is none.
    pub fn is_empty(&self) -> bool
        ensures { IsTrue result ↔ (self.now ≡ []) }
    {
        self.bytes.is_empty()
    }

    /// The bytes.
    pub fn as_slice(&self) -> &[u8]
        ensures value { result.now ≡ self.now }
        ensures fits { length self.now ≤ DATA_MAX }
    {
        self.bytes.as_slice()
    }

    /// Adds a byte at the end. A full list stays as it is.
    pub fn push(&mut self, item: u8) -> Result<(), ListFull>
        /// promise (with ok, err): One byte more at the end; refused, with nothing changed, exactly where the list is
        /// full.
        ensures variant { IsOk result ↔ (length self.old < DATA_MAX) }
        ensures ok { OnOk result (self.new ≡ self.old ++ item ∷ []) }
        ensures err { OnErr result (self.new ≡ self.old) }
    {
        match self.bytes.try_push(item) {
            Ok(()) => Ok(()),
            Err(_) => Err(ListFull),
        }
    }

    /// Adds bytes at the end, all of them or none.
    pub fn extend_from_slice(&mut self, items: &[u8]) -> Result<(), ListFull>
        ensures variant { IsOk result ↔ (length self.old + length items.now ≤ DATA_MAX) }
        ensures ok { OnOk result (self.new ≡ self.old ++ items.now) }
        ensures err { OnErr result (self.new ≡ self.old) }
    {
        match self.bytes.try_extend_from_slice(items) {
            Ok(()) => Ok(()),
            Err(_) => Err(ListFull),
        }
    }
}

/// Blocks, at most 64.
#[derive(Debug, Drop)]
pub struct BlockList {
    blocks: ArrayVec<u32, BLOCKS_MAX>,
}

impl Model for BlockList {
    ghost use Rattle.std.specs.Prelude.{List, ℕ};

    ghost Value = { List ℕ };

    ghost view = { λ d. d.blocks.items };
}

impl PartialEq for BlockList {
    ghost eq = { pointwise nat_eq };

    ghost laws = { partial_equiv_from_equiv nat_list_eq_equiv };

    fn eq(&self, other: &BlockList) -> bool {
        self.blocks.as_slice() == other.blocks.as_slice()
    }
}

impl Eq for BlockList {
    ghost laws = { nat_list_eq_equiv };
}

impl BlockList {
    /// No blocks.
    pub fn new() -> BlockList
        ensures { result ≡ [] }
    {
        BlockList {
            blocks: ArrayVec::new(),
        }
    }

    /// How many blocks.
    pub fn len(&self) -> usize
        ensures value { result ≡ length self.now }
        ensures fits { result ≤ BLOCKS_MAX }
    {
        self.blocks.len()
    }

    /// Whether there is none.
    pub fn is_empty(&self) -> bool
        ensures { IsTrue result ↔ (self.now ≡ []) }
    {
        self.blocks.is_empty()
    }

    /// The blocks.
    pub fn as_slice(&self) -> &[u32]
        ensures value { result.now ≡ self.now }
        ensures fits { length self.now ≤ BLOCKS_MAX }
    {
        self.blocks.as_slice()
    }

    /// Adds a block at the end. A full list stays as it is.
    pub fn push(&mut self, item: u32) -> Result<(), ListFull>
        /// promise (with ok, err): One block more at the end; refused, with nothing changed, exactly where the list is
        /// full.
        ensures variant { IsOk result ↔ (length self.old < BLOCKS_MAX) }
        ensures ok { OnOk result (self.new ≡ self.old ++ item ∷ []) }
        ensures err { OnErr result (self.new ≡ self.old) }
    {
        match self.blocks.try_push(item) {
            Ok(()) => Ok(()),
            Err(_) => Err(ListFull),
        }
    }
}

impl BlockList {
    /// Adds a block at the end where it is wanted and there is room.
    pub fn push_wanted(&mut self, item: u32, wanted: bool)
        ensures { self.new ≡ take BLOCKS_MAX (self.old ++ cond wanted (item ∷ []) []) }
    {
        let len = self.len();
        if wanted && len < BLOCKS_MAX {
            self.blocks.push(item);
        }
    }

    /// Adds blocks at the end, all of them or none.
    pub fn extend_from_slice(&mut self, items: &[u32]) -> Result<(), ListFull>
        ensures variant { IsOk result ↔ (length self.old + length items.now ≤ BLOCKS_MAX) }
        ensures ok { OnOk result (self.new ≡ self.old ++ items.now) }
        ensures err { OnErr result (self.new ≡ self.old) }
    {
        match self.blocks.try_extend_from_slice(items) {
            Ok(()) => Ok(()),
            Err(_) => Err(ListFull),
        }
    }
}

/// Pairs of capabilities, by primary block, at most 16.
#[derive(Debug, Drop)]
pub struct CapList {
    caps: ArrayVec<CapPair, CAPS_MAX>,
}

impl Model for CapList {
    ghost use Rattle.std.specs.Prelude.{List};
    ghost use Rattle.tsd_model.specs.declared.caps.CapPair.{CapPair};

    ghost Value = { List CapPair };

    ghost view = { λ d. d.caps.items };
}

impl CapList {
    /// No pairs.
    pub fn new() -> CapList
        ensures { result ≡ [] }
    {
        CapList {
            caps: ArrayVec::new(),
        }
    }

    /// How many pairs.
    pub fn len(&self) -> usize
        ensures value { result ≡ length self.now }
        ensures fits { result ≤ CAPS_MAX }
    {
        self.caps.len()
    }

    /// Whether there is none.
    pub fn is_empty(&self) -> bool
        ensures { IsTrue result ↔ (self.now ≡ []) }
    {
        self.caps.is_empty()
    }

    /// The pairs.
    pub fn as_slice(&self) -> &[CapPair]
        ensures value { result.now ≡ self.now }
        ensures fits { length self.now ≤ CAPS_MAX }
    {
        self.caps.as_slice()
    }

    /// Adds a pair at the end. A full list stays as it is.
    pub fn push(&mut self, item: CapPair) -> Result<(), ListFull>
        /// promise (with ok, err): One pair more at the end; refused, with nothing changed, exactly where the list is
        /// full.
        ensures variant { IsOk result ↔ (length self.old < CAPS_MAX) }
        ensures ok { OnOk result (self.new ≡ self.old ++ item ∷ []) }
        ensures err { OnErr result (self.new ≡ self.old) }
    {
        match self.caps.try_push(item) {
            Ok(()) => Ok(()),
            Err(_) => Err(ListFull),
        }
    }
}
