//! A slot as its eight bytes have it.

ghost use Rattle.std.specs.Prelude.{◌≡◌, ◌+◌, ◌^◌, ◌<◌, Some};
ghost use Rattle.pointer_table.specs.Scanning.{is_at};
ghost use Rattle.pointer_table.specs.Raw.{slot_in};

/// A slot: a pair, or none where the source's number is 0.
#[derive(Clone, Copy, Debug)]
pub(crate) struct RawSlot {
    /// One more than the source, or 0.
    pub source: u32,

    /// The target. That of an empty slot doesn't matter.
    pub target: u32,
}

impl RawSlot {
    /// A slot that holds nothing.
    pub(crate) const EMPTY: RawSlot = RawSlot {
        source: 0,
        target: 0,
    };

    /// A slot that holds a pair.
    pub(crate) fn of(source: u32, target: u32) -> RawSlot
        requires { source + 1 < 2 ^ 32 }
        ensures { slot_in result ≡ Some (source, target) }
    {
        RawSlot {
            source: source + 1,
            target,
        }
    }

    /// The pair that it holds.
    pub(crate) fn pair(&self) -> Option<(u32, u32)>
        ensures { result ≡ slot_in self.now }
    {
        if self.source == 0 {
            None
        } else {
            Some((self.source - 1, self.target))
        }
    }

    /// Whether it holds this pair.
    pub(crate) fn holds(&self, source: u32, target: u32) -> bool
        ensures { result ≡ is_at source target (slot_in self.now) }
    {
        match self.pair() {
            Some((from, to)) => from == source && to == target,
            None => false,
        }
    }
}
