//! What came in and wasn't read yet.

ghost use Rattle.std.specs.Prelude.{◌≤◌, ◌+◌, ◌^◌};

/// The most bytes of input that a run serves.
pub const INPUT_MAX: u64 = 1 << 40;

/// The most bytes that one take gives.
pub const TAKE_MAX: usize = 65_536;

/// What comes next.
#[derive(Clone, Copy, Debug, PartialEq, Eq)]
pub enum Next {
    /// A request, which stands in the room for it now.
    Request,

    /// The end: all requests were handed out.
    End,

    /// The end, inside a request.
    CutOff,

    /// A take failed.
    Fault,

    /// More bytes came than are served.
    TooLong,
}

/// Takes an input piece by piece, and hands out its requests one by one.
#[derive(Drop)]
pub struct Intake {
    /// The last bytes that were taken.
    pub(crate) room: [u8; TAKE_MAX],

    /// Where those begin that weren't read.
    pub(crate) from: usize,

    /// Where they end: those past the limit aren't read.
    pub(crate) to: usize,

    /// How many bytes were taken.
    pub(crate) taken: u64,

    /// How many are served.
    pub(crate) limit: u64,

    /// Whether the input has come to its end, and its last request was handed out.
    pub(crate) over: bool,

    ghost ordered: { from ≤ to },
    ghost within: { to ≤ 65536 },
    ghost few: { taken ≤ limit + 1 },
    ghost short: { limit ≤ 2 ^ 40 },
}
