//! How requests come.

ghost use Rattle.std.specs.Prelude.{◌≡◌, ◌<◌, ◌≤◌, ◌++◌, ℕ, List, length, take, true, false};
ghost use Rattle.serving.specs.Input.{Spelling, IsSpelling, completed};

/// What stands at the end of the input.
#[derive(Drop)]
pub enum Ending<Q> {
    /// Nothing but whole requests.
    Nothing,

    /// One more request, which the end makes whole.
    One(Q),

    /// A front of a request.
    CutOff,
}

/// What one feed did.
#[derive(Clone, Copy, Debug, PartialEq, Eq)]
pub struct Fed {
    /// How many bytes of the piece were used, from its front.
    pub used: usize,

    /// Whether the last of them made a request whole, which stands in the room for it now.
    pub whole: bool,
}

/// Puts the bytes of an input together to requests.
pub trait Protocol {
    /// What is asked.
    type Request: Drop;

    /// How requests are spelled.
    ghost spelling: { Spelling Self.Request };

    /// It was fed these bytes, in whatever pieces.
    ghost was_fed: { List ℕ → Self → Type 0 };

    /// A request that stands in the room for one until another is put there. Nobody asks for it.
    fn blank() -> Self::Request;

    /// Takes the piece up to the end of its first request, or all of it. A request that is whole then is put into the
    /// room for it.
    fn feed(&mut self, piece: &[u8], into: &mut Self::Request) -> Fed
        /// promise (with some, all, fed, asked): The requests of the bytes fed so far, however they are cut.
        ensures within { result.used ≤ length piece.now }
        ensures some { result.whole ≡ true → 0 < result.used }
        ensures all { result.whole ≡ false → result.used ≡ length piece.now }
        ensures fed { (x : List ℕ) → was_fed x self.old → was_fed (x ++ take result.used piece.now) self.new }
        ensures asked { (x : List ℕ) → was_fed x self.old → spelling.requests (x ++ take result.used piece.now)
            ≡ spelling.requests x ++ completed result.whole into.new };

    /// What stands after the last whole request, the input having come to its end.
    fn ending(&self) -> Ending<Self::Request>
        /// promise: What stands after the last whole request, the input having come to its end.
        ensures { (x : List ℕ) → was_fed x self.now → result ≡ spelling.ending x };

    /// What holds of the spelling.
    ghost lawful: { IsSpelling spelling };
}
