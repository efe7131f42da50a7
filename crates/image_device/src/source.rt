// Where the program's input comes from.
ghost use Rattle.std.specs.Prelude.{◌≡◌, ◌≤◌, ◌<◌, ◌++◌, ◌↔◌, [], ℕ, List, length, take};
ghost use Rattle.std.specs.Prelude.{drop, OnErr, IfOk};
ghost use Rattle.image_device.specs.Counts.{CountsEnd, CountsFault};

use crate::Failed;

/// A stream of bytes that comes to an end.
pub trait Source {
    /// Whether it tells its bytes.
    ghost told: { Type 0 };

    /// The bytes still to come.
    ghost left_bytes: { Self → List ℕ };

    /// The bytes taken so far.
    ghost taken: { Self → List ℕ };

    /// Whether a take must find the end.
    ghost ended: { Self → Type 0 };

    /// How often a take found the end.
    ghost ends: { Self → ℕ };

    /// How often a take failed.
    ghost faults: { Self → ℕ };

    /// Takes the next bytes into the front of `into`, and gives how many. It is 0 exactly at the
    /// end, which stays. The room behind them stays as it was. `Failed` comes only where `faults`
    /// rose, takes nothing and leaves all of `into` as it was. Ok leaves `faults` as it was.
    fn take(&mut self, into: &mut [u8]) -> Result<usize, Failed>
        requires { 0 < length into.old }
        ensures room { IfOk result (λ count. count ≤ length into.old) }
        /// promise (with end): The next bytes of the input, and none exactly at its end.
        ensures bytes { told → IfOk result (λ count. left_bytes self.old ≡ take count into.new
            ++ left_bytes self.new) }
        ensures taken { told → IfOk result (λ count. taken self.new ≡ taken self.old ++ take count into.new) }
        ensures end { told → IfOk result (λ count. (count ≡ 0) ↔ (left_bytes self.old ≡ [])) }
        ensures found_end { IfOk result (λ count. ((count ≡ 0) → ended self.new) × (ended self.old
            → count ≡ 0)) }
        /// promise (with found_end): A source counts how often a take found its end; the end, once found, stays.
        ensures ends { CountsEnd result (ends self.old) (ends self.new) }
        ensures stays { ended self.old → ended self.new }
        ensures err { told → OnErr result ((left_bytes self.new ≡ left_bytes self.old)
            × (taken self.new ≡ taken self.old)) }
        ensures behind { IfOk result (λ count. drop count into.new ≡ drop count into.old) }
        ensures kept { OnErr result (into.new ≡ into.old) }
        ensures later { faults self.old ≤ faults self.new }
        ensures faults { CountsFault result (faults self.old) (faults self.new) };
}
