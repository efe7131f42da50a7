//! A line as words that are parted by one space, read from its front.

ghost use Rattle.std.specs.Prelude.{◌≡◌, ◌↔◌, [], ◌∷◌, IsTrue, MatchOption, position, ◌==◌};
ghost use Rattle.script_text.specs.Pieces.{pieces, words_left};
ghost use Rattle.script_text.specs.Reading.{reads, num_of, new_of, shown_of, hint_of, access_of};

use crate::fields::{parse_cap, parse_hint, parse_number, parse_shown};
use crate::parsed::Access;
use std::marker::Model;
use tsd_model::{Cap, Hint, Shown};

/// The words of a line that aren't read yet. Contracts see them as a list.
#[derive(Drop)]
pub struct Words<'a> {
    rest: Option<&'a [u8]>,
}

impl<'a> Model for Words<'a> {
    ghost use Rattle.std.specs.Prelude.{List, ℕ};
    ghost use Rattle.script_text.specs.Pieces.{words_left};

    ghost Value = { List (List ℕ) };

    ghost view = { λ w. words_left w.rest };
}

impl<'a> Words<'a> {
    /// All words of a line. Where two spaces stand side by side, or one at an end, a word is empty.
    pub fn of(line: &'a [u8]) -> Words<'a>
        ensures { result ≡ pieces 32 line.now }
    {
        Words { rest: Some(line) }
    }

    /// The next word.
    pub fn next(&mut self) -> Option<&'a [u8]>
        ensures { MatchOption result ((self.old ≡ []) × (self.new ≡ [])) (λ word. self.old
            ≡ word.now ∷ self.new) }
    {
        match self.rest {
            None => None,
            Some(rest) => {
                let (word, rest) = cut(rest);
                self.rest = rest;
                Some(word)
            }
        }
    }

    /// Whether all are read.
    pub fn is_empty(&self) -> bool
        ensures { IsTrue result ↔ (self.now ≡ []) }
    {
        self.rest.is_none()
    }

    /// The next word as a number.
    pub fn number(&mut self) -> Option<u32>
        ensures { MatchOption result (reads num_of self.old ≡ None) (λ n. reads num_of self.old
            ≡ Some (n, self.new)) }
    {
        let word = self.next()?;
        parse_number(word)
    }

    /// The next word as what is shown.
    pub fn shown(&mut self) -> Option<Shown>
        ensures { MatchOption result (reads shown_of self.old ≡ None) (λ c. reads shown_of self.old
            ≡ Some (c, self.new)) }
    {
        let word = self.next()?;
        parse_shown(word)
    }

    /// The next word as a capability.
    pub fn new_cap(&mut self) -> Option<Cap>
        ensures { MatchOption result (reads new_of self.old ≡ None) (λ c. reads new_of self.old
            ≡ Some (c, self.new)) }
    {
        let word = self.next()?;
        parse_cap(word)
    }

    /// The next word as a hint.
    pub fn hint(&mut self) -> Option<Hint>
        ensures { MatchOption result (reads hint_of self.old ≡ None) (λ h. reads hint_of self.old
            ≡ Some (h, self.new)) }
    {
        let word = self.next()?;
        parse_hint(word)
    }

    /// The next three words as session, block and what is shown.
    #[tactic(auto, unfolding(crate::specs::Reading::access_of))]
    pub fn access(&mut self) -> Option<Access>
        ensures { MatchOption result (access_of self.old ≡ None) (λ p. access_of self.old ≡ Some (p, self.new)) }
    {
        let session = self.number()?;
        let block = self.number()?;
        let shown = self.shown()?;
        Some(Access {
            session,
            block,
            shown,
        })
    }
}

/// Where a byte first stands.
pub(crate) fn first_position(bytes: &[u8], at: u8) -> Option<usize>
    ensures { result ≡ position (λ b. b == at) bytes.now }
{
    memchr::memchr(at, bytes)
}

/// What stands before the first space, and after it.
fn cut(line: &[u8]) -> (&[u8], Option<&[u8]>)
    ensures { pieces 32 line.now ≡ result.0.now ∷ words_left result.1 }
{
    match first_position(line, b' ') {
        Some(i) => (&line[..i], Some(&line[i + 1..])),
        None => (line, None),
    }
}
