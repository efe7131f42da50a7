//! The generator.

ghost use Rattle.std.specs.Prelude.{◌≡◌, ◌+◌, ◌<◌, ◌≤◌};
ghost use Rattle.tsd_model.specs.Geometry.{IsLawful};
ghost use Rattle.load_gen.specs.Load.{load_after, next_request};

use crate::asked::{SESSION, request_of_words};
use cap_store::seed_caps;
use rand_chacha::ChaCha20Rng;
use rand_core::SeedableRng;
use rand_core::utils::NextWord;
use std::marker::Model;
use tsd_model::{CapList, Geometry, Request};

/// How many requests a generator draws at the most.
pub const DRAWS_MAX: u32 = 200_000;

/// The words before those of requests: eight for each of sixteen primary blocks.
const CAP_WORDS: u128 = 128;

/// With how many requests one more block may be named.
const DRAWS_PER_BLOCK: u32 = 4;

const _: () = prove!(DRAWS_MAX == 200_000);

const _: () = prove!(CAP_WORDS == 128);

const _: () = prove!(DRAWS_PER_BLOCK == 4);

/// The requests of a seed for a disk of some size, drawn one by one. Contracts see the key of its words, the pairs of
/// the primary blocks, the size, and how many are drawn.
#[derive(Drop)]
pub struct LoadGen {
    /// From the first word of the next request on.
    words: ChaCha20Rng,
    caps: CapList,
    geometry: Geometry,
    drawn: u32,
}

impl Model for LoadGen {
    ghost use Rattle.load_gen.specs.Load.{Generator};
    ghost use Rattle.load_gen.specs.Words.{StandsAtRequest};

    ghost Value = { Generator };

    ghost view = { λ g. record { key = g.words.key; pairs = g.caps; geometry = g.geometry; drawn = g.drawn } };

    ghost invariant = { λ g. StandsAtRequest g.words g.geometry g.drawn };
}

impl LoadGen {
    /// The generator of a seed and a size, which has drawn nothing.
    pub fn new(seed: &[u8; 32], geometry: &Geometry) -> LoadGen
        requires { IsLawful geometry.now }
        ensures { result ≡ load_after seed.now geometry.now 0 }
    {
        let mut words = ChaCha20Rng::from_seed(*seed);
        words.set_word_pos(CAP_WORDS);
        LoadGen {
            words,
            caps: seed_caps(seed),
            geometry: *geometry,
            drawn: 0,
        }
    }

    /// How many requests are drawn.
    pub fn drawn(&self) -> u32
        ensures value { result ≡ self.now.drawn }
        ensures few { result ≤ DRAWS_MAX }
    {
        self.drawn
    }

    /// Draws the next request.
    pub fn next_request(&mut self) -> Request
        requires { self.old.drawn < DRAWS_MAX }
        /// promise (with drawn): Exactly the request of the generator's number, a function of the words of the seed's
        /// stream, of the seed's capabilities and of the size of the disk; and it is counted.
        ensures request { result ≡ next_request self.old }
        ensures drawn { self.new ≡ record self.old { drawn = self.old.drawn + 1 } }
    {
        let number = self.drawn;
        self.drawn += 1;
        if number == 0 {
            return Request::Begin { session: SESSION };
        }
        let named = self.geometry.blocks.min(1 + number / DRAWS_PER_BLOCK);
        let x = self.words.next_word();
        let y = self.words.next_word();
        request_of_words(&self.caps, self.geometry.primaries, named, x, y)
    }
}
