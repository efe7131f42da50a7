//! The capabilities that a seed gives.

ghost use Rattle.std.specs.Prelude.{◌≡◌, ◌+◌, ◌^◌, ◌<◌, ◌++◌};
ghost use Rattle.std.specs.Int.{w32, to_le_bytes};
ghost use Rattle.rand_chacha.specs.ChaCha.{word_at};
ghost use Rattle.cap_store.specs.Seeds.{cap_at, seed_pairs};

use rand_chacha::ChaCha20Rng;
use rand_core::SeedableRng;
use rand_core::utils::fill_bytes_via_u32;
use tsd_model::caps::CAP_BYTES;
use tsd_model::lists::CAPS_MAX;
use tsd_model::{Cap, CapList, CapPair};

/// The capability of the next four words, each with its lowest byte first.
fn next_cap(words: &mut ChaCha20Rng) -> Cap
    requires { words.old.word_pos + 4 < 2 ^ 68 }
    ensures value { result ≡ cap_at words.old.key words.old.stream words.old.word_pos }
    ensures position { words.new ≡ record words.old { word_pos = words.old.word_pos + 4 } }
{
    let mut bytes = [0; CAP_BYTES];
    fill_bytes_via_u32(words, &mut bytes);
    Cap { bytes }
}

/// The pairs of sixteen primary blocks that a seed gives. The words of its stream by ChaCha20, from the first on, serve
/// block after block: four words for the capability to read and the next four for that to write.
pub fn seed_caps(seed: &[u8; 32]) -> CapList
    /// promise: The pairs that a seed gives: the words of its ChaCha20 stream, from the first on.
    ensures { result ≡ seed_pairs seed.now }
{
    let mut words = ChaCha20Rng::from_seed(*seed);
    let mut caps = CapList::new();
    for block in 0..CAPS_MAX {
        let read = next_cap(&mut words);
        let write = next_cap(&mut words);
        caps.push(CapPair { read, write }).unwrap();
    }
    caps
}
