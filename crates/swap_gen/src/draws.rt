//! Words drawn one after another.

ghost use Rattle.std.specs.Prelude.{◌≡◌, ◌%◌, ◌<◌};
ghost use Rattle.swap_gen.specs.Word.{seed_key_bytes, next, word};

use rand_chacha::ChaCha20Rng;
use rand_core::SeedableRng;
use rand_core::utils::NextWord;
use std::marker::Model;

/// The words that a number gives, from a place on.
#[derive(Drop)]
pub(crate) struct Draws {
    seed: u32,
    words: ChaCha20Rng,
}

impl Model for Draws {
    ghost use Rattle.std.specs.Prelude.{◌≡◌};
    ghost use Rattle.rand_chacha.specs.ChaCha.{key_of};
    ghost use Rattle.swap_gen.specs.Word.{seed_key_bytes, DrawState};

    ghost Value = { DrawState };

    ghost view = { λ d. record { seed = d.seed; place = d.words.word_pos } };

    ghost invariant = { λ d. (d.words.key ≡ key_of (seed_key_bytes d.seed)) × (d.words.stream ≡ 0) };
}

fn cipher_key(seed: u32) -> [u8; 32]
    ensures { result ≡ seed_key_bytes seed }
{
    let mut key = [0; 32];
    key[..8].copy_from_slice(&(seed as u64).to_be_bytes());
    key
}

impl Draws {
    pub(crate) fn new(seed: u32) -> Draws
        ensures { result ≡ record { seed = seed; place = 0 } }
    {
        Draws {
            seed,
            words: ChaCha20Rng::from_seed(cipher_key(seed)),
        }
    }

    pub(crate) fn draw(&mut self) -> u32
        ensures word { result ≡ word self.old.seed self.old.place }
        ensures place { self.new ≡ record self.old { place = next self.old.place } }
    {
        self.words.next_word()
    }

    /// The next word as a number below n.
    pub(crate) fn draw_bounded(&mut self, n: u8) -> u8
        requires { 0 < n }
        ensures word { result ≡ word self.old.seed self.old.place % n }
        ensures place { self.new ≡ record self.old { place = next self.old.place } }
    {
        (self.draw() % n as u32) as u8
    }
}
