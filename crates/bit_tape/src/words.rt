//! The words of a seed.
ghost use Rattle.std.specs.Prelude.{◌≡◌, ◌+◌, ◌^◌, ◌<◌};
ghost use Rattle.rand_chacha.specs.ChaCha.{of_seed};
ghost use Rattle.bit_tape.specs.Bits.{seed_bytes, seed_word};

use rand_chacha::ChaCha20Rng;
use rand_core::SeedableRng;
use rand_core::utils::NextWord;
use std::marker::Model;

/// The words 0, 1, 2, .. of ChaCha20 with stream 0 under a seed.
#[derive(Drop)]
pub struct Words {
    seed: u64,
    generator: ChaCha20Rng,
}

impl Model for Words {
    ghost use Rattle.std.specs.Prelude.{◌≡◌};
    ghost use Rattle.rand_chacha.specs.ChaCha.{of_seed};
    ghost use Rattle.bit_tape.specs.Bits.{seed_bytes};
    ghost use Rattle.bit_tape.specs.Words.{SeedWords};

    ghost Value = { SeedWords };

    ghost view = { λ w. record { seed = w.seed; place = w.generator.word_pos } };

    ghost invariant = { λ w. w.generator ≡ record (of_seed (seed_bytes w.seed)) {
      word_pos =
          w.generator.word_pos;
    } };
}

impl Words {
    /// The words of the seed, none of which was given. The generator's seed is the number as 8
    /// bytes, least first, and 24 zero bytes.
    pub fn new(seed: u64) -> Words
        ensures { result ≡ record { seed = seed; place = 0 } }
    {
        let mut bytes = [0u8; 32];
        bytes[0..8].copy_from_slice(&seed.to_le_bytes());
        Words {
            seed,
            generator: ChaCha20Rng::from_seed(bytes),
        }
    }

    /// The next word.
    #[tactic(auto, unfolding(crate::specs::Bits::seed_word))]
    pub fn next(&mut self) -> u32
        requires { self.old.place < 2 ^ 60 }
        ensures word { result ≡ seed_word self.old.seed self.old.place }
        ensures after { self.new ≡ record self.old { place = self.old.place + 1 } }
    {
        self.generator.next_word()
    }
}
