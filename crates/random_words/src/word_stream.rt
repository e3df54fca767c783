//! The words of one entry after another.
ghost use Rattle.std.specs.Prelude.{◌≡◌, ◌<◌};
ghost use Rattle.rand_chacha.specs.ChaCha.{key_of};
ghost use Rattle.random_words.specs.Draws.{draw_from, after_words};

use crate::words::RandomWords;
use rand_chacha::ChaCha20Rng;
use rand_core::SeedableRng;
use std::marker::Model;

/// A block of ChaCha20 has 16 words of 32 bits (RFC 8439, section 2.3).
const WORDS_OF_BLOCK: u128 = 16;

/// 48 words of 64 bits take so many blocks.
const BLOCKS_OF_DRAW: u64 = 6;

/// Gives 48 words after another. Contracts see the generator of the words to come: its key, the number of its stream, and the place of its next word of 32 bits.
#[derive(Drop)]
pub struct WordStream {
    seed: [u8; 32],
    stream: u64,
    block: u64,
}

impl Model for WordStream {
    ghost use Rattle.std.specs.Prelude.{◌*◌, ◌<◌, ◌^◌};
    ghost use Rattle.rand_chacha.specs.ChaCha.{ChaCha, key_of};

    ghost Value = { ChaCha };

    ghost view = { λ s. record { key = key_of s.seed; stream = s.stream; word_pos = s.block * 16 } };

    ghost invariant = { λ s. s.block < 2 ^ 64 };
}

impl WordStream {
    /// The words under this seed of 32 bytes in the stream of this number, from the first one on.
    pub fn new(seed: [u8; 32], stream: u64) -> WordStream
        ensures { result ≡ record { key = key_of seed; stream = stream; word_pos = 0 } }
    {
        WordStream {
            seed,
            stream,
            block: 0,
        }
    }

    /// The next 48 words, none of which is made yet. After 2^64 blocks the stream begins again.
    pub fn draw(&mut self) -> RandomWords
        ensures draw { result ≡ draw_from self.old }
        ensures next { self.new ≡ after_words 48 self.old }
    {
        let block = self.block;
        self.block = block.wrapping_add(BLOCKS_OF_DRAW);
        RandomWords::ahead(WordStream {
            seed: self.seed,
            stream: self.stream,
            block,
        })
    }

    // The same words to come.
    pub(crate) fn again(&self) -> WordStream
        ensures { result ≡ self.now }
    {
        WordStream {
            seed: self.seed,
            stream: self.stream,
            block: self.block,
        }
    }

    // The generator behind so many words of 64 bits.
    pub(crate) fn generator(&self, words: usize) -> ChaCha20Rng
        requires { words < 48 }
        ensures { result ≡ after_words words self.now }
    {
        let mut generator = ChaCha20Rng::from_seed(self.seed);
        generator.set_stream(self.stream);
        generator.set_word_pos(u128::from(self.block) * WORDS_OF_BLOCK + 2 * words as u128);
        generator
    }
}
