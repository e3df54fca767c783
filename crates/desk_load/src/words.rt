//! Random words of a worker.
ghost use Rattle.std.specs.Prelude.{◌≡◌};
ghost use Rattle.random_words.specs.Draws.{draw_from, after_words};
ghost use Rattle.desk_load.specs.Words.{seed_under, generator_at};

use random_words::{RandomWords, WordStream};

// The number in 8 bytes, the low one first, and zeros behind it.
fn seed_under(start: u64) -> [u8; 32]
    ensures { result ≡ seed_under start }
{
    let mut seed = [0; 32];
    seed[0..8].copy_from_slice(&start.to_le_bytes());
    seed
}

/// Words of ChaCha20 under a seed that begins with a number, in a stream for each worker.
#[derive(Drop)]
pub struct Words {
    generator: WordStream,
}

impl Words {
    /// The words of the worker of a number, from the first on.
    pub fn new(start: u64, worker: u64) -> Words
        ensures { result.generator ≡ generator_at start worker 0 }
    {
        Words {
            generator: WordStream::new(seed_under(start), worker),
        }
    }

    /// The next 48 words of 64 bits, each of two words of ChaCha20, the low half first.
    pub fn draw(&mut self) -> RandomWords
        ensures draw { result ≡ draw_from self.old.generator }
        ensures next { self.new.generator ≡ after_words 48 self.old.generator }
    {
        self.generator.draw()
    }
}
