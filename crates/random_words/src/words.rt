//! The words of one entry.
ghost use Rattle.std.specs.Prelude.{◌≡◌, ◌<◌, ◌≤◌, slice_index, replicate, IfOk, IfSome};
ghost use Rattle.random_words.specs.Draws.{draw_from};

use crate::word_stream::WordStream;
use bytes_and_lists::memory::Mem;
use rand_core::utils::next_u64_via_u32;
use std::alloc::Global;
use std::marker::Model;

/// So many of the 48 words are made ahead at most. They are moved with a call, and few calls look at more.
pub const MOST_MADE: usize = 16;

// Words of a stream, the first ones of which are made.
#[derive(Drop)]
struct Begun {
    words: [u64; MOST_MADE],
    made: usize,
    stream: WordStream,
}

impl Model for Begun {
    ghost use Rattle.std.specs.Prelude.{◌≡◌, ◌≤◌, ℕ, List, take};
    ghost use Rattle.random_words.specs.Draws.{draw_from};

    ghost Value = { List ℕ };

    ghost view = { λ b. draw_from b.stream };

    ghost invariant = { λ b. (b.made ≤ 16) × (take b.made b.words ≡ take b.made (draw_from b.stream)) };
}

impl Begun {
    // With so many words made.
    fn of(stream: WordStream, made: usize) -> Begun
        requires { made ≤ 16 }
        ensures { result ≡ draw_from stream }
    {
        let mut words = [0; MOST_MADE];
        let mut generator = stream.generator(0);
        for i in 0..made {
            words[i] = next_u64_via_u32(&mut generator);
        }
        Begun {
            words,
            made,
            stream,
        }
    }

    fn word(&self, place: usize) -> u64
        requires { place < 48 }
        ensures { result ≡ slice_index self.now place }
    {
        if place < self.made {
            self.words[place]
        } else {
            word_of(&self.stream, place)
        }
    }
}

// A word of those that come next in a stream.
fn word_of(stream: &WordStream, place: usize) -> u64
    requires { place < 48 }
    ensures { result ≡ slice_index (draw_from stream.now) place }
{
    next_u64_via_u32(&mut stream.generator(place))
}

// Where the words are.
#[derive(Drop)]
enum Source {
    Zeros,
    Given(Box<[u64; 48]>),
    Ahead(WordStream),
    Begun(Begun),
}

/// 48 random words of 64 bits. Contracts see the list of them.
#[derive(Drop)]
pub struct RandomWords {
    source: Source,
}

impl Model for RandomWords {
    ghost use Rattle.std.specs.Prelude.{ℕ, List};
    ghost use Rattle.random_words.specs.Words.{words_of};

    ghost Value = { List ℕ };

    ghost view = { λ w. words_of w.source };
}

impl RandomWords {
    /// 48 zeros.
    pub fn zeros() -> RandomWords
        ensures { result ≡ replicate 48 0 }
    {
        RandomWords {
            source: Source::Zeros,
        }
    }

    /// These words, in memory of their own.
    pub fn given(alloc: Global, words: [u64; 48]) -> Result<RandomWords, Mem>
        ensures { IfOk result (λ given. given ≡ words) }
    {
        Ok(RandomWords {
            source: Source::Given(Box::new(alloc, words)?),
        })
    }

    // The words that come next in a stream, none of them made.
    pub(crate) fn ahead(stream: WordStream) -> RandomWords
        ensures { result ≡ draw_from stream }
    {
        RandomWords {
            source: Source::Ahead(stream),
        }
    }

    /// The same words with so many made, from the first one on, or `MOST_MADE` where that is less. `None` says that there is nothing to make: the count is 0,
    /// or they aren't words of a stream, or some are made already. A word that isn't made takes four blocks of ChaCha20 each time that it is looked at.
    pub fn with_made(&self, count: usize) -> Option<RandomWords>
        requires { count ≤ 48 }
        ensures { IfSome result (λ words. words ≡ self.now) }
    {
        match &self.source {
            Source::Ahead(stream) if count > 0 => Some(RandomWords {
                source: Source::Begun(Begun::of(stream.again(), count.min(MOST_MADE))),
            }),
            _ => None,
        }
    }

    /// What `with_made` gave of these words, or, where it gave nothing, these.
    pub fn or_made<'a>(&'a self, made: &'a Option<RandomWords>) -> &'a RandomWords
        requires { IfSome made.now (λ words. words ≡ self.now) }
        ensures { result.now ≡ self.now }
    {
        match made {
            Some(words) => words,
            None => self,
        }
    }

    /// The word at a place, counted from 0.
    pub fn word(&self, place: usize) -> u64
        requires { place < 48 }
        ensures { result ≡ slice_index self.now place }
    {
        match &self.source {
            Source::Zeros => 0,
            Source::Given(words) => words[place],
            Source::Ahead(stream) => word_of(stream, place),
            Source::Begun(begun) => begun.word(place),
        }
    }
}
