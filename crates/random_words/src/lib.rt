//! The random words of an entry of a history: 48 words of 64 bits, made when they are looked at.
//!
//! `RandomWords` are those of one entry. Contracts see the list of all 48, made or not. A `WordStream` gives the words of one entry after another: those of
//! ChaCha20 under a seed, in a stream of a number (`specs/Draws`). That makes none of them, so a call that looks at none costs none.
#![tactic(auto)]

mod word_stream;
mod words;

pub use word_stream::WordStream;
pub use words::{MOST_MADE, RandomWords};
