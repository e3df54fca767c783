//! Hints for a person: what was wrong with the words, or with the files of a command that wasn't carried out, on standard error. No clause speaks of them.
#![tactic(auto)]

mod hints;

pub use hints::{explain, explain_words};
