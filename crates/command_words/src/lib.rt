//! The words of a command line: which command they are, and what a person is told of words that are none.
//!
//! The contract of `command_of` says: the command is just the one that the words are by `specs/Commands`, and its numbers and its nonce are in their ranges; or
//! what is wrong with the words; or memory ran out. The words after the command's name are counted by `clap`. What a command does isn't known here.
#![tactic(auto)]

mod command;
mod numbers;
mod positionals;
pub mod telling;
mod usage;
mod word_hints;
mod wrong_words;

pub use command::{Command, ServedSetup, Service, command_of};
pub use word_hints::{explain_count, explain_name, explain_word};
pub use wrong_words::{WordForm, WrongWords};
