//! A file of calls, carried out over tables.
//!
//! The contract of `replay` says: the printed lines are what the grant machine's definitions answer to the calls of the file's lines, from one legal
//! history, or direct answers that need no state, in order (`call_replay/specs/Replays`); or the first line is no setup, and nothing was printed.
#![tactic(auto)]

mod files;

pub use files::replay;
