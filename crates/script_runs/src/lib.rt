//! The lines of a client's script, carried out over a link, and what is printed for them.
//!
//! The contract of `run_script` says: the client did for each line, in order, what that line asks, each exchange was made once, and what was printed
//! are the lines that say what came of it (`specs/Scripts`). Of a line that is none, the reason goes to a second output, of which no clause speaks.
#![tactic(auto)]

mod line_hints;
mod scripts;

pub use scripts::run_script;
