//! The calls of a file's lines, made at a desk, and their replies printed.
//!
//! The contract of `replay_lines` says: the printed lines are what the grant machine's definitions answer to the calls of the lines, by what the desk has
//! seen, or direct answers that need no state, in order (`specs/Replaying`). What a whole file comes to is `specs/Replays`.
#![tactic(auto)]

mod answering;
mod call_lines;
mod line_marks;
mod replaying;
mod reply_lines;

pub use replaying::replay_lines;
