//! The script of a client: lines of JSON, each of which has a client send a request over a link and take the reply.
//!
//! `script_line` reads a line, carries out what it says, and answers what is printed. Its contract says that this was one turn (`specs/Turns.antt`): the
//! line is none, or the client had no request to send, or the request was exchanged once and its reply taken, or memory ran out. A script is a
//! list of such turns, each of which begins with the client that the one before it left. Nothing here reads a file or writes to one.
#![tactic(auto)]

pub mod carrying;
pub mod deeds;
mod line_faults;
mod lines;
pub mod turns;

pub use deeds::{Deed, ScriptStep};
pub use line_faults::{BadLine, LineFault, LineMember};
pub use lines::read_line;
pub use turns::{LineSaid, script_line};
