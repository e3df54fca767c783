//! What all commands share: how they end, how they read the lines of a source, a whole source or a setup, and how they print one text.
//!
//! The contracts say: what is read are the bytes that the source gave, in order, cut at each LF (`specs/Lines`, `Reading`), and at most 1,073,741,824
//! of them; a setup is what the rules of `gnap_objects` read a text as (`specs/Configs`); what is printed is the text, or a beginning of it where a
//! write failed (`specs/Printing`). How lines have their turns, and how that ends, is said in `specs/LineRuns`, for the files of `replay` and of `client`.
#![tactic(auto)]

mod configs;
mod ended;
mod line_end;
mod line_reader;
mod printed_text;
mod whole_input;

pub use configs::{ConfigReader, SETUP_LIMIT, SetupReader, config_in};
pub use ended::{ConfigKind, Ended, WrongSetup};
pub use line_end::LineEnd;
pub use line_reader::{LineReader, Refill, emptied};
pub use printed_text::{After, print_text, say};
pub use whole_input::{InputFault, read_input};
