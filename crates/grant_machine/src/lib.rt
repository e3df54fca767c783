//! The grant machine whose histories desks keep, and what holds of each of them.
//!
//! `Gnap` is the machine. A mark is what a signature says of itself: its nonce and its moment (RFC 9421, section 2.3). The machine refuses a call whose mark
//! is too old or repeats a nonce, and answers every other call as `Grants` does, the machine beneath it, whose answers are those of `gnap_model`. A call fits
//! where it has at most 8 asks, its texts can be shown, and its nonce has 1 to 64 bytes. No state is kept here: the cores above (`gnap_history` over a list of
//! notes, `table_core` over tables) stand for histories of `Grants`, and `remembering_core` makes of each a core of `Gnap`, where it can let time go on
//! without a call (`Passes`). The contracts of `laws` say what is known of each legal history of `Gnap`, and so of each that a desk of this machine has seen:
//! the laws of `signed_calls`, and that its replies can be shown.
#![tactic(auto)]

pub mod laws;
pub mod machine;
pub mod passes;

pub use machine::{Gnap, Grants};
pub use passes::Passes;
