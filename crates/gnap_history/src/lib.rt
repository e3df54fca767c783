//! A desk of the grant machine that keeps a history in a list.
//!
//! `ListCore` meets the contract of `Core`: each reply is that of `Gnap`, the machine of `grant_machine`, for the history that it stands for, which then
//! has the call's entry, or a lapse where memory ran out. It is `NoteCore`, which keeps the notes of `Grants`, and the nonces that are remembered. No command
//! keeps its state so: it is the yardstick by which tests measure the core over tables.
#![tactic(auto)]

mod asking;
mod changing;
mod consent_front;
mod continuing;
mod drawing;
mod granting;
mod introspecting;
mod limits;
pub mod list_core;
mod live_rounds;
mod look_ups;
mod managing;
pub mod note_core;
mod note_list;
mod opening;
mod presented_values;
mod rounds;
mod user_codes;

pub use drawn_texts::{code_text, value_text};
pub use gnap_model::calls::{Call, FinishOut, Reply, TokenOut, Tokens};
pub use grant_machine::{Gnap, laws};
pub use histories::lone::Lone;
pub use histories::machine::{Core, Desk, Machine};
pub use list_core::{ListCore, ListDesk, list_desk};
pub use note_core::NoteCore;
pub use signed_calls::signed::{Mark, Signed};
