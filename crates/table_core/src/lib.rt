//! The grant machine over tables: rows of the grants that go on and of the tokens that can be managed, in place of the notes of a history.
//!
//! `TableCore` meets the contract of `Core`: each reply is that of `Gnap`, the machine of `grant_machine`, for the history that it stands for. It is
//! `RowCore`, which keeps the rows of `Grants`, and the nonces that are remembered. A call takes its memory before it changes a row.
#![tactic(auto)]

pub mod answered;
pub mod asking;
pub mod beginning;
pub mod cancelling;
pub mod carrying;
pub mod consent_front;
pub mod continuing;
pub mod deciding;
pub mod entering;
pub mod introspecting;
pub mod issuing;
pub mod kept_terms;
pub mod modifying;
pub mod planning;
pub mod refusing;
pub mod revoking;
pub mod rotating;
pub mod row_core;
pub mod stored;
pub mod table_core;

pub use row_core::RowCore;
pub use table_core::{TableCore, TableDesk, table_desk};
