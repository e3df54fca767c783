//! The rows of the grants that go on, as they are stored and searched.
//!
//! Contracts see the table as the list of its rows (`gnap_tables`), and each call is exact on the whole list. A drawn value begins with its serial, so rows are
//! found by halves. A row lies in memory of its own: taking one out moves some words for each row after it, and no row.
#![tactic(auto)]

pub mod changes;
mod code_list;
mod code_numbers;
pub mod grant_table;
pub mod interactions;
pub mod numbers_by_key;
mod open_codes;
pub mod serials;

pub use changes::Change;
pub use gnap_tables::rows::{Decision, GrantRow, Round};
pub use grant_table::GrantTable;
pub use interactions::InteractionName;
pub use numbers_by_key::{Listed, NumbersByKey};
pub use serials::serial_in_value;
