//! The rows of the tokens that can be managed, as they are stored and searched.
//!
//! Contracts see the table as the list of its rows (`gnap_tables`), and each call is exact on the whole list. Rows are found by the serials with which their
//! values begin, and by their grants. A token is live where its grant's row says so, which stands in `grant_states`.
#![tactic(auto)]

pub mod token_table;

pub use gnap_tables::rows::TokenRow;
pub use ordered_search::Steps;
pub use token_table::TokenTable;
