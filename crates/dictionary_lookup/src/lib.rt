//! One member of a dictionary (RFC 9651), read out of its text without the others.
//!
//! `matching_list` gives the inner list of Strings whose parameter is a given String, up to the first String that has parameters, and `single_under` the bare
//! item under a key.
//! Each answer is said of the whole dictionary, as `structured_fields` reads it (`specs/Skipping.antt`). The text is gone through once; what is passed over is
//! read, refused where a reader of the whole refuses it, and not held.
#![tactic(auto)]

mod entries;
mod lookup;
mod skipping;
mod string_lists;

pub use lookup::{Matched, MatchedList, matching_list, single_under};
pub use string_lists::holds_string;
