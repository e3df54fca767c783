//! What a load counted, printed.
//!
//! The contract of `print_load` says: the line tells the counts of one legal history in which so many workers put so many grants through, each with the
//! random words of its stream (`specs/LoadLines`).
#![tactic(auto)]

mod counts;

pub use counts::print_load;
