//! Ends of round trips: what one crate prints, another reads as what it was.
//!
//! The two ends stand beside each other, and neither knows the other's definitions. So the laws that join them stand here, above both. The functions of
//! `laws` do nothing; their contracts are the laws.
#![tactic(auto)]

pub mod laws;
