//! What the rows of `gnap_tables` tell of the notes that they stand for, for every history that `gnap_model` allows.
//!
//! The contracts of `laws` say it: an answer by the rows is the machine's, its notes and time change the rows as the definitions of `gnap_tables` say, and the
//! limits hold of what is kept. `specs/Laws` has the laws. The functions do nothing: another crate cites a law by calling its function.
#![tactic(auto)]

pub mod laws;
