//! What follows from the definitions of `gnap_model` for every history of the grant machine that they allow.
//!
//! The contracts of `laws` say it: which error comes when, that limits hold, that an introspection tells what requests and replies alone show, that a
//! continuation value succeeds at most once, and that drawn values all differ. `specs/Laws` has the laws; `Refusals` the cause of each error code, and
//! `Provenance` what requests and replies alone show of a value. The functions do nothing: another crate cites a law by calling its function.
#![tactic(auto)]

pub mod laws;
