//! A small machine that tests run through everything that holds of any machine: each call adds an amount, and the reply is the sum so far.
//!
//! `adder` has a core of it, which can be told to refuse memory at some of its steps. `calls` makes calls one after another at any desk, `serve` makes
//! them on threads at one shared core, and `bytewise` is a server whose messages are single bytes. So it is shown that what `histories`, `shared_server`
//! and `serving` ask of a core, a desk and a server can be met.
#![tactic(auto)]

pub mod adder;
pub mod adding;
pub mod bytewise;
pub mod calls;
pub mod fault;
pub mod serve;
