//! Workers that serve connections, each with a gear of its own, all at one shared core.
//!
//! A `Front` serves one connection at a desk; that of a `Server`, whose messages ask one call each at most, is a `ServerFront`. A `Worker` has a station at a
//! shared core and a gear, and serves what its gear's door gives.
//! Its type keeps an account: what the gear tells is what the entries of the worker's number account for. `serve_gears` makes a worker for
//! each gear, runs all at once and gives the gears back. Its contract has one legal history behind all that the gears tell, whatever the
//! order in which the workers' calls came.
#![tactic(auto)]

pub mod connection;
pub mod ends;
pub mod front;
pub mod message_reader;
pub mod message_step;
pub mod message_turn;
pub mod server;
pub mod server_front;
pub mod service;
pub mod threads;
pub mod turn_taker;
pub mod worker;
