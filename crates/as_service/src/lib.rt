//! The authorization server at an address of a world.
//!
//! `serve_at` starts workers at an address, each with a gear of its own, serves the grant machine of a setup to them at one shared state, and gives the
//! gears back to the world. Its contract has one legal history behind all that the gears tell, of which the machine's laws hold (`specs/Services.antt`).
#![tactic(auto)]

mod deriving_service;
mod service;

pub use deriving_service::serve_deriving_at;
pub use service::serve_at;
