//! A load on the grant machine: workers at one shared core, each of which puts its share of grants through, by calls and without HTTP.
//!
//! `put_load` shares a core among workers, runs them all at once and says how many replies were active, inactive or done. Its contract has one
//! legal history behind these counts: in it each worker made just the calls of its share, each computed from the replies that this worker got
//! before, and each with the next draw of this worker's stream of ChaCha20, under a seed that a number begins (`specs/Words`).
#![tactic(auto)]

mod alone;
mod asking;
mod grant_calls;
mod progress;
mod setup;
mod share;
mod tally;
mod words;
mod worker;
mod workers;

pub use alone::put_load_alone;
pub use setup::load_setup;
pub use tally::Tally;
pub use workers::put_load;
