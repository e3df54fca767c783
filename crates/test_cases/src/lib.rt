//! The cases of `test_worlds`: the lines of its table, the worlds in memory that they are, a server whose workers take connections in one order, and what is
//! told of a run. What the program's commands make of a world, `test_worlds` finds.
#![tactic(auto)]

pub mod case;
pub mod fault;
pub mod latin;
pub mod ordered_gears;
pub mod outcome;
pub mod stretch;
pub mod world;
