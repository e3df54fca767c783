//! All that the program meets outside of itself: what it reads from and writes to, gears (a door, a clock and random words for one worker),
//! links, and the world that hands these out. Of an outside object contracts see how often it failed and which bytes, connections, moments,
//! words and exchanges it gave and took; so what a caller proves holds over memory, files and sockets alike.
//! `adapters` and the modules `real_*` have the forms of the system: what they tell is what the system's calls answered, kept in lists that take no
//! memory, and that the system did what its calls say is trusted. What a file or a socket has left isn't known until a read finds its end.
//! The forms in memory are those of the crate `gnap_io`, under which all of this is reachable too.
#![tactic(auto)]

pub mod adapters;
pub mod device;
pub mod gear;
pub mod link;
pub mod real_gear;
pub mod real_link;
pub mod real_world;
pub mod shared_listener;
mod standard_error;
pub mod timed_socket;
pub mod transcript;
pub mod world;

pub use device::{Device, Failed, Sink, Source};
pub use gear::{Clock, Counted, Door, Draws, Gear};
pub use link::{Link, LinkFault};
pub use world::{Opening, World, WorldFault};
