//! Sets of rights that resource servers registered (RFC 9767, section 3.4).
//!
//! A resource server registers a list of rights and gets a short reference for it; servers and fronts ask what a reference means. `sets` has the calls, the
//! replies and the notes of the machine, and `specs/Sets` what it answers. `SetTable` is a core of it: each step answers as the machine does, or memory ran out
//! and no set changed.
//!
//! By the laws, for histories of any length: a reference that was handed out means the same server and the same rights ever after; the same rights of the same
//! server never get two references, and other ones never get the same; there are at most 65,536 sets.
#![tactic(auto)]

mod fingerprints;
pub mod laws;
mod registry;
mod sameness;
pub mod set_table;
pub mod sets;
