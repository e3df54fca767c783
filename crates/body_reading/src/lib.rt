//! The bodies of requests (RFC 8259), read with room that is kept from body to body.
//!
//! A body is the value that `json_objects::read_body` gives for the same bytes, and its faults are the same. What differs is the cost: the room that
//! reading needs, 16 KB and the length of the longest body so far, is made once for a reader, and not anew for each body. And a plain body, an object
//! of strings, arrays and objects with no escape and hardly a blank, is read straight from its bytes, with no index of its marks.
#![tactic(auto)]

pub mod body_reader;
mod number_reading;
mod plain_bodies;
mod read_fault;
mod value_reading;

pub use body_reader::BodyReader;
