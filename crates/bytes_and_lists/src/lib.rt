//! Bytes, lists and copies of values, whose making may run out of memory, and HTTP messages as plain data. Contracts see bytes and lists as
//! plain lists: each clause gives the list after the call, and after an `Err`, which is want of memory alone, the one of before.
#![tactic(auto)]

pub mod bytes;
mod inline_bytes;
pub mod memory;
pub mod message;
pub mod seq;
