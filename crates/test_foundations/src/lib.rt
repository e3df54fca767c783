//! Tests of the crates that no GNAP call crosses: bytes and devices, fields, keys, HTTP, and the small machine that adds, at a desk of its own, on threads and
//! behind connections.
//!
//! They show what no clause says: values that were worked out elsewhere, printed texts, and that a call succeeds where memory is left.
#![tactic(auto)]

#[cfg(test)]
mod adding;
#[cfg(test)]
mod cipher_words;
#[cfg(test)]
mod devices;
#[cfg(test)]
mod field_values;
#[cfg(test)]
mod http_messages;
#[cfg(test)]
mod mac_keys;
#[cfg(test)]
mod served_bytes;
#[cfg(test)]
mod shared_adding;
