//! Histories of the grant machine, evaluated: short ones, each named by what it shows, and random ones with the replies and the notes that an independent
//! implementation of the rules gave. The proofs are the examples; a check of this crate evaluates each of them by the definitions of `gnap_model`. They
//! stand in a crate of their own, since no other crate waits for them.
#![tactic(auto)]
