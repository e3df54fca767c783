//! A core of the grant machine, over any core of the machine beneath it, which looks at no marks.
//!
//! A mark is what a signature says of itself: its nonce and its moment (RFC 9421, section 2.3). `Remembering` refuses a mark that is too old or whose nonce
//! its key has used (RFC 9421, section 7.2.2), and hands every other call to the core within. Its contract is that of any core: each reply is the answer of
//! the machine `Gnap`, and where memory ran out the core stands for the history with a lapse, and the nonce isn't remembered. `marks` says
//! how many nonces are remembered. The core within must be able to let time go on without a call (`Passes`); what keeps the nonces is a `Nonces`.
#![tactic(auto)]

pub mod calls;
pub mod remembering;

pub use remembering::Remembering;
