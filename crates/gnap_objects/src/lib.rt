//! The JSON objects of GNAP (RFC 9635, RFC 9767): requests and setups, read from bytes.
//!
//! Each reader answers exactly what its definition in `specs/` gives for the JSON value, or that memory ran out: the object, or the first fault in the
//! order of its members, with the name of the member in which it stands. What a reader gives can be shown again: its texts are UTF-8.
#![tactic(auto)]

pub mod call_reading;
pub mod continuations;
pub mod decisions;
pub mod fault;
pub mod forms;
pub mod grants;
mod interactions;
pub mod introspections;
pub mod members;
pub mod registrations;
pub mod setup_members;
pub mod setups;
mod token_requests;
pub mod user_codes;
mod users;

pub use call_reading::{BodyForm, CallKind, CallOrRefusal, read_call, stranger};
pub use continuations::{read_continue, read_rotate};
pub use decisions::{read_decide, read_handle};
pub use fault::ObjectFault;
pub use gnap_model::key_rows::KeyRows;
pub use gnap_model::objects::{
    Ask, Asks, Binding, ContinueRequest, DecideRequest, ErrorCode, Finish, GrantRequest,
    IntrospectRequest, KeyRow, Modes, Role, Setup, Verdict,
};
pub use grants::read_grant;
pub use introspections::read_introspect;
pub use json_objects::{BodyFault, read_body};
pub use registrations::{Registration, read_registration, read_resolution};
pub use setups::{SetupFault, read_setup};
pub use user_codes::read_code;
