//! Access rights of GNAP (RFC 9635, section 8): whether rights cover others, which of them a resource server serves, and rights as JSON.
//!
//! `covers` is inclusion of the sets of atoms, by the law `gnap_laws::laws::covers_is_inclusion`. A reader answers exactly what its definition in `specs/`
//! gives for
//! the JSON value, or that memory ran out; a printer gives the JSON value that stands for what it is handed. Nothing here keeps a state.
#![tactic(auto)]

mod further;
pub mod inclusion;
mod masks;
pub mod printing;
pub mod reading;
pub mod served;
pub mod sizes;

pub use gnap_model::rights::{Names, Right, RightObject, Rights, Texts};
pub use inclusion::covers;
pub use printing::rights_value;
pub use reading::{RightsFault, read_rights};
pub use served::{served_part, serves};
