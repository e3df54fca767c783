//! Structured fields of HTTP (RFC 9651): items, lists and dictionaries, read from texts and written in their canonical form.
//!
//! The contracts speak of a relation between whole texts and values, with one definition for each production of the RFC (`specs/Grammar.antt`), and of one
//! canonical text for each value in range (`specs/Canonical.antt`).
//! A reader answers v exactly where the text is a text of v, and `NotInGrammar` exactly where it is a text of no value; a text has one value at most. A writer
//! gives the canonical text of a value in range, which every reader's value is, and reading it gives that value again (`field_laws`).
//! `item_of`, `list_of` and `dictionary_of` (`specs/Reading.antt`) say the same as functions, for contracts that compute with what a text holds.
//!
//! `sole_bytes` reads a dictionary of one byte sequence directly, where it has the form that most have; of any other form it says nothing.
//! `plain_front` and `plain_params` do the same together for a dictionary of one inner list of Strings (`plain_list_is_read`).
//!
//! Two rules are this project's own: a byte sequence may stand without its padding, and one whose unused last bits aren't zero is refused. Want of memory is
//! `OutOfMemory` or `Mem`, and changes nothing.
//! Reading and writing take time in proportion to the text. Up to eight names are compared one by one; of more, a tree of four steps for each byte of a name
//! tells where it stands, so that no choice of names makes reading slow.
#![tactic(auto)]

mod bare;
mod bare_reading;
mod display_reading;
mod fault;
pub mod front;
mod item;
mod item_reading;
mod letters;
mod name_notes;
mod named;
mod plain_lists;
mod reading;
mod sole_member;
mod writing;

pub use bare::{Bare, is_any_string, is_string};
pub use fault::FieldFault;
pub use item::{Dictionary, InnerList, Item, Items, List, Member, Params};
pub use letters::trimmed;
pub use named::Named;
pub use plain_lists::{PlainFront, plain_front, plain_params};
pub use reading::{read_dictionary, read_item, read_list};
pub use sole_member::sole_bytes;
pub use writing::{
    append_inner, append_item, write_dictionary, write_inner, write_item, write_list,
};
