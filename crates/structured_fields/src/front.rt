//! What stands at the front of a text, for who goes through a text and holds only some of it.
pub use crate::bare_reading::bare_of;
pub use crate::item_reading::{is_item_end, item_in, params_of, value_in};
pub use crate::letters::{
    begins, is_key_start, is_quoted, is_string_byte, is_token_start, key_run, plain_run, strip,
    token_run, without_spaces,
};
pub use crate::reading::next_in;
