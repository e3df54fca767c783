//! The table of structured fields. A line is the kind of a field (`item`, `list` or `dictionary`) and, behind one space, its text. Told is the canonical
//! text, or `not in the grammar`. What is expected was worked out from RFC 9651, section 4, beside this repository.

use crate::messages::text_of;
use bytes_and_lists::bytes::Bytes;
use bytes_and_lists::memory::Mem;
use std::alloc::Global;
use structured_fields::{
    FieldFault, read_dictionary, read_item, read_list, write_dictionary, write_item, write_list,
};

fn canonical(alloc: Global, kind: &str, text: &[u8]) -> Result<Bytes, FieldFault> {
    match kind {
        "item" => Ok(write_item(alloc, &read_item(alloc, text)?)?),
        "list" => Ok(write_list(alloc, &read_list(alloc, text)?)?),
        "dictionary" => Ok(write_dictionary(alloc, &read_dictionary(alloc, text)?)?),
        _ => Err(FieldFault::NotInGrammar),
    }
}

/// What a line's field comes to.
pub fn answer(alloc: Global, line: &str) -> Result<String, Mem> {
    let Some((kind, text)) = line.split_once(' ') else {
        return Ok(String::from_str(alloc, "no kind")?);
    };
    match canonical(alloc, kind, text.as_bytes()) {
        Ok(out) => text_of(alloc, out.as_slice()),
        Err(FieldFault::NotInGrammar) => Ok(String::from_str(alloc, "not in the grammar")?),
        Err(FieldFault::OutOfMemory) => Err(Mem),
    }
}
