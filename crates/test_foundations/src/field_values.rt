use bytes_and_lists::bytes::Bytes;
use bytes_and_lists::memory::Duplicate;
use std::alloc::Global;
use std::test::*;
use structured_fields::{
    Bare, FieldFault, InnerList, Item, Items, Params, read_dictionary, write_dictionary,
    write_inner,
};

const DICTIONARY: &[u8] = b"a=2.5;x, b=(\"s\";p tok);q=:YQ==:, c=?0";

// A dictionary writes the text that it was read from.
fn written(alloc: Global, text: &[u8]) -> Result<Bytes, FieldFault> {
    let read = read_dictionary(alloc, text)?;
    Ok(write_dictionary(alloc, &read)?)
}

fn inner(alloc: Global) -> Result<Bytes, FieldFault> {
    let mut items = Items::new(alloc);
    items.push(Item {
        bare: Bare::Boolean(true),
        params: Params::new(alloc),
    })?;
    let params = Params::new(alloc);
    Ok(write_inner(alloc, &InnerList { items, params })?)
}

// The value set last under `a`, the number of names, and the name in the last place.
fn set_twice(alloc: Global) -> Result<(bool, usize, Bytes), FieldFault> {
    let mut params = Params::new(alloc);
    params.set(Bytes::from_slice(alloc, b"a")?, Bare::Integer(1))?;
    params.set(Bytes::from_slice(alloc, b"b")?, Bare::Integer(2))?;
    params.set(Bytes::from_slice(alloc, b"a")?, Bare::Boolean(true))?;
    let last = match params.len() {
        0 => Bytes::new(alloc),
        n => params.at(n - 1).0.copy()?,
    };
    let is_true = matches!(params.get(b"a"), Some(Bare::Boolean(true)));
    Ok((is_true, params.len(), last))
}

#[test]
fn values_are_read_set_and_written(rt: HostRuntime) {
    assert!(rt;
        matches!(&written(rt.alloc(), DICTIONARY), Ok(text) if text.as_slice() == DICTIONARY)
    );
    assert!(rt; matches!(&inner(rt.alloc()), Ok(text) if text.as_slice() == b"(?1)".as_slice()));
    assert!(rt;
        matches!(&set_twice(rt.alloc()), Ok((true, 2, last)) if last.as_slice() == b"b".as_slice())
    );
}
