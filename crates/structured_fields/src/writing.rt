//! Writing the canonical texts.
ghost use Rattle.std.specs.Prelude.{◌≡◌, ◌++◌, ◌<◌, ◌==◌, if◌then◌else◌, [], ◌∷◌, IfOk, OnOk};
ghost use Rattle.std.specs.List.{flat_map};
ghost use Rattle.std.specs.Fmt.{decimal};
ghost use Rattle.std.specs.Char.{digit_char};
ghost use Rattle.structured_fields.specs.declared.bare.Bare.TheVariants.{Binary};
ghost use Rattle.structured_fields.specs.Grammar.{in_string, IsItemText, IsInner, IsListText, IsDictionaryText};
ghost use Rattle.structured_fields.specs.Canonical.{part_text, shown, integer_text, decimal_text, bare_text, value_text, params_text, item_text, separated_text, inner_text, member_text, single_text, entry_text, list_text, dictionary_text, IsItemInRange, IsInnerInRange, IsListInRange, IsDictionaryInRange};

use crate::bare::Bare;
use crate::item::{Dictionary, InnerList, Item, Items, List, Member, Params};
use crate::letters::{Class, is_shown, run};
use base64::engine::general_purpose::STANDARD;
use bytes_and_lists::bytes::Bytes;
use bytes_and_lists::memory::Mem;
use std::alloc::Global;

fn put_number(out: &mut Bytes, n: u64) -> Result<(), Mem>
    ensures { OnOk result (out.new ≡ out.old ++ decimal n) }
{
    out.extend(itoa::Buffer::new().format(n).as_bytes())
}

fn put_part(out: &mut Bytes, n: u64) -> Result<(), Mem>
    requires { n < 1000 }
    ensures { OnOk result (out.new ≡ out.old ++ part_text n) }
{
    let first = b'0' + (n / 100) as u8;
    let second = b'0' + (n / 10 % 10) as u8;
    let third = b'0' + (n % 10) as u8;
    if n % 100 == 0 {
        out.extend(&[first])
    } else if n % 10 == 0 {
        out.extend(&[first, second])
    } else {
        out.extend(&[first, second, third])
    }
}

fn put_integer(out: &mut Bytes, n: i64) -> Result<(), Mem>
    ensures { OnOk result (out.new ≡ out.old ++ integer_text n) }
{
    if n < 0 {
        out.push(b'-')?;
    }
    put_number(out, n.unsigned_abs())
}

fn put_decimal(out: &mut Bytes, n: i64) -> Result<(), Mem>
    ensures { OnOk result (out.new ≡ out.old ++ decimal_text n) }
{
    if n < 0 {
        out.push(b'-')?;
    }
    let thousandths = n.unsigned_abs();
    put_number(out, thousandths / 1000)?;
    out.push(b'.')?;
    put_part(out, thousandths % 1000)
}

fn put_each_escaped(out: &mut Bytes, s: &[u8]) -> Result<(), Mem>
    ensures { OnOk result (out.new ≡ out.old ++ flat_map in_string s.now) }
{
    for c in s {
        if *c == b'"' || *c == b'\\' {
            out.push(b'\\')?;
        }
        out.push(*c)?;
    }
    Ok(())
}

// What stands up to the first byte that needs a backslash is copied at once.
fn put_escaped(out: &mut Bytes, s: &[u8]) -> Result<(), Mem>
    ensures { OnOk result (out.new ≡ out.old ++ flat_map in_string s.now) }
{
    let (plain, rest) = s.split_at(run(Class::Unquoted, s));
    out.extend(plain)?;
    put_each_escaped(out, rest)
}

fn hex_digit(value: u8) -> u8
    requires { value < 16 }
    ensures { result ≡ digit_char value }
{
    if value < 10 {
        b'0' + value
    } else {
        b'a' + (value - 10)
    }
}

fn put_shown(out: &mut Bytes, s: &[u8]) -> Result<(), Mem>
    ensures { OnOk result (out.new ≡ out.old ++ flat_map shown s.now) }
{
    for c in s {
        if is_shown(*c) {
            out.push(*c)?;
        } else {
            out.extend(&[b'%', hex_digit(*c / 16), hex_digit(*c % 16)])?;
        }
    }
    Ok(())
}

// It stands apart because a constant's tables are written out in the function that uses it, at its beginning: the other kinds need none.
fn put_binary(alloc: Global, out: &mut Bytes, b: &[u8]) -> Result<(), Mem>
    ensures { OnOk result (out.new ≡ out.old ++ bare_text (Binary b.now)) }
{
    let text = STANDARD.encode(alloc, b)?;
    out.push(b':')?;
    out.extend(text.as_bytes())?;
    out.push(b':')
}

fn put_bare(alloc: Global, out: &mut Bytes, v: &Bare) -> Result<(), Mem>
    ensures { OnOk result (out.new ≡ out.old ++ bare_text v.now) }
{
    match v {
        Bare::Integer(n) => put_integer(out, *n),
        Bare::Decimal(n) => put_decimal(out, *n),
        Bare::Str(s) => {
            out.push(b'"')?;
            put_escaped(out, s.as_slice())?;
            out.push(b'"')
        }
        Bare::Token(s) => out.extend(s.as_slice()),
        Bare::Binary(b) => put_binary(alloc, out, b.as_slice()),
        Bare::Boolean(true) => out.extend(b"?1"),
        Bare::Boolean(false) => out.extend(b"?0"),
        Bare::Date(seconds) => {
            out.push(b'@')?;
            put_integer(out, *seconds)
        }
        Bare::Display(s) => {
            out.extend(b"%\"")?;
            put_shown(out, s.as_slice())?;
            out.push(b'"')
        }
    }
}

fn put_value(alloc: Global, out: &mut Bytes, v: &Bare) -> Result<(), Mem>
    ensures { OnOk result (out.new ≡ out.old ++ value_text v.now) }
{
    match v {
        Bare::Boolean(true) => Ok(()),
        _ => {
            out.push(b'=')?;
            put_bare(alloc, out, v)
        }
    }
}

fn put_params(alloc: Global, out: &mut Bytes, params: &Params) -> Result<(), Mem>
    ensures { OnOk result (out.new ≡ out.old ++ params_text params.now) }
{
    for i in 0..params.len() {
        let (name, value) = params.at(i);
        out.push(b';')?;
        out.extend(name.as_slice())?;
        put_value(alloc, out, value)?;
    }
    Ok(())
}

fn put_item(alloc: Global, out: &mut Bytes, v: &Item) -> Result<(), Mem>
    ensures { OnOk result (out.new ≡ out.old ++ item_text v.now) }
{
    put_bare(alloc, out, &v.bare)?;
    put_params(alloc, out, &v.params)
}

// What stands before the i-th member: nothing before the first.
fn put_between(out: &mut Bytes, i: usize, between: &[u8]) -> Result<(), Mem>
    ensures { OnOk result (out.new ≡ out.old ++ (if i == 0 then [] else between.now)) }
{
    if i == 0 {
        return Ok(());
    }
    out.extend(between)
}

fn put_items(alloc: Global, out: &mut Bytes, items: &Items) -> Result<(), Mem>
    ensures { OnOk result (out.new ≡ out.old ++ separated_text (32 ∷ []) item_text items.now) }
{
    for i in 0..items.len() {
        put_between(out, i, b" ")?;
        put_item(alloc, out, items.at(i))?;
    }
    Ok(())
}

fn put_inner(alloc: Global, out: &mut Bytes, v: &InnerList) -> Result<(), Mem>
    ensures { OnOk result (out.new ≡ out.old ++ inner_text v.now) }
{
    out.push(b'(')?;
    put_items(alloc, out, &v.items)?;
    out.push(b')')?;
    put_params(alloc, out, &v.params)
}

fn put_member(alloc: Global, out: &mut Bytes, v: &Member) -> Result<(), Mem>
    ensures { OnOk result (out.new ≡ out.old ++ member_text v.now) }
{
    match v {
        Member::Item(item) => put_item(alloc, out, item),
        Member::Inner(list) => put_inner(alloc, out, list),
    }
}

fn put_entry(alloc: Global, out: &mut Bytes, name: &Bytes, v: &Member) -> Result<(), Mem>
    ensures { OnOk result (out.new ≡ out.old ++ entry_text (name.now, v.now)) }
{
    out.extend(name.as_slice())?;
    match v {
        Member::Item(item) => {
            put_value(alloc, out, &item.bare)?;
            put_params(alloc, out, &item.params)
        }
        Member::Inner(list) => {
            out.push(b'=')?;
            put_inner(alloc, out, list)
        }
    }
}

fn put_members(alloc: Global, out: &mut Bytes, v: &List) -> Result<(), Mem>
    ensures { OnOk result (out.new ≡ out.old ++ list_text v.now) }
{
    for i in 0..v.len() {
        put_between(out, i, b", ")?;
        put_member(alloc, out, v.at(i))?;
    }
    Ok(())
}

fn put_entries(alloc: Global, out: &mut Bytes, v: &Dictionary) -> Result<(), Mem>
    ensures { OnOk result (out.new ≡ out.old ++ dictionary_text v.now) }
{
    for i in 0..v.len() {
        let (name, member) = v.at(i);
        put_between(out, i, b", ")?;
        put_entry(alloc, out, name, member)?;
    }
    Ok(())
}

/// The text with the canonical text of an item behind it (RFC 9651, section 4.1.3). At an `Err` it is let go.
pub fn append_item(alloc: Global, text: Bytes, v: &Item) -> Result<Bytes, Mem>
    ensures { IfOk result (λ b. b ≡ text ++ item_text v.now) }
{
    let mut out = text;
    put_item(alloc, &mut out, v)?;
    Ok(out)
}

/// The text with the canonical text of an inner list behind it (RFC 9651, section 4.1.1.1). At an `Err` it is let go.
pub fn append_inner(alloc: Global, text: Bytes, v: &InnerList) -> Result<Bytes, Mem>
    ensures { IfOk result (λ b. b ≡ text ++ inner_text v.now) }
{
    let mut out = text;
    put_inner(alloc, &mut out, v)?;
    Ok(out)
}

/// The canonical text of an item (RFC 9651, section 4.1.3).
pub fn write_item(alloc: Global, v: &Item) -> Result<Bytes, Mem>
    requires { IsItemInRange v.now }
    ensures canonical { IfOk result (λ b. b ≡ item_text v.now) }
    ensures text { IfOk result (λ b. IsItemText b v.now) }
{
    append_item(alloc, Bytes::new(alloc), v)
}

/// The canonical text of an inner list (RFC 9651, section 4.1.1.1).
pub fn write_inner(alloc: Global, v: &InnerList) -> Result<Bytes, Mem>
    requires { IsInnerInRange v.now }
    ensures canonical { IfOk result (λ b. b ≡ inner_text v.now) }
    ensures text { IfOk result (λ b. IsInner b v.now) }
{
    append_inner(alloc, Bytes::new(alloc), v)
}

/// The canonical text of a list (RFC 9651, section 4.1.1). That of an empty one is empty.
pub fn write_list(alloc: Global, v: &List) -> Result<Bytes, Mem>
    requires { IsListInRange v.now }
    ensures canonical { IfOk result (λ b. b ≡ list_text v.now) }
    ensures text { IfOk result (λ b. IsListText b v.now) }
{
    let mut out = Bytes::new(alloc);
    put_members(alloc, &mut out, v)?;
    Ok(out)
}

/// The canonical text of a dictionary (RFC 9651, section 4.1.2). That of an empty one is empty.
pub fn write_dictionary(alloc: Global, v: &Dictionary) -> Result<Bytes, Mem>
    requires { IsDictionaryInRange v.now }
    ensures canonical { IfOk result (λ b. b ≡ dictionary_text v.now) }
    ensures text { IfOk result (λ b. IsDictionaryText b v.now) }
{
    let mut out = Bytes::new(alloc);
    put_entries(alloc, &mut out, v)?;
    Ok(out)
}
