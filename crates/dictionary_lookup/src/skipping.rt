//! Skipping what stands at the front of a text: it is read, and nothing of it is held.
ghost use Rattle.std.specs.Prelude.{◌≡◌, Some, false};
ghost use Rattle.std.specs.Option.{option_copied, option_map};
ghost use Rattle.structured_fields.specs.Reading.{Gives, behind, key_at, string_rest, bare_at, value_of, parameter_at, params_at, item_at, items_at, inner_at, member_at, entry_value_at};
ghost use Rattle.structured_fields.specs.Letters.{is_token_byte};
ghost use Rattle.dictionary_lookup.specs.Skipping.{rest_of, begins_token, value_matched, parameter_matched, params_matched, inner_matched, member_matched};

use std::alloc::Global;
use structured_fields::front::{
    bare_of, is_item_end, is_key_start, is_quoted, is_string_byte, is_token_start, key_run,
    plain_run, strip, token_run, value_in, without_spaces,
};
use structured_fields::{FieldFault, is_string};

// ---- bare items

// Behind the quote that ends a string. None where none does, or a byte is refused before.
#[tactic(auto, using(crate::proofs::Behind::string_passes))]
fn behind_string(bytes: &[u8]) -> Option<&[u8]>
    ensures { option_copied result ≡ rest_of (string_rest false bytes.now) }
{
    let (_, rest) = bytes.split_at(plain_run(bytes));
    let mut escaped = false;
    for (i, c) in rest.iter().enumerate() {
        let c = *c;
        if escaped {
            if !is_quoted(c) {
                return None;
            }
            escaped = false;
        } else if c == b'"' {
            return Some(&rest[i + 1..]);
        } else if c == b'\\' {
            escaped = true;
        } else if !is_string_byte(c) {
            return None;
        }
    }
    None
}

fn behind_token(bytes: &[u8]) -> &[u8]
    ensures { result.now ≡ behind is_token_byte bytes.now }
{
    let (_, rest) = bytes.split_at(token_run(bytes));
    rest
}

fn begins_token(bytes: &[u8]) -> bool
    ensures { result ≡ begins_token bytes.now }
{
    match bytes {
        [] => false,
        [c, ..] => is_token_start(*c),
    }
}

// Strings and tokens take no memory.
#[tactic(auto, using(crate::proofs::Behind::bare_passes))]
fn behind_bare(alloc: Global, bytes: &[u8]) -> Result<&[u8], FieldFault>
    ensures { Gives (λ r. r.now) result (rest_of (bare_at bytes.now)) }
{
    if let Some(after) = strip(b'"', bytes) {
        return match behind_string(after) {
            Some(rest) => Ok(rest),
            None => Err(FieldFault::NotInGrammar),
        };
    }
    if begins_token(bytes) {
        return Ok(behind_token(bytes));
    }
    let (_, rest) = bare_of(alloc, bytes)?;
    Ok(rest)
}

// ---- parameters

#[tactic(auto, unfolding(structured_fields::specs::Reading::key_at))]
pub(crate) fn key_in(bytes: &[u8]) -> Option<(&[u8], &[u8])>
    ensures { option_map (λ k. (k.0.now, k.1.now)) result ≡ key_at bytes.now }
{
    match bytes {
        [] => None,
        [first, ..] => {
            if !is_key_start(*first) {
                return None;
            }
            Some(bytes.split_at(key_run(bytes)))
        }
    }
}

#[tactic(auto, unfolding(structured_fields::specs::Reading::value_of))]
fn behind_value(alloc: Global, bytes: &[u8]) -> Result<&[u8], FieldFault>
    ensures { Gives (λ r. r.now) result (rest_of (value_of bytes.now)) }
{
    match strip(b'=', bytes) {
        Some(after) => behind_bare(alloc, after),
        None => Ok(bytes),
    }
}

// Behind the value of a parameter; and whether it is this String, where it is asked for, or else what was so before.
#[tactic(auto, using(crate::proofs::Behind::value_passes))]
fn value_matched<'a>(
    alloc: Global,
    bytes: &'a [u8],
    asked: bool,
    s: &[u8],
    before: bool,
) -> Result<(bool, &'a [u8]), FieldFault>
    ensures { Gives (λ x. (x.0, x.1.now)) result (option_map (value_matched asked s.now before) (value_of bytes.now)) }
{
    if !asked {
        return Ok((before, behind_value(alloc, bytes)?));
    }
    let (value, rest) = value_in(alloc, bytes)?;
    Ok((is_string(s, &value), rest))
}

// The same of the parameter behind a `;`.
#[tactic(auto, using(crate::proofs::Behind::parameter_passes))]
fn parameter_matched<'a>(
    alloc: Global,
    bytes: &'a [u8],
    name: &[u8],
    s: &[u8],
    before: bool,
) -> Result<(bool, &'a [u8]), FieldFault>
    ensures { Gives (λ x. (x.0, x.1.now)) result (option_map (parameter_matched name.now s.now before) (parameter_at bytes.now)) }
{
    let Some((key, rest)) = key_in(without_spaces(bytes)) else {
        return Err(FieldFault::NotInGrammar);
    };
    value_matched(alloc, rest, key == name, s, before)
}

// Whether the parameters at the front have the name, with this String, and what stands behind them.
pub(crate) fn params_matched<'a>(
    alloc: Global,
    bytes: &'a [u8],
    name: &[u8],
    s: &[u8],
) -> Result<(bool, &'a [u8]), FieldFault>
    ensures { Gives (λ x. (x.0, x.1.now)) result (option_map (params_matched name.now s.now) (params_at bytes.now)) }
{
    let mut matched = false;
    let mut left = bytes;
    for _ in 0..bytes.len() {
        let Some(after) = strip(b';', left) else {
            return Ok((matched, left));
        };
        let (now_matched, rest) = parameter_matched(alloc, after, name, s, matched)?;
        matched = now_matched;
        left = rest;
    }
    Ok((matched, left))
}

#[tactic(auto, using(crate::proofs::Behind::params_steps))]
pub(crate) fn behind_params(alloc: Global, bytes: &[u8]) -> Result<&[u8], FieldFault>
    ensures { Gives (λ r. r.now) result (rest_of (params_at bytes.now)) }
{
    let (_, rest) = params_matched(alloc, bytes, b"", b"")?;
    Ok(rest)
}

// ---- items, members

#[tactic(auto, using(crate::proofs::Behind::item_steps))]
pub(crate) fn behind_item(alloc: Global, bytes: &[u8]) -> Result<&[u8], FieldFault>
    ensures { Gives (λ r. r.now) result (rest_of (item_at bytes.now)) }
{
    let rest = behind_bare(alloc, bytes)?;
    behind_params(alloc, rest)
}

// Behind the `)`.
fn behind_items(alloc: Global, bytes: &[u8]) -> Result<&[u8], FieldFault>
    ensures { Gives (λ r. r.now) result (rest_of (items_at bytes.now)) }
{
    let mut left = bytes;
    for _ in 0..bytes.len() {
        let next = without_spaces(left);
        if let Some(after) = strip(b')', next) {
            return Ok(after);
        }
        let rest = behind_item(alloc, next)?;
        if !is_item_end(rest) {
            return Err(FieldFault::NotInGrammar);
        }
        left = rest;
    }
    Err(FieldFault::NotInGrammar)
}

// Whether the inner list behind a `(` has the parameter, and what stands behind it.
#[tactic(auto, using(crate::proofs::Behind::inner_steps))]
pub(crate) fn inner_matched<'a>(
    alloc: Global,
    bytes: &'a [u8],
    name: &[u8],
    s: &[u8],
) -> Result<(bool, &'a [u8]), FieldFault>
    ensures { Gives (λ x. (x.0, x.1.now)) result (option_map (inner_matched name.now s.now) (inner_at bytes.now)) }
{
    let rest = behind_items(alloc, bytes)?;
    params_matched(alloc, rest, name, s)
}

#[tactic(auto, using(crate::proofs::Members::member_steps))]
fn member_matched<'a>(
    alloc: Global,
    bytes: &'a [u8],
    name: &[u8],
    s: &[u8],
) -> Result<(bool, &'a [u8]), FieldFault>
    ensures { Gives (λ x. (x.0, x.1.now)) result (option_map (member_matched name.now s.now) (member_at bytes.now)) }
{
    match strip(b'(', bytes) {
        Some(after) => inner_matched(alloc, after, name, s),
        None => Ok((false, behind_item(alloc, bytes)?)),
    }
}

/// Whether the member behind a key is an inner list with this parameter, which is this String; and what stands behind it.
#[tactic(auto, using(crate::proofs::Members::entry_steps))]
pub(crate) fn entry_value_matched<'a>(
    alloc: Global,
    bytes: &'a [u8],
    name: &[u8],
    s: &[u8],
) -> Result<(bool, &'a [u8]), FieldFault>
    ensures { Gives (λ x. (x.0, x.1.now)) result (option_map (member_matched name.now s.now) (entry_value_at bytes.now)) }
{
    match strip(b'=', bytes) {
        Some(after) => member_matched(alloc, after, name, s),
        None => Ok((false, behind_params(alloc, bytes)?)),
    }
}
