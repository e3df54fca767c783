//! The members of a dictionary that count for one who looks for a parameter, or for a key. The others are skipped.
ghost use Rattle.std.specs.Prelude.{◌≡◌, ◌||◌, ℕ, List, Some, [], length, IfOk, IfErr, IfSome};
ghost use Rattle.std.specs.Option.{option_map};
ghost use Rattle.std.specs.Str.{bytes_eq};
ghost use Rattle.structured_fields.specs.declared.item.Member.{Member as MemberValue};
ghost use Rattle.structured_fields.specs.Reading.{Fails, Gives, entry_at, members_from, with_entry, dictionary_of};
ghost use Rattle.structured_fields.specs.Named.{value_at};
ghost use Rattle.dictionary_lookup.specs.declared.lookup.Matched.TheVariants.{Nowhere, Once, Unsettled};
ghost use Rattle.dictionary_lookup.specs.Skipping.{entry_matched, Tells, Enters, bare_found};

use crate::entries::{entry_value_read, entry_value_single};
use crate::skipping::{entry_value_matched, key_in};
use std::alloc::Global;
use structured_fields::front::{next_in, without_spaces};
use structured_fields::{Bare, FieldFault, InnerList, sole_bytes};

/// An inner list that has the parameter that was looked for.
#[derive(Drop)]
pub struct MatchedList<'a> {
    /// The key under which it stands.
    pub key: &'a [u8],
    /// The list, with its items up to the first one that has parameters. None where an item is no String.
    pub strings: Option<InnerList>,
}

/// Where a dictionary has the inner list with a parameter that is a given String.
#[derive(Drop)]
pub enum Matched<'a> {
    /// No member is such a list.
    Nowhere,
    /// This one alone is.
    Once(MatchedList<'a>),
    /// Members stand behind one that is such a list, and are such lists too, or have its key: only the whole dictionary tells.
    Unsettled,
}

// ---- the list with a parameter

// The entry, where none before it is such a list.
fn first_match<'a>(
    alloc: Global,
    bytes: &'a [u8],
    name: &[u8],
    s: &[u8],
) -> Result<(Matched<'a>, &'a [u8]), FieldFault>
    ensures ok { IfOk result (λ x. Enters bytes.now x.1.now (Tells name.now s.now Nowhere) (Tells name.now s.now x.0)) }
    ensures err { IfErr result (λ e. Fails e (entry_at bytes.now)) }
{
    let Some((key, value)) = key_in(bytes) else {
        return Err(FieldFault::NotInGrammar);
    };
    let (strings, matched, rest) = entry_value_read(alloc, value, name, s)?;
    if !matched {
        return Ok((Matched::Nowhere, rest));
    }
    Ok((Matched::Once(MatchedList { key, strings }), rest))
}

// An entry that was skipped.
#[derive(Clone, Copy)]
struct Skipped<'a> {
    key: &'a [u8],
    matched: bool,
    rest: &'a [u8],
}

fn entry_skipped<'a>(
    alloc: Global,
    bytes: &'a [u8],
    name: &[u8],
    s: &[u8],
) -> Result<Skipped<'a>, FieldFault>
    ensures { Gives (λ p. ((p.key.now, p.matched), p.rest.now)) result (option_map (entry_matched name.now s.now) (entry_at bytes.now)) }
{
    let Some((key, value)) = key_in(bytes) else {
        return Err(FieldFault::NotInGrammar);
    };
    let (matched, rest) = entry_value_matched(alloc, value, name, s)?;
    Ok(Skipped { key, matched, rest })
}

// Whether a member behind the one that was found is such a list too, or has its key.
fn unsettles(skipped: Skipped<'_>, key: &[u8]) -> bool
    ensures { result ≡ (skipped.entry.matched || bytes_eq key.now skipped.entry.key.now) }
{
    skipped.matched || key == skipped.key
}

// The entry, where one before it is such a list.
fn second_match<'a>(
    alloc: Global,
    one: MatchedList<'a>,
    bytes: &'a [u8],
    name: &[u8],
    s: &[u8],
) -> Result<(Matched<'a>, &'a [u8]), FieldFault>
    ensures ok { IfOk result (λ x. Enters bytes.now x.1.now (Tells name.now s.now (Once one.entry)) (Tells name.now s.now x.0)) }
    ensures err { IfErr result (λ e. Fails e (entry_at bytes.now)) }
{
    let skipped = entry_skipped(alloc, bytes, name, s)?;
    if unsettles(skipped, one.key) {
        return Ok((Matched::Unsettled, skipped.rest));
    }
    Ok((Matched::Once(one), skipped.rest))
}

// What is found with one more entry, and what stands behind it.
fn with_entry_matched<'a>(
    alloc: Global,
    found: Matched<'a>,
    bytes: &'a [u8],
    name: &[u8],
    s: &[u8],
) -> Result<(Matched<'a>, &'a [u8]), FieldFault>
    ensures ok { IfOk result (λ x. Enters bytes.now x.1.now (Tells name.now s.now found.entry) (Tells name.now s.now x.0)) }
    ensures err { IfErr result (λ e. Fails e (entry_at bytes.now)) }
{
    match found {
        Matched::Nowhere => first_match(alloc, bytes, name, s),
        Matched::Once(one) => second_match(alloc, one, bytes, name, s),
        Matched::Unsettled => {
            let skipped = entry_skipped(alloc, bytes, name, s)?;
            Ok((Matched::Unsettled, skipped.rest))
        }
    }
}

fn matching_in<'a>(
    alloc: Global,
    bytes: &'a [u8],
    name: &[u8],
    s: &[u8],
) -> Result<Matched<'a>, FieldFault>
    ensures ok { IfOk result (λ found. (d : List (List ℕ × MemberValue)) × (members_from entry_at with_entry (length bytes.now) [] bytes.now ≡ Some d)
        × Tells name.now s.now found d) }
    ensures err { IfErr result (λ e. Fails e (members_from entry_at with_entry (length bytes.now) [] bytes.now)) }
{
    let mut found = Matched::Nowhere;
    let mut left = bytes;
    for _ in 0..bytes.len() {
        let (now, rest) = with_entry_matched(alloc, found, left, name, s)?;
        let Some(next) = next_in(rest)? else {
            return Ok(now);
        };
        found = now;
        left = next;
    }
    Err(FieldFault::NotInGrammar)
}

/// The inner list of a dictionary (RFC 9651, section 4.2.2) whose parameter of this name is this String, where the dictionary has one such list alone, with its
/// items up to the first one that has parameters. The text is gone through once, and no other member takes memory that stays.
///
/// Errors: NotInGrammar exactly where the text is no dictionary. OutOfMemory may come in place of any answer.
#[tactic(auto, unfolding(structured_fields::specs::Reading::dictionary_of, structured_fields::specs::Reading::members_of))]
pub fn matching_list<'a>(
    alloc: Global,
    text: &'a [u8],
    name: &[u8],
    s: &[u8],
) -> Result<Matched<'a>, FieldFault>
    ensures ok { IfOk result (λ found. (d : List (List ℕ × MemberValue)) × (dictionary_of text.now ≡ Some d) × Tells name.now s.now found d) }
    ensures err { IfErr result (λ e. Fails e (dictionary_of text.now)) }
{
    let bytes = without_spaces(text);
    if bytes.is_empty() {
        return Ok(Matched::Nowhere);
    }
    matching_in(alloc, bytes, name, s)
}

// ---- the bare item under a key

// The bare item under the key with one more entry, where it was this before, and what stands behind the entry.
fn with_entry_single<'a>(
    alloc: Global,
    found: Option<Bare>,
    bytes: &'a [u8],
    key: &[u8],
) -> Result<(Option<Bare>, &'a [u8]), FieldFault>
    ensures ok { IfOk result (λ x. Enters bytes.now x.1.now (λ d. found ≡ bare_found (value_at d key.now)) (λ d. x.0 ≡ bare_found (value_at d key.now))) }
    ensures err { IfErr result (λ e. Fails e (entry_at bytes.now)) }
{
    let Some((name, value)) = key_in(bytes) else {
        return Err(FieldFault::NotInGrammar);
    };
    if name == key {
        drop(found);
        let (single, rest) = entry_value_single(alloc, value)?;
        return Ok((single, rest));
    }
    let (_, rest) = entry_value_matched(alloc, value, b"", b"")?;
    Ok((found, rest))
}

fn single_in(alloc: Global, bytes: &[u8], key: &[u8]) -> Result<Option<Bare>, FieldFault>
    ensures { Gives (λ o. o) result (option_map (λ d. bare_found (value_at d key.now)) (members_from entry_at with_entry (length bytes.now) [] bytes.now)) }
{
    let mut found = None;
    let mut left = bytes;
    for _ in 0..bytes.len() {
        let (now, rest) = with_entry_single(alloc, found, left, key)?;
        let Some(next) = next_in(rest)? else {
            return Ok(now);
        };
        found = now;
        left = next;
    }
    Err(FieldFault::NotInGrammar)
}

// The same where the text is one byte sequence under the key, and nothing else: most of the fields that are asked are. What is no key stands in no dictionary.
fn sole_under(alloc: Global, text: &[u8], key: &[u8]) -> Option<Bare>
    ensures { IfSome result (λ bare. option_map (λ d. bare_found (value_at d key.now)) (dictionary_of text.now) ≡ Some (Some bare)) }
{
    let (_, behind) = key_in(key)?;
    if !behind.is_empty() {
        return None;
    }
    Some(Bare::Binary(sole_bytes(alloc, text, key)?))
}

#[tactic(auto, unfolding(structured_fields::specs::Reading::dictionary_of, structured_fields::specs::Reading::members_of))]
fn single_in_text(alloc: Global, text: &[u8], key: &[u8]) -> Result<Option<Bare>, FieldFault>
    ensures { Gives (λ o. o) result (option_map (λ d. bare_found (value_at d key.now)) (dictionary_of text.now)) }
{
    let bytes = without_spaces(text);
    if bytes.is_empty() {
        return Ok(None);
    }
    single_in(alloc, bytes, key)
}

/// The bare item of the member under a key of a dictionary (RFC 9651, section 4.2.2), of which the last one counts. None exactly where no member has the key,
/// or it is an inner list. A text that is one byte sequence under the key is decoded directly. Any other is gone through once then, and no other member takes
/// memory that stays.
///
/// Errors: NotInGrammar exactly where the text is no dictionary. OutOfMemory may come in place of any answer.
pub fn single_under(alloc: Global, text: &[u8], key: &[u8]) -> Result<Option<Bare>, FieldFault>
    ensures { Gives (λ o. o) result (option_map (λ d. bare_found (value_at d key.now)) (dictionary_of text.now)) }
{
    match sole_under(alloc, text, key) {
        Some(bare) => Ok(Some(bare)),
        None => single_in_text(alloc, text, key),
    }
}
