//! Reading what is sought of the member behind a key.
ghost use Rattle.std.specs.Prelude.{◌≡◌};
ghost use Rattle.std.specs.Option.{option_map};
ghost use Rattle.structured_fields.specs.Reading.{Gives, item_at, member_at, entry_value_at};
ghost use Rattle.dictionary_lookup.specs.Skipping.{bare_read, member_read, single_read};

use crate::skipping::{behind_item, behind_params, inner_matched};
use crate::string_lists::list_read;
use std::alloc::Global;
use structured_fields::front::{bare_of, strip};
use structured_fields::{Bare, FieldFault, InnerList};

#[tactic(auto, using(crate::proofs::Members::member_read_steps))]
fn member_read<'a>(
    alloc: Global,
    bytes: &'a [u8],
    name: &[u8],
    s: &[u8],
) -> Result<(Option<InnerList>, bool, &'a [u8]), FieldFault>
    ensures { Gives (λ x. ((x.0, x.1), x.2.now)) result (option_map (member_read name.now s.now) (member_at bytes.now)) }
{
    match strip(b'(', bytes) {
        Some(after) => list_read(alloc, after, name, s),
        None => Ok((None, false, behind_item(alloc, bytes)?)),
    }
}

/// The member behind a key, where it is an inner list of Strings, with its items up to the first one that has parameters; whether it is an inner list with this
/// parameter, which is this String; and what stands behind it.
#[tactic(auto, using(crate::proofs::Members::entry_read_steps))]
pub(crate) fn entry_value_read<'a>(
    alloc: Global,
    bytes: &'a [u8],
    name: &[u8],
    s: &[u8],
) -> Result<(Option<InnerList>, bool, &'a [u8]), FieldFault>
    ensures { Gives (λ x. ((x.0, x.1), x.2.now)) result (option_map (member_read name.now s.now) (entry_value_at bytes.now)) }
{
    match strip(b'=', bytes) {
        Some(after) => member_read(alloc, after, name, s),
        None => Ok((None, false, behind_params(alloc, bytes)?)),
    }
}

#[tactic(auto, using(crate::proofs::Members::item_single_steps))]
fn item_single(alloc: Global, bytes: &[u8]) -> Result<(Option<Bare>, &[u8]), FieldFault>
    ensures { Gives (λ x. (x.0, x.1.now)) result (option_map bare_read (item_at bytes.now)) }
{
    let (bare, rest) = bare_of(alloc, bytes)?;
    Ok((Some(bare), behind_params(alloc, rest)?))
}

#[tactic(auto, using(crate::proofs::Members::member_single_steps))]
fn member_single(alloc: Global, bytes: &[u8]) -> Result<(Option<Bare>, &[u8]), FieldFault>
    ensures { Gives (λ x. (x.0, x.1.now)) result (option_map single_read (member_at bytes.now)) }
{
    match strip(b'(', bytes) {
        Some(after) => {
            let (_, rest) = inner_matched(alloc, after, b"", b"")?;
            Ok((None, rest))
        }
        None => item_single(alloc, bytes),
    }
}

/// The bare item of the member behind a key, and what stands behind the member. None where it is an inner list.
#[tactic(auto, using(crate::proofs::Members::entry_single_steps))]
pub(crate) fn entry_value_single(
    alloc: Global,
    bytes: &[u8],
) -> Result<(Option<Bare>, &[u8]), FieldFault>
    ensures { Gives (λ x. (x.0, x.1.now)) result (option_map single_read (entry_value_at bytes.now)) }
{
    match strip(b'=', bytes) {
        Some(after) => member_single(alloc, after),
        None => Ok((Some(Bare::Boolean(true)), behind_params(alloc, bytes)?)),
    }
}
