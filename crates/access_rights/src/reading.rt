//! Rights, read from JSON (RFC 9635, section 8).
ghost use Rattle.std.specs.Prelude.{◌≡◌, ◌≤◌, IfOk, IsUtf8};
ghost use Rattle.std.specs.List.{AllByRecursion};
ghost use Rattle.serde_json.specs.Data.{object};
ghost use Rattle.serde_json.specs.View.{view, items_view, members_view};
ghost use Rattle.json_objects.specs.Bodies.{IsBody, AreBodies};
ghost use Rattle.json_objects.specs.Reading.{Gives, each};
ghost use Rattle.json_objects.specs.Texts.{IsUtf8Or, AreUtf8};
ghost use Rattle.access_rights.specs.declared.reading.RightsFault.TheVariants.{OutOfMemory};
ghost use Rattle.access_rights.specs.Fits.{IsFurther, FitsObject, Fits};
ghost use Rattle.access_rights.specs.Reading.{any_text, sized, type_of, dimension_of, identifier_of, further_of, extent, right_object_of, right_of, rights_of};
ghost use Rattle.access_rights.specs.Dimensions.{dimensions_of, choice_count, few_choices, right_with, AreFew, DimensionsFit};

use crate::further::further_of;
use bytes_and_lists::bytes::Bytes;
use bytes_and_lists::memory::Mem;
use bytes_and_lists::seq::Seq;
use gnap_model::boxed::Boxed;
use gnap_model::rights::{Right, RightObject, Rights, Texts};
use serde_json::{Map, Value};
use std::alloc::Global;
use thiserror::Error;

/// Why a JSON value isn't an array of rights.
#[derive(Clone, Copy, Debug, Error)]
pub enum RightsFault {
    /// Another JSON type, an empty text or array, or a right in full without a type.
    #[error("the rights aren't of their form")]
    Wrong,
    /// A text, an array or the number of a right's atoms passes its limit.
    #[error("a right is too long or has too many items")]
    TooMany,
    #[error("memory ran out")]
    OutOfMemory,
}

impl From<Mem> for RightsFault {
    ghost from_gives = { λ _ e. e ≡ OutOfMemory };

    fn from(_e: Mem) -> RightsFault {
        RightsFault::OutOfMemory
    }
}

fn any_text(alloc: Global, value: &Value) -> Result<Bytes, RightsFault>
    ensures value { Gives OutOfMemory (λ s. s) result (any_text (view value.now)) }
    ensures utf8 { IfOk result IsUtf8 }
{
    let Some(text) = value.as_str() else {
        return Err(RightsFault::Wrong);
    };
    Ok(Bytes::from_slice(alloc, text.as_bytes())?)
}

fn sized(text: Bytes) -> Result<Bytes, RightsFault>
    ensures value { Gives OutOfMemory (λ s. s) result (sized text) }
    ensures same { IfOk result (λ s. s ≡ text) }
{
    if text.len() == 0 {
        return Err(RightsFault::Wrong);
    }
    if 256 < text.len() {
        return Err(RightsFault::TooMany);
    }
    Ok(text)
}

#[tactic(auto, unfolding(crate::specs::Reading::type_of))]
fn type_of(alloc: Global, right: &Value) -> Result<Bytes, RightsFault>
    ensures value { Gives OutOfMemory (λ s. s) result (type_of (view right.now)) }
    ensures utf8 { IfOk result IsUtf8 }
{
    let Some(member) = right.get("type") else {
        return Err(RightsFault::Wrong);
    };
    sized(any_text(alloc, member)?)
}

fn texts_of(alloc: Global, items: &Vec<Value>) -> Result<Texts, RightsFault>
    ensures value { Gives OutOfMemory (λ s. s) result (each any_text (items_view items.now.items)) }
    ensures utf8 { IfOk result (AllByRecursion IsUtf8) }
{
    let mut texts = Seq::new(alloc);
    for item in items {
        texts.push(any_text(alloc, item)?)?;
    }
    Ok(texts)
}

#[tactic(auto, unfolding(crate::specs::Reading::dimension_of))]
fn dimension_of(alloc: Global, right: &Value, name: &str) -> Result<Option<Texts>, RightsFault>
    ensures value { Gives OutOfMemory (λ s. s) result (dimension_of name.now (view right.now)) }
    ensures few { IfOk result (λ t. extent t ≤ 16) }
    ensures utf8 { IfOk result AreUtf8 }
{
    let Some(member) = right.get(name) else {
        return Ok(None);
    };
    let Some(items) = member.as_array() else {
        return Err(RightsFault::Wrong);
    };
    let texts = texts_of(alloc, items)?;
    if texts.len() == 0 {
        return Err(RightsFault::Wrong);
    }
    if 16 < texts.len() {
        return Err(RightsFault::TooMany);
    }
    Ok(Some(texts))
}

#[tactic(auto, unfolding(crate::specs::Reading::identifier_of))]
fn identifier_of(alloc: Global, right: &Value) -> Result<Option<Bytes>, RightsFault>
    ensures value { Gives OutOfMemory (λ s. s) result (identifier_of (view right.now)) }
    ensures utf8 { IfOk result IsUtf8Or }
{
    let Some(member) = right.get("identifier") else {
        return Ok(None);
    };
    Ok(Some(any_text(alloc, member)?))
}

fn extent(dimension: &Option<Texts>) -> usize
    ensures { result ≡ extent dimension.now }
{
    match dimension {
        None => 1,
        Some(values) => values.len(),
    }
}

// What a right in full is narrowed to by several values.
#[derive(Drop)]
struct Dimensions {
    actions: Option<Texts>,
    locations: Option<Texts>,
    datatypes: Option<Texts>,
    privileges: Option<Texts>,
}

fn dimensions_of(alloc: Global, right: &Value) -> Result<Dimensions, RightsFault>
    ensures value { Gives OutOfMemory (λ s. s) result (dimensions_of (view right.now)) }
    ensures few { IfOk result AreFew }
    ensures utf8 { IfOk result DimensionsFit }
{
    Ok(Dimensions {
        actions: dimension_of(alloc, right, "actions")?,
        locations: dimension_of(alloc, right, "locations")?,
        datatypes: dimension_of(alloc, right, "datatypes")?,
        privileges: dimension_of(alloc, right, "privileges")?,
    })
}

// How many choices of one value from each dimension there are.
fn choice_count(dimensions: &Dimensions) -> usize
    requires { AreFew dimensions.now }
    ensures { result ≡ choice_count dimensions.now }
{
    extent(&dimensions.actions)
        * extent(&dimensions.locations)
        * extent(&dimensions.datatypes)
        * extent(&dimensions.privileges)
}

// The right in full of these parts.
fn right_with(
    kind: Bytes,
    dimensions: Dimensions,
    identifier: Option<Bytes>,
    further: Bytes,
) -> RightObject
    ensures { result ≡ right_with kind dimensions identifier further }
{
    RightObject {
        kind,
        actions: dimensions.actions,
        locations: dimensions.locations,
        datatypes: dimensions.datatypes,
        privileges: dimensions.privileges,
        identifier,
        further,
    }
}

// The further members of a right with these dimensions, where it has at most 1,024 atoms.
fn counted_further(
    alloc: Global,
    dimensions: &Dimensions,
    members: &Map<String, Value>,
) -> Result<Bytes, RightsFault>
    requires few { AreFew dimensions.now }
    requires body { IsBody (object (members_view members.now.entries)) }
    ensures value { Gives OutOfMemory (λ b. b) result (few_choices dimensions.now (further_of (members_view members.now.entries))) }
    ensures further { IfOk result IsFurther }
{
    if 1024 < choice_count(dimensions) {
        return Err(RightsFault::TooMany);
    }
    Ok(further_of(alloc, members)?)
}

#[tactic(auto, unfolding(crate::specs::Reading::right_object_of), using(crate::proofs::Dimensions::dimensions_then))]
fn right_object_of(
    alloc: Global,
    right: &Value,
    members: &Map<String, Value>,
) -> Result<RightObject, RightsFault>
    requires { IsBody (object (members_view members.now.entries)) }
    ensures value { Gives OutOfMemory (λ r. r) result (right_object_of (view right.now) (members_view members.now.entries)) }
    ensures fits { IfOk result FitsObject }
{
    let kind = type_of(alloc, right)?;
    let dimensions = dimensions_of(alloc, right)?;
    let identifier = identifier_of(alloc, right)?;
    let further = counted_further(alloc, &dimensions, members)?;
    Ok(right_with(kind, dimensions, identifier, further))
}

#[tactic(auto, unfolding(crate::specs::Reading::right_of))]
fn right_of(alloc: Global, value: &Value) -> Result<Right, RightsFault>
    requires { IsBody (view value.now) }
    ensures value { Gives OutOfMemory (λ r. r) result (right_of (view value.now)) }
    ensures fits { IfOk result Fits }
{
    if let Some(text) = value.as_str() {
        return Ok(Right::Reference(sized(Bytes::from_slice(alloc, text.as_bytes())?)?));
    }
    let Some(members) = value.as_object() else {
        return Err(RightsFault::Wrong);
    };
    Ok(Right::Object(Boxed::new(alloc, right_object_of(alloc, value, members)?)?))
}

fn each_right(alloc: Global, items: &Vec<Value>) -> Result<Rights, RightsFault>
    requires { AreBodies (items_view items.now.items) }
    ensures value { Gives OutOfMemory (λ r. r) result (each right_of (items_view items.now.items)) }
    ensures fits { IfOk result (AllByRecursion Fits) }
{
    let mut rights = Seq::new(alloc);
    for item in items {
        rights.push(right_of(alloc, item)?)?;
    }
    Ok(rights)
}

/// The rights that a JSON array is. A right is a string of 1 to 256 bytes, its reference, or an object, the right in full, with `type`, a string of 1
/// to 256 bytes, and where they are there `actions`, `locations`, `datatypes` and `privileges`, arrays of 1 to 16 strings, and `identifier`, a string;
/// its other members are kept as one text. A right in full has at most 1,024 atoms: the choices of one value from each of the four arrays. The members
/// are read in this order, and the first fault in the array is the answer.
#[tactic(auto, unfolding(crate::specs::Reading::rights_of))]
pub fn read_rights(alloc: Global, value: &Value) -> Result<Rights, RightsFault>
    requires { IsBody (view value.now) }
    ensures value { Gives OutOfMemory (λ r. r) result (rights_of (view value.now)) }
    ensures fits { IfOk result (AllByRecursion Fits) }
{
    let Some(items) = value.as_array() else {
        return Err(RightsFault::Wrong);
    };
    each_right(alloc, items)
}
