//! The values of a message's components (RFC 9421, section 2).
ghost use Rattle.std.specs.Prelude.{◌≡◌, ◌≤◌, ◌++◌, Some, length, IfOk};
ghost use Rattle.std.specs.List.{list_any};
ghost use Rattle.std.specs.Option.{option_map};
ghost use Rattle.std.specs.Str.{bytes_eq};
ghost use Rattle.message_signature.specs.Faults.{GivesBase};
ghost use Rattle.message_signature.specs.BaseTemplates.{derived_named, derived_value, component_named, covered_value};
ghost use Rattle.message_signature.specs.Components.{field_value, with_next, text_of, until, or_default, scheme_of, authority_of, target_path, path_of, query_of, begins_with_at, is_upper, other_value, component};
ghost use Rattle.message_signature.specs.Verified.{has_body, has_field};

use crate::fault::BaseFault;
use bytes_and_lists::bytes::Bytes;
use bytes_and_lists::memory::Mem;
use bytes_and_lists::message::{Fields, Message};
use std::alloc::Global;
use structured_fields::trimmed;

/// A derived component (section 2.2).
#[derive(Clone, Copy, Drop)]
pub(crate) enum DerivedComponent {
    Method,
    TargetUri,
    Authority,
    Scheme,
    Path,
    Query,
}

/// A component that a signature may cover: a derived one, or the field with a name.
#[derive(Drop)]
pub(crate) enum CoveredComponent {
    Derived(DerivedComponent),
    Field(Bytes),
}

/// The value of a field: borrowed where one line has it, joined where several have.
#[derive(Drop)]
pub enum FieldValue<'a> {
    Line(&'a [u8]),
    Joined(Bytes),
}

impl FieldValue<'_> {
    pub fn as_slice(&self) -> &[u8]
        ensures { result.now ≡ text_of self.now }
    {
        match self {
            FieldValue::Line(line) => line,
            FieldValue::Joined(text) => text.as_slice(),
        }
    }
}

// The text with both behind it.
#[tactic(auto, using(std::proofs::Common::append_assoc))]
pub(crate) fn with_both(text: Bytes, front: &[u8], back: &[u8]) -> Result<Bytes, Mem>
    ensures { IfOk result (λ b. b ≡ text ++ (front.now ++ back.now)) }
{
    let mut out = text;
    out.extend(front)?;
    out.extend(back)?;
    Ok(out)
}

// What is joined so far, and one more value behind it.
fn with_next<'a>(
    alloc: Global,
    so_far: Option<FieldValue<'a>>,
    value: &'a [u8],
) -> Result<FieldValue<'a>, Mem>
    ensures { IfOk result (λ v. text_of v ≡ with_next (option_map text_of so_far.entry) value.now) }
{
    let text = match so_far {
        None => return Ok(FieldValue::Line(value)),
        Some(FieldValue::Line(line)) => Bytes::from_slice(alloc, line)?,
        Some(FieldValue::Joined(text)) => text,
    };
    Ok(FieldValue::Joined(with_both(text, b", ", value)?))
}

/// The value of a field (section 2.1): those of its lines without outer blanks, with `, ` between them. None exactly where no line has the name.
pub fn field_value<'a>(
    alloc: Global,
    fields: &'a Fields,
    name: &[u8],
) -> Result<Option<FieldValue<'a>>, Mem>
    ensures { IfOk result (λ o. option_map text_of o ≡ field_value name.now fields.now) }
{
    let mut found = None;
    for field in fields.as_slice() {
        if field.name.as_slice() == name {
            found = Some(with_next(alloc, found, trimmed(field.value.as_slice()))?);
        }
    }
    Ok(found)
}

// The text with the value of a field behind it. Unsupported exactly where no line has the name.
fn append_field(
    alloc: Global,
    text: Bytes,
    fields: &Fields,
    name: &[u8],
) -> Result<Bytes, BaseFault>
    ensures { GivesBase (λ b. b) result (option_map (λ v. text ++ v) (field_value name.now fields.now)) }
{
    match field_value(alloc, fields, name)? {
        Some(value) => append_bytes(text, value.as_slice()),
        None => Err(BaseFault::Unsupported),
    }
}

// The text with the value of a component behind it that isn't derived. Unsupported exactly where no line has the name, or it can be no field's.
fn append_other(
    alloc: Global,
    text: Bytes,
    fields: &Fields,
    name: &[u8],
) -> Result<Bytes, BaseFault>
    ensures { GivesBase (λ b. b) result (option_map (λ v. text ++ v) (other_value name.now fields.now)) }
{
    if begins_with_at(name) || has_upper(name) {
        return Err(BaseFault::Unsupported);
    }
    append_field(alloc, text, fields, name)
}

fn has_line(fields: &Fields, name: &[u8]) -> bool
    ensures { result ≡ list_any (λ f. bytes_eq f.name name.now) fields.now }
{
    fields
        .as_slice()
        .iter()
        .any(|field| field.name.as_slice() == name)
}

/// Whether a line has the name.
pub fn has_field(message: &Message, name: &[u8]) -> bool
    ensures { result ≡ has_field name.now message.now }
{
    has_line(&message.fields, name)
}

pub(crate) fn has_body(message: &Message) -> bool
    ensures { result ≡ has_body message.now }
{
    message.body.len() > 0
}

fn until(byte: u8, text: &[u8]) -> usize
    ensures len { result ≡ until byte text.now }
    ensures within { result ≤ length text.now }
{
    text.iter().take_while(|b| **b != byte).count()
}

fn or_default<'a>(default: &'a [u8], text: &'a [u8]) -> &'a [u8]
    ensures { result.now ≡ or_default default.now text.now }
{
    match text {
        [] => default,
        _ => text,
    }
}

fn scheme_of(base: &[u8]) -> &[u8]
    ensures { result.now ≡ scheme_of base.now }
{
    &base[..until(b':', base)]
}

fn authority_of(base: &[u8]) -> &[u8]
    ensures { result.now ≡ authority_of base.now }
{
    match base.get(until(b':', base) + 3..) {
        Some(authority) => authority,
        None => b"",
    }
}

/// The path of a request target: what stands before its first `?` (RFC 9112, section 3.2.1).
pub fn target_path(target: &[u8]) -> &[u8]
    ensures { result.now ≡ target_path target.now }
{
    &target[..until(b'?', target)]
}

fn path_of(target: &[u8]) -> &[u8]
    ensures { result.now ≡ path_of target.now }
{
    or_default(b"/", target_path(target))
}

fn query_of(target: &[u8]) -> &[u8]
    ensures { result.now ≡ query_of target.now }
{
    or_default(b"?", &target[until(b'?', target)..])
}

fn begins_with_at(name: &[u8]) -> bool
    ensures { result ≡ begins_with_at name.now }
{
    match name {
        [] => false,
        [c, ..] => *c == b'@',
    }
}

fn has_upper(name: &[u8]) -> bool
    ensures { result ≡ list_any is_upper name.now }
{
    name.iter().any(|c| c.is_ascii_uppercase())
}

/// The text with the value behind it.
pub fn append_bytes(text: Bytes, value: &[u8]) -> Result<Bytes, BaseFault>
    ensures { GivesBase (λ b. b) result (Some (text ++ value.now)) }
{
    let mut out = text;
    out.extend(value)?;
    Ok(out)
}

fn is(name: &[u8], other: &[u8]) -> bool
    ensures { result ≡ bytes_eq name.now other.now }
{
    name == other
}

fn derived_named(name: &[u8]) -> Option<DerivedComponent>
    ensures { result ≡ derived_named name.now }
{
    if is(name, b"@method") {
        Some(DerivedComponent::Method)
    } else if is(name, b"@target-uri") {
        Some(DerivedComponent::TargetUri)
    } else if is(name, b"@authority") {
        Some(DerivedComponent::Authority)
    } else if is(name, b"@scheme") {
        Some(DerivedComponent::Scheme)
    } else if is(name, b"@path") {
        Some(DerivedComponent::Path)
    } else if is(name, b"@query") {
        Some(DerivedComponent::Query)
    } else {
        None
    }
}

/// The component with a name.
///
/// Errors: Unsupported exactly where no message has one: a name with upper case, or one with `@` that no derived component has.
pub(crate) fn component_named(alloc: Global, name: &[u8]) -> Result<CoveredComponent, BaseFault>
    ensures { GivesBase (λ c. c) result (component_named name.now) }
{
    if let Some(component) = derived_named(name) {
        return Ok(CoveredComponent::Derived(component));
    }
    if begins_with_at(name) || has_upper(name) {
        return Err(BaseFault::Unsupported);
    }
    Ok(CoveredComponent::Field(Bytes::from_slice(alloc, name)?))
}

// The text with the value of a derived component behind it.
fn append_derived(
    text: Bytes,
    message: &Message,
    base: &Bytes,
    component: DerivedComponent,
) -> Result<Bytes, BaseFault>
    ensures { GivesBase (λ b. b) result (Some (text ++ derived_value message.now base.now component)) }
{
    let base = base.as_slice();
    let target = message.target.as_slice();
    match component {
        DerivedComponent::Method => append_bytes(text, message.method.as_slice()),
        DerivedComponent::TargetUri => Ok(with_both(text, base, target)?),
        DerivedComponent::Authority => append_bytes(text, authority_of(base)),
        DerivedComponent::Scheme => append_bytes(text, scheme_of(base)),
        DerivedComponent::Path => append_bytes(text, path_of(target)),
        DerivedComponent::Query => append_bytes(text, query_of(target)),
    }
}

/// The text with the value of a component behind it. Unsupported exactly where the message has no such field.
pub(crate) fn append_covered(
    alloc: Global,
    text: Bytes,
    message: &Message,
    base: &Bytes,
    component: &CoveredComponent,
) -> Result<Bytes, BaseFault>
    ensures { GivesBase (λ b. b) result (option_map (λ v. text ++ v) (covered_value message.now base.now component.now)) }
{
    match component {
        CoveredComponent::Derived(component) => append_derived(text, message, base, *component),
        CoveredComponent::Field(name) => {
            append_field(alloc, text, &message.fields, name.as_slice())
        }
    }
}

/// The text with the value of a component behind it (sections 2.1 and 2.2). Unsupported exactly where there is no such component.
#[tactic(auto, using(crate::proofs::ComponentParts::component_steps))]
pub fn append_component(
    alloc: Global,
    text: Bytes,
    message: &Message,
    base: &Bytes,
    name: &[u8],
) -> Result<Bytes, BaseFault>
    ensures { GivesBase (λ b. b) result (option_map (λ v. text ++ v) (component message.now base.now name.now)) }
{
    match derived_named(name) {
        Some(component) => append_derived(text, message, base, component),
        None => append_other(alloc, text, &message.fields, name),
    }
}
