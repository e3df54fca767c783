//! What the fields of a head say of the body behind it (RFC 9112, section 6).
ghost use Rattle.std.specs.Prelude.{◌≡◌, ◌-◌, ◌^◌, ◌≤◌, ◌||◌, min, length, map, All, IfOk, Some, None, if◌then◌else◌, codes};
ghost use Rattle.std.specs.List.{list_any};
ghost use Rattle.std.specs.Char.{to_ascii_lowercase};
ghost use Rattle.std.specs.Str.Parse.{digits_value};
ghost use Rattle.httparse.specs.Spans.{IsHeaderWithin, header_bytes};
ghost use Rattle.http1.specs.Fields.{is_named};
ghost use Rattle.http_edge.specs.Limits.{field_limit};
ghost use Rattle.http_edge.specs.Framing.{is_coded, is_digits, lengths_of, length_framing, framing_of, asks_to_close};
ghost use Rattle.http_edge.specs.Streams.{field_of};
ghost use Rattle.http_edge.specs.Steps.{HasLengths, IsBounded};

use crate::fault::EdgeFault;
use bytes_and_lists::bytes::Bytes;
use bytes_and_lists::memory::Mem;
use bytes_and_lists::message::{Field, Fields};
use http1::fields::KnownFields;
use http1::text::eq_ignore_case;
use httparse::spans::{HeaderSpan, Span};
use std::alloc::Global;

/// The most bytes of a body.
pub(crate) const BODY_LIMIT: u64 = 65_536;

/// What the fields of a request say of its body.
#[derive(Clone, Copy)]
pub enum Framing {
    Refused(EdgeFault),
    /// It has so many bytes.
    Body(usize),
}

/// Which `Content-Length` fields there are.
#[derive(Clone, Copy)]
pub enum LengthField {
    Absent,
    /// One, with the value there.
    One(Span),
    Several,
}

/// Which fields there are that say something of the body or of the connection.
#[derive(Clone, Copy)]
pub struct FramingFields {
    /// A coding of the body is named.
    pub coded: bool,
    pub length: LengthField,
    /// There is a `Connection` field.
    pub connection: bool,
}

fn is_named(head: &[u8], field: &HeaderSpan, name: &[u8]) -> bool
    requires { IsHeaderWithin (length head.now) field.now }
    ensures { result ≡ is_named name.now (header_bytes head.now field.now) }
{
    eq_ignore_case(field.name.of(head), name)
}

fn is_coded(head: &[u8], field: &HeaderSpan) -> bool
    requires { IsHeaderWithin (length head.now) field.now }
    ensures { result ≡ is_coded (header_bytes head.now field.now) }
{
    is_named(head, field, b"transfer-encoding") || is_named(head, field, b"content-encoding")
}

/// The fields that say something of the body or of the connection, in one pass.
pub(crate) fn framing_fields(head: &[u8], fields: &[HeaderSpan]) -> FramingFields
    requires { All (IsHeaderWithin (length head.now)) fields.now }
    ensures coded { result.coded ≡ list_any is_coded (map (header_bytes head.now) fields.now) }
    ensures lengths { HasLengths head.now result.length (lengths_of (map (header_bytes head.now) fields.now)) }
    ensures connection { result.connection ≡ list_any (is_named (codes "connection")) (map (header_bytes head.now) fields.now) }
{
    let mut coded = false;
    let mut length = LengthField::Absent;
    let mut connection = false;
    for field in fields {
        coded |= is_coded(head, field);
        connection |= is_named(head, field, b"connection");
        if is_named(head, field, b"content-length") {
            length = match length {
                LengthField::Absent => LengthField::One(field.value),
                _ => LengthField::Several,
            };
        }
    }
    FramingFields {
        coded,
        length,
        connection,
    }
}

/// The number that the digits give, where there are digits alone. One past 2^64 - 1 counts as that.
pub(crate) fn decimal_number(digits: &[u8]) -> Option<u64>
    ensures { result ≡ (if is_digits digits.now then Some (min (digits_value 10 digits.now) (2 ^ 64 - 1)) else None) }
{
    if digits.is_empty() {
        return None;
    }
    let mut number: u64 = 0;
    for digit in digits {
        if !digit.is_ascii_digit() {
            return None;
        }
        number = number
            .saturating_mul(10)
            .saturating_add((*digit - b'0') as u64);
    }
    Some(number)
}

fn length_framing(value: &[u8]) -> Framing
    ensures value { result ≡ length_framing value.now }
    ensures bound { IsBounded result }
{
    match decimal_number(value) {
        None => Framing::Refused(EdgeFault::BadHead),
        Some(length) => {
            if length > BODY_LIMIT {
                Framing::Refused(EdgeFault::TooLarge)
            } else {
                Framing::Body(length as usize)
            }
        }
    }
}

/// What the fields of a request, of which there are at most 64, say of its body; and whether a `Connection` field is among them.
pub(crate) fn request_framing(head: &[u8], fields: &[HeaderSpan]) -> (Framing, bool)
    requires within { All (IsHeaderWithin (length head.now)) fields.now }
    requires few { length fields.now ≤ field_limit }
    ensures value { result.0 ≡ framing_of (map (header_bytes head.now) fields.now) }
    ensures bound { IsBounded result.0 }
    ensures connection { result.1 ≡ list_any (is_named (codes "connection")) (map (header_bytes head.now) fields.now) }
{
    let known = framing_fields(head, fields);
    if known.coded {
        return (Framing::Refused(EdgeFault::Coded), known.connection);
    }
    let framing = match known.length {
        LengthField::Absent => Framing::Body(0),
        LengthField::One(span) => length_framing(span.of(head)),
        LengthField::Several => Framing::Refused(EdgeFault::BadHead),
    };
    (framing, known.connection)
}

/// A `Connection` field asks to close.
#[tactic(auto, unfolding(http1::specs::Fields::known_fields))]
pub(crate) fn asks_to_close(head: &[u8], fields: &[HeaderSpan]) -> bool
    requires { All (IsHeaderWithin (length head.now)) fields.now }
    ensures { result ≡ asks_to_close (map (header_bytes head.now) fields.now) }
{
    KnownFields::from_spans(head, fields).close
}

/// The fields that the spans cover, with their names in lower case.
pub(crate) fn fields_of(alloc: Global, head: &[u8], spans: &[HeaderSpan]) -> Result<Fields, Mem>
    requires { All (IsHeaderWithin (length head.now)) spans.now }
    ensures { IfOk result (λ fields. fields ≡ map field_of (map (header_bytes head.now) spans.now)) }
{
    let mut fields = Vec::with_capacity(alloc, spans.len())?;
    for span in spans {
        let name = Bytes::lowercased(alloc, span.name.of(head))?;
        let value = Bytes::from_slice(alloc, span.value.of(head))?;
        fields.push(Field { name, value })?;
    }
    Ok(Fields::from_vec(fields))
}
