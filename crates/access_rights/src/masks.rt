//! Inclusion of a right in full by bits: a value of the wanted right has one bit for each granted right that may have it, and a choice of values is
//! granted where they share a bit.
ghost use Rattle.std.specs.Prelude.{◌≡◌, ◌^◌, ◌<◌, IfSome, bit_and, map, option_map};
ghost use Rattle.gnap_model.specs.Rights.{values_of};
ghost use Rattle.access_rights.specs.Inclusion.{covers_object};
ghost use Rattle.access_rights.specs.Masks.{texts_in, is_alike, has_value, with_bit, mask_of, privileges_meet, datatypes_meet, locations_meet, choices_meet};

use crate::inclusion::{is_of_kind, is_value};
use arrayvec::ArrayVec;
use bytes_and_lists::bytes::Bytes;
use gnap_model::rights::{Right, RightObject, Rights, Texts};

/// What a right in full may be narrowed to by several values (RFC 9635, section 8).
#[derive(Clone, Copy)]
enum Dimension {
    Actions,
    Locations,
    Datatypes,
    Privileges,
}

impl Dimension {
    fn texts_in(self, right: &RightObject) -> &Option<Texts>
        ensures { result.now ≡ texts_in self right.now }
    {
        match self {
            Dimension::Actions => &right.actions,
            Dimension::Locations => &right.locations,
            Dimension::Datatypes => &right.datatypes,
            Dimension::Privileges => &right.privileges,
        }
    }
}

fn is_alike(wanted: &RightObject, right: &Right) -> bool
    ensures { result ≡ is_alike wanted.now right.now }
{
    match right {
        Right::Reference(_) => false,
        Right::Object(own) => is_of_kind(wanted, own.get()),
    }
}

fn has_value(right: &Right, dimension: Dimension, value: Option<&Bytes>) -> bool
    ensures { result ≡ has_value dimension (option_map (λ b. b.now) value.entry) right.now }
{
    match right {
        Right::Reference(_) => false,
        Right::Object(own) => is_value(value, dimension.texts_in(own.get())),
    }
}

fn with_bit(bits: u64, set: bool) -> u64
    requires { bits < 2 ^ 63 }
    ensures { result ≡ with_bit bits set }
{
    if set { 2 * bits + 1 } else { 2 * bits }
}

const HIGHEST_BIT: u64 = 1 << 63;

// The bits of a value, where 64 are enough.
fn mask_of(
    granted: &Rights,
    wanted: &RightObject,
    dimension: Dimension,
    value: Option<&Bytes>,
) -> Option<u64>
    ensures { IfSome result (λ bits. bits ≡ mask_of granted.now wanted.now dimension (option_map (λ b. b.now) value.entry)) }
{
    let mut bits = 0u64;
    for right in granted.as_slice() {
        if is_alike(wanted, right) {
            if HIGHEST_BIT <= bits {
                return None;
            }
            bits = with_bit(bits, has_value(right, dimension, value));
        }
    }
    Some(bits)
}

// The bits of each value of a dimension, where 64 are enough and there are at most 16 values.
fn masks_of(
    granted: &Rights,
    wanted: &RightObject,
    dimension: Dimension,
) -> Option<ArrayVec<u64, 16>>
    ensures { IfSome result (λ masks. masks.items ≡ map (λ v. mask_of granted.now wanted.now dimension v) (values_of (texts_in dimension wanted.now))) }
{
    let mut masks = ArrayVec::new();
    let Some(texts) = dimension.texts_in(wanted) else {
        masks.push(mask_of(granted, wanted, dimension, None)?);
        return Some(masks);
    };
    for text in texts.as_slice() {
        let mask = mask_of(granted, wanted, dimension, Some(text))?;
        match masks.try_push(mask) {
            Ok(()) => {}
            Err(_) => return None,
        }
    }
    Some(masks)
}

fn privileges_meet(bits: u64, privileges: &[u64]) -> bool
    ensures { result ≡ privileges_meet bits privileges.now }
{
    for mask in privileges {
        if bits & *mask == 0 {
            return false;
        }
    }
    true
}

fn datatypes_meet(bits: u64, datatypes: &[u64], privileges: &[u64]) -> bool
    ensures { result ≡ datatypes_meet bits datatypes.now privileges.now }
{
    for mask in datatypes {
        if !privileges_meet(bits & *mask, privileges) {
            return false;
        }
    }
    true
}

fn locations_meet(bits: u64, locations: &[u64], datatypes: &[u64], privileges: &[u64]) -> bool
    ensures { result ≡ locations_meet bits locations.now datatypes.now privileges.now }
{
    for mask in locations {
        if !datatypes_meet(bits & *mask, datatypes, privileges) {
            return false;
        }
    }
    true
}

fn choices_meet(actions: &[u64], locations: &[u64], datatypes: &[u64], privileges: &[u64]) -> bool
    ensures { result ≡ choices_meet actions.now locations.now datatypes.now privileges.now }
{
    for mask in actions {
        if !locations_meet(*mask, locations, datatypes, privileges) {
            return false;
        }
    }
    true
}

/// Whether all atoms of the wanted right are granted; none where it has a dimension of more than 16 values, or where more than 64 of the granted
/// rights are of its type, identifier and further members.
pub(crate) fn covers_by_masks(granted: &Rights, wanted: &RightObject) -> Option<bool>
    ensures { IfSome result (λ covered. covered ≡ covers_object granted.now wanted.now) }
{
    let actions = masks_of(granted, wanted, Dimension::Actions)?;
    let locations = masks_of(granted, wanted, Dimension::Locations)?;
    let datatypes = masks_of(granted, wanted, Dimension::Datatypes)?;
    let privileges = masks_of(granted, wanted, Dimension::Privileges)?;
    Some(choices_meet(
        actions.as_slice(),
        locations.as_slice(),
        datatypes.as_slice(),
        privileges.as_slice(),
    ))
}
