//! Whether rights cover others (RFC 9635, section 8).
ghost use Rattle.std.specs.Prelude.{◌≡◌, ◌&&◌, option_map};
ghost use Rattle.std.specs.List.{list_any, list_all};
ghost use Rattle.gnap_model.specs.Common.{same_text, same_option};
ghost use Rattle.gnap_model.specs.Rights.Atom.{Name};
ghost use Rattle.gnap_model.specs.Rights.{values_of, right_atoms, same_atom, covers};
ghost use Rattle.access_rights.specs.Inclusion.{has_atom, atom_at, covers_privileges, covers_datatypes, covers_locations, covers_object};

use crate::masks::covers_by_masks;
use bytes_and_lists::bytes::Bytes;
use gnap_model::rights::{Right, RightObject, Rights, Texts};

/// Each atom of the wanted rights is an atom of the granted ones. A reference is one atom; a right in full has one for each choice
/// of an action, a location, a datatype and a privilege, where an absent array has the one value "absent" (RFC 9635, section 8).
pub fn covers(granted: &Rights, wanted: &Rights) -> bool
    ensures { result ≡ covers granted.now wanted.now }
{
    for right in wanted.as_slice() {
        if !covers_right(granted, right) {
            return false;
        }
    }
    true
}

#[tactic(auto, using(crate::proofs::Atoms::object_all))]
fn covers_right(granted: &Rights, wanted: &Right) -> bool
    ensures { result ≡ list_all (has_atom granted.now) (right_atoms wanted.now) }
{
    match wanted {
        Right::Reference(name) => has_reference(granted, name),
        Right::Object(object) => match covers_by_masks(granted, object.get()) {
            Some(covered) => covered,
            None => covers_object(granted, object.get()),
        },
    }
}

fn has_reference(granted: &Rights, name: &Bytes) -> bool
    ensures { result ≡ has_atom granted.now (Name name.now) }
{
    for right in granted.as_slice() {
        if is_reference(right, name) {
            return true;
        }
    }
    false
}

#[tactic(auto, using(crate::proofs::Atoms::no_name))]
fn is_reference(right: &Right, name: &Bytes) -> bool
    ensures { result ≡ list_any (same_atom (Name name.now)) (right_atoms right.now) }
{
    match right {
        Right::Reference(own) => name.as_slice() == own.as_slice(),
        Right::Object(_) => false,
    }
}

// Each choice of values in the four dimensions of the wanted right is granted.
fn covers_object(granted: &Rights, wanted: &RightObject) -> bool
    ensures { result ≡ covers_object granted.now wanted.now }
{
    let Some(actions) = &wanted.actions else {
        return covers_locations(granted, wanted, None);
    };
    for action in actions.as_slice() {
        if !covers_locations(granted, wanted, Some(action)) {
            return false;
        }
    }
    true
}

fn covers_locations(granted: &Rights, wanted: &RightObject, action: Option<&Bytes>) -> bool
    ensures { result ≡ covers_locations granted.now wanted.now (option_map (λ b. b.now) action.entry) }
{
    let Some(locations) = &wanted.locations else {
        return covers_datatypes(granted, wanted, action, None);
    };
    for location in locations.as_slice() {
        if !covers_datatypes(granted, wanted, action, Some(location)) {
            return false;
        }
    }
    true
}

fn covers_datatypes(
    granted: &Rights,
    wanted: &RightObject,
    action: Option<&Bytes>,
    location: Option<&Bytes>,
) -> bool
    ensures { result ≡ covers_datatypes granted.now wanted.now (option_map (λ b. b.now) action.entry) (option_map (λ b. b.now) location.entry) }
{
    let Some(datatypes) = &wanted.datatypes else {
        return covers_privileges(granted, wanted, action, location, None);
    };
    for datatype in datatypes.as_slice() {
        if !covers_privileges(granted, wanted, action, location, Some(datatype)) {
            return false;
        }
    }
    true
}

fn covers_privileges(
    granted: &Rights,
    wanted: &RightObject,
    action: Option<&Bytes>,
    location: Option<&Bytes>,
    datatype: Option<&Bytes>,
) -> bool
    ensures { result ≡ covers_privileges granted.now wanted.now (option_map (λ b. b.now) action.entry) (option_map (λ b. b.now) location.entry)
        (option_map (λ b. b.now) datatype.entry) }
{
    let Some(privileges) = &wanted.privileges else {
        return has_parts(granted, wanted, action, location, datatype, None);
    };
    for privilege in privileges.as_slice() {
        if !has_parts(granted, wanted, action, location, datatype, Some(privilege)) {
            return false;
        }
    }
    true
}

fn has_parts(
    granted: &Rights,
    wanted: &RightObject,
    action: Option<&Bytes>,
    location: Option<&Bytes>,
    datatype: Option<&Bytes>,
    privilege: Option<&Bytes>,
) -> bool
    ensures { result ≡ has_atom granted.now (atom_at wanted.now (option_map (λ b. b.now) action.entry) (option_map (λ b. b.now) location.entry)
        (option_map (λ b. b.now) datatype.entry) (option_map (λ b. b.now) privilege.entry)) }
{
    for right in granted.as_slice() {
        if right_has_parts(right, wanted, action, location, datatype, privilege) {
            return true;
        }
    }
    false
}

#[tactic(auto, using(crate::proofs::Atoms::object_any))]
fn right_has_parts(
    right: &Right,
    wanted: &RightObject,
    action: Option<&Bytes>,
    location: Option<&Bytes>,
    datatype: Option<&Bytes>,
    privilege: Option<&Bytes>,
) -> bool
    ensures { result ≡ list_any (same_atom (atom_at wanted.now (option_map (λ b. b.now) action.entry) (option_map (λ b. b.now) location.entry)
        (option_map (λ b. b.now) datatype.entry) (option_map (λ b. b.now) privilege.entry))) (right_atoms right.now) }
{
    match right {
        Right::Reference(_) => false,
        Right::Object(own) => {
            let own = own.get();
            is_of_kind(wanted, own)
                && is_value(action, &own.actions)
                && is_value(location, &own.locations)
                && is_value(datatype, &own.datatypes)
                && is_value(privilege, &own.privileges)
        }
    }
}

// The rights have one type, one identifier, and the same further members.
pub(crate) fn is_of_kind(wanted: &RightObject, own: &RightObject) -> bool
    ensures { result ≡ (same_text wanted.now.kind own.now.kind && same_option wanted.now.identifier own.now.identifier
        && same_text wanted.now.further own.now.further) }
{
    wanted.kind.as_slice() == own.kind.as_slice()
        && same_option(&wanted.identifier, &own.identifier)
        && wanted.further.as_slice() == own.further.as_slice()
}

fn same_option(a: &Option<Bytes>, b: &Option<Bytes>) -> bool
    ensures { result ≡ same_option a.now b.now }
{
    match (a, b) {
        (None, None) => true,
        (Some(a), Some(b)) => a.as_slice() == b.as_slice(),
        _ => false,
    }
}

#[tactic(auto, using(crate::proofs::Atoms::none_of, crate::proofs::Atoms::some_of))]
pub(crate) fn is_value(value: Option<&Bytes>, dimension: &Option<Texts>) -> bool
    ensures { result ≡ list_any (same_option (option_map (λ b. b.now) value.entry)) (values_of dimension.now) }
{
    match dimension {
        None => value.is_none(),
        Some(texts) => match value {
            None => false,
            Some(text) => has_text(texts, text),
        },
    }
}

fn has_text(texts: &Texts, text: &Bytes) -> bool
    ensures { result ≡ list_any (same_text text.now) texts.now }
{
    for other in texts.as_slice() {
        if text.as_slice() == other.as_slice() {
            return true;
        }
    }
    false
}
