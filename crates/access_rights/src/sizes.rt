//! How many bytes the compact JSON text of rights has, counted without writing it. Each count is 2^64 - 1 where it is greater.
ghost use Rattle.std.specs.Prelude.{◌≡◌, length, map, option_map};
ghost use Rattle.std.specs.List.{AllByRecursion};
ghost use Rattle.serde_json.specs.Data.{string, object};
ghost use Rattle.serde_json.specs.Read.{read};
ghost use Rattle.serde_json.specs.Written.{compact_text};
ghost use Rattle.json_objects.specs.Objects.{items};
ghost use Rattle.json_objects.specs.Sizes.{capped, items_size, members_size, field_size};
ghost use Rattle.access_rights.specs.Fits.{IsFurther, FitsObject, Fits};
ghost use Rattle.access_rights.specs.Printing.{members_read, right_members, right_data};

use bytes_and_lists::bytes::Bytes;
use gnap_model::rights::{Right, RightObject, Rights};
use json_objects::sizes::{
    enclosed_size, text_member_size, text_size, texts_member_size, total_size,
};

// The further members as they stand in the right's object.
fn further_size(text: &Bytes) -> usize
    requires { IsFurther text.now }
    ensures { result ≡ capped (members_size (members_read (read text.now))) }
{
    if text.len() == 2 { 0 } else { text.len() - 1 }
}

fn optional_member_size(name: &str, text: &Option<Bytes>) -> usize
    ensures { result ≡ capped (field_size name.now (option_map string text.now)) }
{
    match text {
        None => 0,
        Some(text) => text_member_size(name, text.as_slice()),
    }
}

fn object_size(right: &RightObject) -> usize
    requires { FitsObject right.now }
    ensures { result ≡ capped (length (compact_text (object (right_members right.now)))) }
{
    enclosed_size(total_size(&[
        text_member_size("type", right.kind.as_slice()),
        texts_member_size("actions", &right.actions),
        texts_member_size("locations", &right.locations),
        texts_member_size("datatypes", &right.datatypes),
        texts_member_size("privileges", &right.privileges),
        optional_member_size("identifier", &right.identifier),
        further_size(&right.further),
    ]))
}

/// The size of the right as JSON.
pub fn right_size(right: &Right) -> usize
    requires { Fits right.now }
    ensures { result ≡ capped (length (compact_text (right_data right.now))) }
{
    match right {
        Right::Reference(text) => text_size(text.as_slice()),
        Right::Object(right) => object_size(right.get()),
    }
}

/// The size of the rights as they stand in a JSON array, each with the comma or bracket after it.
pub fn listed_size(rights: &Rights) -> usize
    requires { AllByRecursion Fits rights.now }
    ensures { result ≡ capped (items_size (items (map right_data rights.now))) }
{
    let mut size = 0usize;
    for right in rights.as_slice() {
        size = size.saturating_add(right_size(right)).saturating_add(1);
    }
    size
}
