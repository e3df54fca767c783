//! The rights that a resource server serves.
ghost use Rattle.std.specs.Prelude.{◌≡◌, IfOk};
ghost use Rattle.std.specs.List.{list_any};
ghost use Rattle.gnap_model.specs.Common.{same_text};
ghost use Rattle.gnap_model.specs.Rights.{right_name, serves, served_part};

use bytes_and_lists::bytes::Bytes;
use bytes_and_lists::memory::{Duplicate, Mem};
use bytes_and_lists::seq::Seq;
use gnap_model::rights::{Names, Right, Rights};
use std::alloc::Global;

/// The right's reference, or its type, is among the names that the server serves.
pub fn serves(names: &Names, right: &Right) -> bool
    ensures { result ≡ serves names.now right.now }
{
    let name = name_of(right);
    for other in names.as_slice() {
        if name.as_slice() == other.as_slice() {
            return true;
        }
    }
    false
}

fn name_of(right: &Right) -> &Bytes
    ensures { result.now ≡ right_name right.now }
{
    match right {
        Right::Reference(name) => name,
        Right::Object(object) => &object.get().kind,
    }
}

/// The rights that the server with these names serves, in order.
pub fn served_part(alloc: Global, rights: &Rights, names: &Names) -> Result<Rights, Mem>
    ensures { IfOk result (λ r. r ≡ served_part names.now rights.now) }
{
    let mut served = Seq::new(alloc);
    for right in rights.as_slice() {
        if serves(names, right) {
            served.push(right.copy()?)?;
        }
    }
    Ok(served)
}
