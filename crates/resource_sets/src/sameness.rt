//! Whether two lists of rights are equal.
ghost use Rattle.std.specs.Prelude.{◌≡◌};
ghost use Rattle.std.specs.Bool.{Decides};

use bytes_and_lists::bytes::Bytes;
use bytes_and_lists::seq::Seq;
use gnap_model::rights::{Right, RightObject};

/// What can be compared with another one.
pub(crate) trait Same {
    /// Both are equal.
    fn is_same(&self, other: &Self) -> bool
        ensures { Decides result (self.now ≡ other.now) };
}

impl Same for Bytes {
    fn is_same(&self, other: &Bytes) -> bool {
        self.as_slice() == other.as_slice()
    }
}

impl<T: Same> Same for Option<T> {
    fn is_same(&self, other: &Option<T>) -> bool {
        match (self, other) {
            (Some(one), Some(two)) => one.is_same(two),
            (None, None) => true,
            _ => false,
        }
    }
}

impl<T: Same> Same for Seq<T> {
    fn is_same(&self, other: &Seq<T>) -> bool {
        if self.len() != other.len() {
            return false;
        }
        for (one, two) in self.as_slice().iter().zip(other.as_slice()) {
            if !one.is_same(two) {
                return false;
            }
        }
        true
    }
}

impl Same for RightObject {
    fn is_same(&self, other: &RightObject) -> bool {
        self.kind.is_same(&other.kind)
            && self.actions.is_same(&other.actions)
            && self.locations.is_same(&other.locations)
            && self.datatypes.is_same(&other.datatypes)
            && self.privileges.is_same(&other.privileges)
            && self.identifier.is_same(&other.identifier)
            && self.further.is_same(&other.further)
    }
}

impl Same for Right {
    fn is_same(&self, other: &Right) -> bool {
        match (self, other) {
            (Right::Reference(one), Right::Reference(two)) => one.is_same(two),
            (Right::Object(one), Right::Object(two)) => one.get().is_same(two.get()),
            _ => false,
        }
    }
}
