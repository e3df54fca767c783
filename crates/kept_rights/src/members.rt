//! The written forms of rights and asks, member by member.
use crate::form::Form;
use crate::lengths::byte_of;
use bytes_and_lists::bytes::Bytes;
use bytes_and_lists::memory::Mem;
use gnap_model::boxed::Boxed;
use gnap_model::objects::Ask;
use gnap_model::rights::{Right, RightObject, Rights, Texts};
use std::alloc::Global;

impl Form for bool {
    ghost use Rattle.kept_rights.specs.Written.{written_bool};
    ghost use Rattle.kept_rights.specs.Reading.{bool_at};

    ghost written = { written_bool };

    ghost read_at = { bool_at };

    fn put(&self, bytes: &mut Bytes) -> Result<(), Mem> {
        match *self {
            true => bytes.push(1),
            false => bytes.push(0),
        }
    }

    #[tactic(auto, unfolding(crate::specs::Reading::bool_at))]
    fn read(alloc: Global, bytes: &[u8]) -> Result<(bool, &[u8]), Mem> {
        let (flag, rest) = byte_of(bytes);
        Ok((flag != 0, rest))
    }
}

// The members of a right in full, in order.
type ObjectMembers = (
    (Bytes, (Option<Texts>, Option<Texts>)),
    ((Option<Texts>, Option<Texts>), (Option<Bytes>, Bytes)),
);

impl Form for RightObject {
    ghost use Rattle.kept_rights.specs.Written.{written_object};
    ghost use Rattle.kept_rights.specs.Reading.{object_at};

    ghost written = { written_object };

    ghost read_at = { object_at };

    #[tactic(auto, unfolding(crate::specs::Written::written_object))]
    fn put(&self, bytes: &mut Bytes) -> Result<(), Mem> {
        self.kind.put(bytes)?;
        self.actions.put(bytes)?;
        self.locations.put(bytes)?;
        self.datatypes.put(bytes)?;
        self.privileges.put(bytes)?;
        self.identifier.put(bytes)?;
        self.further.put(bytes)
    }

    #[tactic(auto, unfolding(crate::specs::Reading::object_at))]
    fn read(alloc: Global, bytes: &[u8]) -> Result<(RightObject, &[u8]), Mem> {
        let (members, bytes) = ObjectMembers::read(alloc, bytes)?;
        let ((kind, (actions, locations)), ((datatypes, privileges), (identifier, further))) =
            members;
        let object = RightObject {
            kind,
            actions,
            locations,
            datatypes,
            privileges,
            identifier,
            further,
        };
        Ok((object, bytes))
    }
}

impl Form for Right {
    ghost use Rattle.kept_rights.specs.Written.{written_right};
    ghost use Rattle.kept_rights.specs.Reading.{right_at};

    ghost written = { written_right };

    ghost read_at = { right_at };

    fn put(&self, bytes: &mut Bytes) -> Result<(), Mem> {
        match self {
            Right::Reference(name) => {
                bytes.push(0)?;
                name.put(bytes)
            }
            Right::Object(object) => {
                bytes.push(1)?;
                object.get().put(bytes)
            }
        }
    }

    #[tactic(auto, unfolding(crate::specs::Reading::right_at))]
    fn read(alloc: Global, bytes: &[u8]) -> Result<(Right, &[u8]), Mem> {
        let (flag, rest) = byte_of(bytes);
        if flag == 0 {
            let (name, rest) = Bytes::read(alloc, rest)?;
            return Ok((Right::Reference(name), rest));
        }
        let (object, rest) = RightObject::read(alloc, rest)?;
        Ok((Right::Object(Boxed::new(alloc, object)?), rest))
    }
}

impl Form for Ask {
    ghost use Rattle.kept_rights.specs.Written.{written_ask};
    ghost use Rattle.kept_rights.specs.Reading.{ask_at};

    ghost written = { written_ask };

    ghost read_at = { ask_at };

    #[tactic(auto, unfolding(crate::specs::Written::written_ask))]
    fn put(&self, bytes: &mut Bytes) -> Result<(), Mem> {
        self.label.put(bytes)?;
        self.rights.put(bytes)?;
        self.bearer.put(bytes)
    }

    #[tactic(auto, unfolding(crate::specs::Reading::ask_at))]
    fn read(alloc: Global, bytes: &[u8]) -> Result<(Ask, &[u8]), Mem> {
        let ((label, (rights, bearer)), bytes) = <(Option<Bytes>, (Rights, bool))>::read(
            alloc, bytes,
        )?;
        let ask = Ask {
            label,
            rights,
            bearer,
        };
        Ok((ask, bytes))
    }
}
