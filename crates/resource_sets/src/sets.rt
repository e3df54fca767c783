//! The machine of resource sets: its calls, its replies, and the notes that it leaves.
use bytes_and_lists::bytes::Bytes;
use gnap_model::objects::{ErrorCode, Setup};
use gnap_model::rights::Rights;
use histories::machine::Machine;

/// What is asked.
#[derive(Drop)]
pub enum SetCall {
    /// A resource server registers a set of rights (RFC 9767, section 3.4).
    Register {
        /// The server's key id.
        server: Bytes,
        /// The rights, in order.
        rights: Rights,
    },
    /// A server or a front asks what a reference means.
    Resolve {
        /// The asker's key id.
        asker: Bytes,
        /// The reference as it was presented.
        reference: Bytes,
    },
    /// What stands in place of a call for which memory was wanting.
    Lapse,
}

/// What is answered.
#[derive(Drop)]
pub enum SetReply {
    /// The set has this reference.
    Registered {
        /// The reference.
        reference: [u8; 32],
    },
    /// The reference means this.
    Resolved {
        /// The key id of the server that registered it.
        server: Bytes,
        /// The rights, in the order in which they were registered.
        rights: Rights,
    },
    /// The call was refused.
    Error {
        /// Why.
        code: ErrorCode,
    },
    /// Memory was wanting.
    Lapsed,
}

/// A set was registered.
#[derive(Drop)]
pub struct SetNote {
    /// 1 for the first set, and one more for each further one.
    pub serial: u64,
    /// The key id of the server that registered it.
    pub server: Bytes,
    /// The rights, in order.
    pub rights: Rights,
    /// Its reference.
    pub reference: [u8; 32],
}

/// The machine. Its rules are the setup.
pub struct Sets;

impl Machine for Sets {
    ghost use Rattle.std.specs.Prelude.{refl};
    ghost use Rattle.resource_sets.specs.Sets.{sets};

    type Rules = Setup;

    type Call = SetCall;

    type Reply = SetReply;

    type Note = SetNote;

    ghost law = { sets };

    ghost lapse_fits = { tt };

    ghost lapse_notes = { λ rules h moment draw. refl };
}
