//! Why a message is not signed, and why its signature doesn't pass.
ghost use Rattle.std.specs.Prelude.{◌≡◌};
ghost use Rattle.message_signature.specs.declared.fault.BaseFault.TheVariants.{OutOfMemory as NoBaseMemory};
ghost use Rattle.message_signature.specs.declared.fault.SignFault.TheVariants.{OutOfMemory as NoSigningMemory};
ghost use Rattle.message_signature.specs.declared.fault.SigFault.TheVariants.{OutOfMemory};

use bytes_and_lists::memory::Mem;
use thiserror::Error;

/// Why there is no signature base.
#[derive(Clone, Copy, Debug, Error)]
pub enum BaseFault {
    /// A covered component is no String, has parameters, is named again, or isn't there.
    #[error("a covered component is no string, has parameters, is named again or isn't there")]
    Unsupported,
    #[error("memory ran out")]
    OutOfMemory,
}

/// Why a message wasn't signed.
#[derive(Clone, Copy, Debug, Error)]
pub enum SignFault {
    /// It has a `signature-input` or a `signature` field already.
    #[error("the message has a `signature-input` or a `signature` field already")]
    HasSignature,
    #[error("memory ran out")]
    OutOfMemory,
}

/// Why a message's signature doesn't pass: the first of these that is so, in this order. Want of memory has no place in it.
#[derive(Clone, Copy, Debug, Error)]
pub enum SigFault {
    /// There is no `signature-input` or no `signature` field.
    #[error("there is no `signature-input` or no `signature` field")]
    NoField,
    /// One of the two isn't a dictionary.
    #[error("`signature-input` or `signature` isn't a dictionary")]
    NotAField,
    /// No inner list of `signature-input` has the tag.
    #[error("no signature has the tag")]
    NoTag,
    /// More than one has it.
    #[error("more than one signature has the tag")]
    SeveralTags,
    /// A covered component is no String; or `signature` has no byte sequence under the label; or `created` or `expires` is there and no
    /// Integer; or `keyid` or `alg` is there and no String.
    #[error("the signature, one of its parameters or a covered component isn't of its form")]
    Malformed,
    /// A covered component has parameters, is named twice, isn't lower case, or isn't there.
    #[error("a covered component has parameters, is named twice, isn't lower case or isn't there")]
    Unsupported,
    /// `@method` or `@target-uri` isn't covered; or `content-digest`, where there is a body; or `authorization`, where that field is there.
    #[error("a component isn't covered that has to be")]
    Uncovered,
    /// `created` is absent, or more than 300 seconds from now.
    #[error("`created` is absent, or more than 300 seconds from now")]
    Created,
    /// Now is past `expires`.
    #[error("`expires` is past")]
    Expired,
    /// `alg` is there and isn't `hmac-sha256`.
    #[error("`alg` isn't `hmac-sha256`")]
    Alg,
    /// `keyid` is absent, or no key of the ring.
    #[error("`keyid` is absent, or no key is known by it")]
    UnknownKey,
    /// The signature isn't the HMAC of the signature base under that key.
    #[error("the signature isn't the one of this message under this key")]
    Differs,
    /// There is a body and no `content-digest`, or that field doesn't fit the body.
    #[error("`content-digest` is absent, or doesn't fit the body")]
    Digest,
    #[error("memory ran out")]
    OutOfMemory,
}

impl From<Mem> for BaseFault {
    ghost from_gives = { λ _ e. e ≡ NoBaseMemory };

    fn from(_e: Mem) -> BaseFault {
        BaseFault::OutOfMemory
    }
}

impl From<Mem> for SignFault {
    ghost from_gives = { λ _ e. e ≡ NoSigningMemory };

    fn from(_e: Mem) -> SignFault {
        SignFault::OutOfMemory
    }
}

impl From<Mem> for SigFault {
    ghost from_gives = { λ _ e. e ≡ OutOfMemory };

    fn from(_e: Mem) -> SigFault {
        SigFault::OutOfMemory
    }
}
