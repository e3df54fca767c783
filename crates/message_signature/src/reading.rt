//! The signature of a message with a tag: read by itself where the members of the two fields settle it, and else with all of them.
ghost use Rattle.std.specs.Prelude.{◌≡◌, ℕ, List, Ok, IfOk, IfErr};
ghost use Rattle.std.specs.Option.{ForSome};
ghost use Rattle.message_signature.specs.Faults.{Fails};
ghost use Rattle.message_signature.specs.ListShapes.{IsKnownOf};
ghost use Rattle.message_signature.specs.Lone.{IsRead, tagged_read};
ghost use Rattle.message_signature.specs.Verified.{tagged};

use crate::fault::SigFault;
use crate::list_shape::{KnownParts, ShapedList};
use crate::lone::{LoneList, LoneSignature, lone_signature};
use crate::tags::{SignatureFields, signature_fields, tagged};
use bytes_and_lists::bytes::Bytes;
use bytes_and_lists::message::Message;
use std::alloc::Global;
use structured_fields::InnerList;

/// What was read of the two fields of a message to find the signature with a tag.
#[derive(Drop)]
pub(crate) enum ReadSignature {
    /// That signature, up to the first covered component that has parameters.
    Alone(LoneSignature),
    /// All members, among which it is.
    Among(SignatureFields),
}

/// The list that is kept for the next message.
pub(crate) fn kept_list(read: ReadSignature) -> Option<ShapedList> {
    let ReadSignature::Alone(LoneSignature { held, bytes: _ }) = read else {
        return None;
    };
    match held {
        LoneList::Shaped(one) => Some(one),
        LoneList::Cut(_) => None,
    }
}

/// What is read of the two fields of a message to find the signature with the tag. The list that is known is that of an earlier one.
///
/// Errors: those of `signature_fields`, and those of `tagged` where that signature is read by itself. OutOfMemory may come in place of any answer.
pub(crate) fn read_signature(
    alloc: Global,
    known: Option<ShapedList>,
    message: &Message,
    tag: &[u8],
) -> Result<ReadSignature, SigFault>
    ensures ok { IfOk result (IsRead (tagged message.now tag.now) tag.now) }
    ensures err { IfErr result (λ e. Fails e (tagged message.now tag.now)) }
{
    let lone = lone_signature(alloc, known, message, tag)?;
    match lone {
        Some(one) => Ok(ReadSignature::Alone(one)),
        None => Ok(ReadSignature::Among(signature_fields(alloc, message)?)),
    }
}

/// A signature that was found, as far as it is held.
#[derive(Drop)]
pub(crate) struct FoundSignature<'a> {
    /// The covered components, with the parameters.
    pub list: &'a InnerList,
    /// What is known of the list.
    pub known: Option<KnownParts<'a>>,
    pub bytes: &'a Bytes,
    ghost known_of: { ForSome known (λ known. IsKnownOf list.now known.template.now known.shown.now known.covering) },
}

/// The signature with the tag.
///
/// Errors: those of `tagged`.
pub(crate) fn found_signature<'a>(
    read: &'a ReadSignature,
    tag: &[u8],
) -> Result<FoundSignature<'a>, SigFault>
    ensures ok { (label : List ℕ) → IfOk result (λ found. (under : List ℕ)
        × (tagged_read label tag.now read.now ≡ Ok (record { label = under; list = found.list.now; bytes = found.bytes.now }))) }
    ensures err { (label : List ℕ) → IfErr result (λ e. Fails e (tagged_read label tag.now read.now)) }
{
    match read {
        ReadSignature::Alone(one) => Ok(FoundSignature {
            list: one.held.list(),
            known: one.held.known(),
            bytes: &one.bytes,
        }),
        ReadSignature::Among(fields) => {
            let one = tagged(fields, tag)?;
            Ok(FoundSignature {
                list: one.list,
                known: None,
                bytes: one.bytes,
            })
        }
    }
}
