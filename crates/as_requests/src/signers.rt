//! Who makes a call: whose signature a request has, and the mark of that signature.
ghost use Rattle.std.specs.Prelude.{◌≡◌, IfOk, IfSome, true, false};
ghost use Rattle.as_requests.specs.Signers.{needs_mark, signer_with, signer, SignerFits};

use crate::edge::Edge;
use bytes_and_lists::bytes::Bytes;
use bytes_and_lists::memory::Mem;
use bytes_and_lists::message::Message;
use gnap_objects::CallKind;
use message_signature::{SigFault, SignatureMark, Verifier};
use signed_calls::signed::Mark;
use std::alloc::Global;

/// Who signed a request.
#[derive(Drop)]
pub struct Signer {
    /// The id of the key.
    pub key: Bytes,
    /// The mark of the signature. Where none is needed there is none.
    pub mark: Option<Mark>,
}

/// Whether the signature of such a call has to tell a mark, by which a second use of it is known (RFC 9421, section 7.2.2): of all but introspections,
/// which change nothing.
pub(crate) fn needs_mark(kind: CallKind) -> bool
    ensures { result ≡ needs_mark kind }
{
    !matches!(kind, CallKind::Introspect)
}

// The signer of a call that needs a mark, by the key and the mark of a signature that passed.
fn signer_with_mark(key: Bytes, mark: Option<SignatureMark>) -> Option<Signer>
    ensures { result ≡ signer_with key true mark }
{
    let SignatureMark { nonce, created } = mark?;
    Some(Signer {
        key,
        mark: Some(Mark { nonce, created }),
    })
}

// The signer of a call that needs a mark. None where no signature passes, and where it has no mark.
fn marked_signer(
    alloc: Global,
    verifier: &mut Verifier,
    edge: &Edge,
    message: &Message,
    moment: u64,
) -> Result<Option<Signer>, Mem>
    ensures signer { IfOk result (λ s. s ≡ signer edge.now true message.now moment) }
    ensures fits { IfOk result (λ s. IfSome s SignerFits) }
{
    match verifier.verify_marked(
        alloc,
        message,
        &edge.setup().base,
        edge.ring(),
        moment,
        edge.tag(),
    ) {
        Ok((key, mark)) => Ok(signer_with_mark(key, mark)),
        Err(SigFault::OutOfMemory) => Err(Mem),
        Err(_) => Ok(None),
    }
}

// The signer of a call that needs none. None where no signature passes.
fn unmarked_signer(
    alloc: Global,
    verifier: &mut Verifier,
    edge: &Edge,
    message: &Message,
    moment: u64,
) -> Result<Option<Signer>, Mem>
    ensures signer { IfOk result (λ s. s ≡ signer edge.now false message.now moment) }
    ensures fits { IfOk result (λ s. IfSome s SignerFits) }
{
    match verifier.verify(
        alloc,
        message,
        &edge.setup().base,
        edge.ring(),
        moment,
        edge.tag(),
    ) {
        Ok(key) => Ok(Some(Signer { key, mark: None })),
        Err(SigFault::OutOfMemory) => Err(Mem),
        Err(_) => Ok(None),
    }
}

/// Who signed the message, with a mark where one is needed. None where no signature passes, and where it hasn't the mark that is needed.
pub fn find_signer(
    alloc: Global,
    verifier: &mut Verifier,
    edge: &Edge,
    needed: bool,
    message: &Message,
    moment: u64,
) -> Result<Option<Signer>, Mem>
    ensures signer { IfOk result (λ s. s ≡ signer edge.now needed message.now moment) }
    ensures fits { IfOk result (λ s. IfSome s SignerFits) }
{
    if needed {
        marked_signer(alloc, verifier, edge, message, moment)
    } else {
        unmarked_signer(alloc, verifier, edge, message, moment)
    }
}
