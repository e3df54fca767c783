//! Verifying the message of a file.
ghost use Rattle.std.specs.Prelude.{◌≡◌, ◌≢◌, Err, [], ◌++◌, IfOk, IsOk};
ghost use Rattle.outside.specs.Outside.{IsAtEnd, IsRest, Leaves};
ghost use Rattle.message_signature.specs.Faults as signatures;
ghost use Rattle.message_signature.specs.Verified.{verified};
ghost use Rattle.signed_files.specs.MessageFiles.{Gives, CountsReadFault};
ghost use Rattle.signed_files.specs.SignedText.{gnap_tag};
ghost use Rattle.signed_files.specs.Verdicts.{ring_of, key_line, VerifiesMessage, VerifiesFile};

use crate::fault::{FileFault, signature_fault};
use crate::message_file::read_message;
use crate::signing::GNAP_TAG;
use bytes_and_lists::bytes::Bytes;
use bytes_and_lists::memory::Mem;
use bytes_and_lists::message::Message;
use gnap_model::objects::Setup;
use hmac_key::Keyring;
use message_signature::{SigFault, verify};
use outside::device::Source;
use std::alloc::Global;

fn ring_of(alloc: Global, setup: &Setup) -> Result<Keyring, Mem>
    ensures { IfOk result (λ ring. ring ≡ ring_of setup.now) }
{
    let mut ring = Keyring::new(alloc);
    for key in setup.keys.as_slice() {
        ring.add(&key.id, &key.secret)?;
    }
    Ok(ring)
}

fn key_line(alloc: Global, id: &Bytes) -> Result<Bytes, Mem>
    ensures { IfOk result (λ line. line ≡ key_line id.now) }
{
    let mut line = Bytes::from_slice(alloc, b"key ")?;
    line.extend(id.as_slice())?;
    line.push(b'\n')?;
    Ok(line)
}

// The id of the key by which a server with this setup accepts the message.
fn signer_of(alloc: Global, setup: &Setup, now: u64, message: &Message) -> Result<Bytes, SigFault>
    ensures { signatures.Gives (λ id. id) result (verified message.now setup.now.base (ring_of setup.now) now gnap_tag) }
{
    let ring = ring_of(alloc, setup)?;
    let tag = Bytes::from_slice(alloc, GNAP_TAG)?;
    verify(alloc, message, &setup.base, &ring, now, &tag)
}

fn verify_message(
    alloc: Global,
    setup: &Setup,
    now: u64,
    message: &Message,
) -> Result<Bytes, FileFault>
    ensures answer { Gives (VerifiesMessage setup.now now message.now) result }
    ensures unread { result ≢ Err FileFault.ReadFault }
{
    match signer_of(alloc, setup, now, message) {
        Ok(id) => Ok(key_line(alloc, &id)?),
        Err(fault) => Err(signature_fault(fault)),
    }
}

/// `key `, the id of the key that signed the message which the file is, and LF, where a server with this setup accepts the signature (RFC 9421,
/// section 3.2; what it has to cover is RFC 9635, section 7.3.1).
///
/// Nothing of the file was read yet. `now` is in seconds since 1970. The name of the fault is that of the `EdgeFault` where the file is no whole
/// message, `Truncated` where it is empty and `BadHead` where bytes follow the message; then that of the `SigFault`.
pub fn verify_file<S: Source>(
    alloc: Global,
    setup: &Setup,
    now: u64,
    source: &mut S,
) -> Result<Bytes, FileFault>
    requires fresh { (S.told source.old).taken ≡ [] }
    ensures answer { (rest : _) → IsRest (S.told source.new) rest → Gives (VerifiesFile setup.now now ((S.told source.new).taken ++ rest)) result }
    ensures leaves { Leaves (S.told source.new).taken (S.told source.old).left (S.told source.new).left }
    ensures end { IsOk result → IsAtEnd (S.told source.new) }
    ensures counts { CountsReadFault result (S.faults source.old) (S.faults source.new) }
{
    let message = read_message(alloc, source)?;
    verify_message(alloc, setup, now, &message)
}
