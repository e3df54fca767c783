//! The one message that a file is.
ghost use Rattle.std.specs.Prelude.{◌≡◌, [], ◌++◌, IsOk};
ghost use Rattle.outside.specs.Outside.{HasCause, HasRead, IsAtEnd, IsRest, Leaves};
ghost use Rattle.signed_files.specs.MessageFiles.{GivesMessage, CountsReadFault, HasMore};

use crate::fault::{FileFault, edge_fault};
use bytes_and_lists::message::Message;
use http_edge::laws::{message_stays, refusal_stays};
use http_edge::{Held, next_message};
use outside::device::{Failed, Source};
use std::alloc::Global;

// Whether the source has more.
fn has_more<S: Source>(source: &mut S) -> Result<bool, Failed>
    ensures told { HasMore (S.told source.old) (S.told source.new) result }
    ensures cause { HasCause (S.faults source.old) (S.faults source.new) result }
{
    let mut byte = [0];
    match source.read(&mut byte) {
        Ok(0) => Ok(false),
        Ok(_) => Ok(true),
        Err(Failed) => Err(Failed),
    }
}

/// The message that a file is of which nothing was read yet. It is read to its end, or up to the fault.
pub(crate) fn read_message<S: Source>(alloc: Global, source: &mut S) -> Result<Message, FileFault>
    requires fresh { (S.told source.old).taken ≡ [] }
    ensures message { (rest : _) → IsRest (S.told source.new) rest → GivesMessage ((S.told source.new).taken ++ rest) result }
    ensures leaves { Leaves (S.told source.new).taken (S.told source.old).left (S.told source.new).left }
    ensures end { IsOk result → IsAtEnd (S.told source.new) }
    ensures counts { CountsReadFault result (S.faults source.old) (S.faults source.new) }
{
    message_stays();
    refusal_stays();
    let mut held = Held::new(alloc);
    match next_message(alloc, source, &mut held) {
        Err(fault) => Err(edge_fault(fault)),
        Ok(None) => Err(FileFault::Refused(b"Truncated")),
        Ok(Some(message)) => {
            if !held.is_empty() {
                return Err(FileFault::Refused(b"BadHead"));
            }
            match has_more(source) {
                Ok(false) => Ok(message),
                Ok(true) => Err(FileFault::Refused(b"BadHead")),
                Err(Failed) => Err(FileFault::ReadFault),
            }
        }
    }
}
