//! Requests of a connection, and what is written where there is none.
ghost use Rattle.std.specs.Prelude.{◌≡◌};
ghost use Rattle.outside.specs.Outside.{HasSent, HasCause};
ghost use Rattle.http_edge.specs.Replies.{busy_reply, reply_bytes, MayWrite};
ghost use Rattle.serving.specs.Reading.{ReadsMessage, HasReadCause};
ghost use Rattle.http_serving.specs.EdgeWire.{edge_wire, no_message};

use bytes_and_lists::message::Message;
use http_edge::{EdgeFault, Held, HttpReply, WriteFault, fault_reply, next_message, write_reply};
use outside::device::{Failed, Sink, Source};
use serving::ends::NoMessage;
use std::alloc::Global;

fn no_message(fault: EdgeFault) -> NoMessage<EdgeFault>
    ensures { result ≡ no_message fault }
{
    match fault {
        EdgeFault::BadHead | EdgeFault::TooLarge | EdgeFault::Coded => NoMessage::Refused(fault),
        EdgeFault::Truncated => NoMessage::Truncated,
        EdgeFault::ReadFault => NoMessage::Failed,
        EdgeFault::OutOfMemory => NoMessage::OutOfMemory,
    }
}

/// Reads the next request of a connection. What was read and isn't of it is held.
pub(crate) fn read_request<S: Source>(
    alloc: Global,
    source: &mut S,
    held: &mut Held,
) -> Result<Option<Message>, NoMessage<EdgeFault>>
    ensures reads { ReadsMessage edge_wire held.old held.new (S.told source.old) (S.told source.new) result }
    ensures cause { HasReadCause (S.faults source.old) (S.faults source.new) result }
{
    match next_message(alloc, source, held) {
        Ok(found) => Ok(found),
        Err(fault) => Err(no_message(fault)),
    }
}

/// Writes a reply. Takes no memory. At an `Err` a beginning of its bytes went out.
pub(crate) fn write_whole<K: Sink>(out: &mut K, reply: &HttpReply) -> Result<(), Failed>
    requires { MayWrite reply.now }
    ensures sent { HasSent (reply_bytes reply.now) (K.told out.old) (K.told out.new) result }
    ensures cause { HasCause (K.faults out.old) (K.faults out.new) result }
{
    match write_reply(out, reply) {
        Ok(()) => Ok(()),
        Err(WriteFault) => Err(Failed),
    }
}

/// Writes the fixed reply to bytes that begin no request, for a reason that has one. Takes no memory. At an `Err` a beginning of its bytes went out.
pub(crate) fn write_fault<K: Sink>(fault: EdgeFault, out: &mut K) -> Result<(), Failed>
    ensures sent { HasSent (edge_wire.refusal fault) (K.told out.old) (K.told out.new) result }
    ensures cause { HasCause (K.faults out.old) (K.faults out.new) result }
{
    match fault_reply(fault) {
        Some(reply) => write_whole(out, &reply),
        None => Ok(()),
    }
}

/// Writes the fixed 503, which says that memory ran out. Takes no memory. At an `Err` a beginning of its bytes went out.
pub fn write_busy<K: Sink>(out: &mut K) -> Result<(), Failed>
    ensures sent { HasSent (reply_bytes busy_reply) (K.told out.old) (K.told out.new) result }
    ensures cause { HasCause (K.faults out.old) (K.faults out.new) result }
{
    write_whole(out, &HttpReply::busy())
}
