//! Requests as the messages of a connection.
use crate::requests::{read_request, write_busy, write_fault};
use bytes_and_lists::message::Message;
use http_edge::{EdgeFault, Held};
use outside::device::{Failed, Sink, Source};
use serving::ends::{ConnectionEnd, NoMessage};
use serving::message_reader::MessageReader;
use serving::server_front::ServerFront;
use std::alloc::Global;

/// Reads requests off connections. What is no request is refused by the reply to its fault, and the fixed 503 says that memory ran out.
#[derive(Drop)]
pub struct HttpReader;

/// Serves connections by a server whose messages are requests.
pub type HttpFront<V> = ServerFront<HttpReader, V>;

/// How a connection of requests ended.
pub type Ended = ConnectionEnd<EdgeFault>;

impl MessageReader for HttpReader {
    ghost use Rattle.http_serving.specs.EdgeWire.{edge_wire, stays};

    type Message = Message;

    type Fault = EdgeFault;

    type Held = Held;

    ghost wire = { edge_wire };

    ghost held_bytes = { λ held. held };

    ghost stays = { stays };

    fn hold_none(&self, alloc: Global) -> Held {
        Held::new(alloc)
    }

    fn next_message<S: Source>(
        &self,
        alloc: Global,
        source: &mut S,
        held: &mut Held,
    ) -> Result<Option<Message>, NoMessage<EdgeFault>> {
        read_request(alloc, source, held)
    }

    fn is_last(&self, message: &Message) -> bool {
        message.last
    }

    fn write_starved<K: Sink>(&self, out: &mut K) -> Result<(), Failed> {
        write_busy(out)
    }

    fn write_refusal<K: Sink>(&self, fault: &EdgeFault, out: &mut K) -> Result<(), Failed> {
        write_fault(*fault, out)
    }
}
