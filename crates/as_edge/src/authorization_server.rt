//! The authorization server, as `serving` serves it.
use crate::replies::{http_reply, print_direct};
use as_requests::{Edge, RequestReader, RequestStep, desk_call};
use bytes_and_lists::memory::Mem;
use bytes_and_lists::message::Message;
use gnap_model::calls::Reply;
use grant_machine::Gnap;
use http_serving::{ReadyReply, write_busy};
use outside::device::{Failed, Sink};
use serving::message_step::MessageStep;
use serving::server::Server;
use signed_calls::signed::Signed;
use std::alloc::Global;

/// The authorization server of a setup. Its workers share it, and it keeps nothing of what they do.
#[derive(Drop)]
pub struct AuthorizationServer {
    pub edge: Edge,
}

impl Server for AuthorizationServer {
    ghost use Rattle.gnap_objects.specs.CallsFit.{ReplyFits};
    ghost use Rattle.http_edge.specs.Replies.{reply_bytes};
    ghost use Rattle.as_edge.specs.EdgeFace.{edge_face};
    ghost use Rattle.as_edge.specs.EdgeSessions.{says_all};

    type M = Gnap;

    type Message = Message;

    type Response = ReadyReply;

    type Scratch = RequestReader;

    ghost rules = { λ server. server.edge };

    ghost face = { edge_face };

    ghost text = { λ response. reply_bytes response };

    ghost can_say = { ReplyFits };

    ghost says_all = { says_all };

    fn scratch(&self, alloc: Global) -> RequestReader {
        RequestReader::new(alloc)
    }

    fn step(
        &self,
        alloc: Global,
        reader: &mut RequestReader,
        message: &Message,
        moment: u64,
        last: bool,
    ) -> Result<MessageStep<ReadyReply, Signed>, Mem> {
        match desk_call(alloc, reader, message, &self.edge, moment)? {
            RequestStep::Direct(answer) => {
                let said = print_direct(alloc, self.edge.setup(), answer, last)?;
                Ok(MessageStep::Say(said))
            }
            RequestStep::Ask(call) => Ok(MessageStep::Ask(call)),
        }
    }

    fn respond(&self, alloc: Global, reply: &Reply, last: bool) -> Result<ReadyReply, Mem> {
        http_reply(alloc, self.edge.setup(), reply, last)
    }

    fn write_response<K: Sink>(&self, response: &ReadyReply, out: &mut K) -> Result<(), Failed> {
        response.write(out)
    }

    fn write_busy<K: Sink>(&self, out: &mut K) -> Result<(), Failed> {
        write_busy(out)
    }
}
