//! The server of resource sets, as `serving` serves it.
use crate::set_replies::{print_answer, set_reply};
use crate::set_requests::{SetStep, set_call};
use as_requests::{Edge, RequestReader};
use bytes_and_lists::memory::Mem;
use bytes_and_lists::message::Message;
use http_serving::{HttpFront, ReadyReply, write_busy};
use outside::device::{Failed, Sink};
use resource_sets::set_table::SetTable;
use resource_sets::sets::{SetCall, SetReply, Sets};
use serving::message_step::MessageStep;
use serving::server::Server;
use serving::worker::Worker;
use std::alloc::Global;

/// The server of the resource sets of a setup. Its workers share it, and it keeps nothing of what they do.
#[derive(Drop)]
pub struct SetServer {
    pub edge: Edge,
}

/// Serves the connections of one gear at a shared table of sets.
pub type SetWorker<'a, G, R> = Worker<'a, SetTable, HttpFront<SetServer>, G, R>;

impl Server for SetServer {
    ghost use Rattle.http_edge.specs.Replies.{reply_bytes};
    ghost use Rattle.resource_sets.specs.SetsFit.{SetReplyFits};
    ghost use Rattle.rs_facing.specs.SetFace.{set_face};
    ghost use Rattle.rs_facing.specs.SetSessions.{says_all};

    type M = Sets;

    type Message = Message;

    type Response = ReadyReply;

    type Scratch = RequestReader;

    ghost rules = { λ server. server.edge };

    ghost face = { set_face };

    ghost text = { λ response. reply_bytes response };

    ghost can_say = { SetReplyFits };

    ghost says_all = { says_all };

    fn scratch(&self, alloc: Global) -> RequestReader {
        RequestReader::new(alloc)
    }

    fn step(
        &self,
        alloc: Global,
        reader: &mut RequestReader,
        message: &Message,
        moment: u64,
        last: bool,
    ) -> Result<MessageStep<ReadyReply, SetCall>, Mem> {
        match set_call(alloc, reader, message, &self.edge, moment)? {
            SetStep::Direct(answer) => {
                let said = print_answer(alloc, self.edge.setup(), answer, last)?;
                Ok(MessageStep::Say(said))
            }
            SetStep::Ask(call) => Ok(MessageStep::Ask(call)),
        }
    }

    fn respond(&self, alloc: Global, reply: &SetReply, last: bool) -> Result<ReadyReply, Mem> {
        set_reply(alloc, self.edge.setup(), reply, last)
    }

    fn write_response<K: Sink>(&self, response: &ReadyReply, out: &mut K) -> Result<(), Failed> {
        response.write(out)
    }

    fn write_busy<K: Sink>(&self, out: &mut K) -> Result<(), Failed> {
        write_busy(out)
    }
}
