//! Replies that may be written.
ghost use Rattle.std.specs.Prelude.{◌≡◌, true, None};
ghost use Rattle.std.specs.List.{list_all};
ghost use Rattle.outside.specs.Outside.{HasSent, HasCause};
ghost use Rattle.http_edge.specs.declared.reply.Extra.TheVariants.{Allow};
ghost use Rattle.http_edge.specs.Replies.{is_method_byte, is_used, plain_reply, reply_bytes};

use crate::requests::write_whole;
use bytes_and_lists::bytes::Bytes;
use http_edge::HttpReply;
use outside::device::{Failed, Sink};
use std::marker::Model;

/// A reply that may be written. Contracts see the reply.
#[derive(Drop)]
pub struct ReadyReply {
    reply: HttpReply,
}

impl Model for ReadyReply {
    ghost use Rattle.http_edge.specs.declared.reply.HttpReply.{HttpReply};
    ghost use Rattle.http_edge.specs.Replies.{MayWrite};

    ghost Value = { HttpReply };

    ghost view = { λ ready. ready.reply };

    ghost invariant = { λ ready. MayWrite ready.reply };
}

impl ReadyReply {
    /// A reply of this status, with the challenge `GNAP` where that is 401 (RFC 9635, section 7.3). `last` says that the connection closes behind it.
    pub fn new(status: u16, body: Option<Bytes>, last: bool) -> ReadyReply
        requires status { is_used status ≡ true }
        requires no_content { status ≡ 204 → body ≡ None }
        ensures { result ≡ plain_reply status body last }
    {
        ReadyReply {
            reply: HttpReply::new(status, body, last),
        }
    }

    /// 405, with the methods that are allowed (RFC 9110, section 15.5.6). `last` says that the connection closes behind it.
    pub fn not_allowed(methods: Bytes, last: bool) -> ReadyReply
        requires { list_all is_method_byte methods ≡ true }
        ensures { result ≡ record { status = 405; extra = Allow methods; body = None; last = last } }
    {
        ReadyReply {
            reply: HttpReply::not_allowed(methods, last),
        }
    }

    /// Writes it. Takes no memory. At an `Err` a beginning of its bytes went out.
    pub fn write<K: Sink>(&self, out: &mut K) -> Result<(), Failed>
        ensures sent { HasSent (reply_bytes self.now) (K.told out.old) (K.told out.new) result }
        ensures cause { HasCause (K.faults out.old) (K.faults out.new) result }
    {
        write_whole(out, &self.reply)
    }
}
