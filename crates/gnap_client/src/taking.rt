//! Taking replies.
ghost use Rattle.std.specs.Prelude.{◌≡◌, None, IfOk};
ghost use Rattle.gnap_client.specs.declared.client.ReadReply.TheVariants.{Given};
ghost use Rattle.gnap_client.specs.Received.{finish_of, replaced, rotated, state_done, is_end, after_reply, after_read};
ghost use Rattle.gnap_client.specs.Taking.{reply_kind, read_by, Says, SaysNext, took_of, HasTaken};

use crate::client::{Asked, Client, ClientFault, ReadReply, Received, State, Took};
use bytes_and_lists::bytes::Bytes;
use bytes_and_lists::memory::Mem;
use bytes_and_lists::seq::Seq;
use gnap_model::calls::{TokenOut, Tokens};
use gnap_model::objects::{ErrorCode, Finish};
use http_edge::{ReplyFault, read_reply};
use reply_readers::{GrantReply, ReplyKind, read_grant_reply};
use std::alloc::Global;
use std::mem;

fn reply_kind(asked: &Asked) -> Option<ReplyKind>
    ensures { result ≡ reply_kind asked.now }
{
    match asked {
        Asked::Grant { .. } => Some(ReplyKind::Asking),
        Asked::Continuation => Some(ReplyKind::Continuing),
        Asked::Cancellation => Some(ReplyKind::Ending),
        Asked::Rotation { .. } => Some(ReplyKind::Rotating),
        Asked::Revocation => Some(ReplyKind::Ending),
        Asked::Resource => None,
    }
}

fn finish_of(asked: &mut Asked) -> Option<Finish>
    ensures { result ≡ finish_of asked.old }
{
    match asked {
        Asked::Grant { finish } => finish.take(),
        Asked::Continuation => None,
        Asked::Cancellation => None,
        Asked::Rotation { .. } => None,
        Asked::Revocation => None,
        Asked::Resource => None,
    }
}

fn is_end(code: ErrorCode) -> bool
    ensures { result ≡ is_end code }
{
    match code {
        ErrorCode::InvalidContinuation
        | ErrorCode::UserDenied
        | ErrorCode::UnknownUser
        | ErrorCode::TooManyAttempts => true,
        _ => false,
    }
}

// The tokens with this one at a place. Takes no memory.
fn replaced(tokens: Tokens, i: usize, token: TokenOut) -> Tokens
    ensures { result ≡ replaced tokens i token }
{
    let mut items = tokens.into_vec();
    if i < items.len() {
        items[i] = token;
    }
    Seq::from_vec(items)
}

fn rotated(asked: &Asked, tokens: Tokens, token: TokenOut) -> Tokens
    ensures { result ≡ rotated asked.now tokens token }
{
    match asked {
        Asked::Rotation { token: i } => replaced(tokens, *i, token),
        _ => tokens,
    }
}

fn state_done(asked: &Asked, state: State) -> State
    ensures { result ≡ state_done asked.now state }
{
    match asked {
        Asked::Cancellation => State::Ended,
        Asked::Rotation { .. } => state,
        Asked::Grant { .. } => state,
        Asked::Continuation => state,
        Asked::Revocation => state,
        Asked::Resource => state,
    }
}

impl Received {
    // Keeps what a reply of the authorization server hands out. Takes no memory.
    #[tactic(auto, unfolding(crate::specs::Received::after_reply))]
    fn keep(&mut self, alloc: Global, asked: &mut Asked, reply: GrantReply)
        ensures { self.new ≡ after_reply asked.old reply self.old }
    {
        match reply {
            GrantReply::Granted {
                door,
                tokens,
                subject,
            } => {
                self.state = State::Approved;
                self.door = Some(door);
                self.tokens = tokens;
                self.interaction = None;
                self.subject = subject;
            }
            GrantReply::Pending { door, interaction } => {
                self.state = State::Pending;
                self.door = Some(door);
                self.tokens = Seq::new(alloc);
                self.interaction = Some(interaction);
                self.finish = finish_of(asked);
            }
            GrantReply::Continuing { door } => self.door = Some(door),
            GrantReply::Rotated { token } => {
                let tokens = mem::replace(&mut self.tokens, Seq::new(alloc));
                self.tokens = rotated(asked, tokens, token);
            }
            GrantReply::Done => self.state = state_done(asked, self.state),
            GrantReply::Refused { code } => if is_end(code) {
                self.state = State::Ended;
            },
        }
    }

    // Takes what a reply handed out. Takes no memory.
    fn take(
        &mut self,
        alloc: Global,
        mut asked: Asked,
        reading: ReadReply,
    ) -> Result<Took, ClientFault>
        ensures answer { result ≡ took_of reading }
        ensures leaves { self.new ≡ after_read self.old (asked, reading) }
    {
        match reading {
            ReadReply::Resource { status, body } => Ok(Took::Resource { status, body }),
            ReadReply::Given(reply) => {
                let took = took_of(&reply);
                self.keep(alloc, &mut asked, reply);
                took
            }
        }
    }
}

fn took_of(reply: &GrantReply) -> Result<Took, ClientFault>
    ensures { result ≡ took_of (Given reply.now) }
{
    match reply {
        GrantReply::Granted { .. } => Ok(Took::Granted),
        GrantReply::Pending { .. } => Ok(Took::Pending),
        GrantReply::Continuing { .. } => Ok(Took::Continuing),
        GrantReply::Rotated { .. } => Ok(Took::Rotated),
        GrantReply::Done => Ok(Took::Done),
        GrantReply::Refused { code } => Err(ClientFault::Refused { code: *code }),
    }
}

// What a reply of this status and this body says.
fn read_by(
    alloc: Global,
    kind: Option<ReplyKind>,
    status: u16,
    body: Bytes,
) -> Result<Option<ReadReply>, Mem>
    ensures { IfOk result (λ r. r ≡ read_by kind status body) }
{
    let Some(kind) = kind else {
        return Ok(Some(ReadReply::Resource { status, body }));
    };
    match read_grant_reply(alloc, kind, status, body.as_slice())? {
        Some(reply) => Ok(Some(ReadReply::Given(reply))),
        None => Ok(None),
    }
}

// What the bytes are to the request.
#[tactic(auto, using(crate::proofs::Taken::says_none, crate::proofs::Taken::says_by))]
fn says(alloc: Global, asked: &Asked, bytes: &[u8]) -> Result<Option<ReadReply>, Mem>
    ensures { IfOk result (Says asked.now bytes.now) }
{
    match read_reply(alloc, bytes) {
        Ok((status, body)) => read_by(alloc, reply_kind(asked), status, body),
        Err(ReplyFault::NotAReply) => Ok(None),
        Err(ReplyFault::OutOfMemory) => Err(Mem),
    }
}

impl Client {
    // What the bytes are to the outstanding request.
    fn says_next(&self, bytes: &[u8]) -> Result<Option<ReadReply>, ClientFault>
        ensures { SaysNext self.now bytes.now result }
    {
        match &self.asked {
            Some(asked) => Ok(says(self.alloc, asked, bytes)?),
            None => Err(ClientFault::WrongState {
                state: self.received.state,
            }),
        }
    }

    /// Takes the bytes as the reply to the outstanding request, and keeps what they hand out. An `Err` other than Refused changes nothing.
    #[tactic(auto, using(crate::proofs::Taken::taken_by))]
    pub fn take_reply(&mut self, bytes: &[u8]) -> Result<Took, ClientFault>
        ensures { HasTaken self.old bytes.now self.new result }
    {
        match self.says_next(bytes) {
            Ok(Some(reading)) => match self.asked.take() {
                Some(asked) => self.received.take(self.alloc, asked, reading),
                None => unreachable!(),
            },
            Ok(None) => Err(ClientFault::NotInGrammar),
            Err(fault) => Err(fault),
        }
    }
}
