//! A client, as data.
ghost use Rattle.std.specs.Prelude.{◌≡◌, None, option_map};
ghost use Rattle.gnap_client.specs.Received.{nothing_received};

use crate::config::ClientConfig;
use bytes_and_lists::bytes::Bytes;
use bytes_and_lists::memory::Mem;
use bytes_and_lists::seq::Seq;
use gnap_model::calls::Tokens;
use gnap_model::objects::{ErrorCode, Finish};
use reply_readers::{GrantReply, Interaction};
use std::alloc::Global;
use std::fmt;

/// Where a grant stands, as its client knows it.
#[derive(Clone, Copy, Debug)]
pub enum State {
    /// Nothing was asked for yet.
    Fresh,
    /// The user is asked.
    Pending,
    /// The grant is approved.
    Approved,
    /// The grant is over.
    Ended,
}

/// A request whose reply wasn't taken yet.
#[derive(Drop)]
pub enum Asked {
    /// A grant request or a modification, with the way in which the client wants to be told of the interaction's end.
    Grant { finish: Option<Finish> },
    /// A continuation, with or without an interaction reference.
    Continuation,
    Cancellation,
    /// A rotation of the token at this place.
    Rotation { token: usize },
    Revocation,
    /// A request to a resource server.
    Resource,
}

/// What the replies handed out.
#[derive(Drop)]
pub struct Received {
    pub state: State,
    /// The continuation value.
    pub door: Option<Bytes>,
    pub tokens: Tokens,
    /// Of the last interaction, while no tokens came.
    pub interaction: Option<Interaction>,
    /// The user's opaque identifier.
    pub subject: Option<Bytes>,
    /// The way in which the client is told of the end of the last interaction.
    pub finish: Option<Finish>,
}

/// A client of one grant.
#[derive(Drop)]
pub struct Client {
    pub(crate) alloc: Global,
    pub(crate) config: ClientConfig,
    pub(crate) received: Received,
    pub(crate) asked: Option<Asked>,
}

/// What a reply was.
#[derive(Drop)]
pub enum Took {
    Granted,
    Pending,
    Continuing,
    Rotated,
    Done,
    /// A resource server's, whatever it says.
    Resource { status: u16, body: Bytes },
}

/// A reply as it is read.
#[derive(Drop)]
pub enum ReadReply {
    /// The authorization server's.
    Given(GrantReply),
    /// A resource server's.
    Resource { status: u16, body: Bytes },
}

/// Why a call gave nothing.
#[derive(Drop)]
pub enum ClientFault {
    /// The bytes are no reply to the request.
    NotInGrammar,
    /// The hash isn't the one that the client computes.
    HashDiffers { wanted: Bytes, found: Bytes },
    /// The call isn't made in this state; or, where a reply was to be taken, no request is outstanding.
    WrongState { state: State },
    /// There is no such token: so many are held.
    NoToken { held: usize },
    /// The server refused.
    Refused { code: ErrorCode },
    /// The link failed.
    LinkFault,
    OutOfMemory,
}

impl From<Mem> for ClientFault {
    ghost use Rattle.std.specs.Prelude.{◌≡◌};
    ghost use Rattle.gnap_client.specs.declared.client.ClientFault.TheVariants.{OutOfMemory};

    ghost from_gives = { λ _ e. e ≡ OutOfMemory };

    fn from(_e: Mem) -> ClientFault {
        ClientFault::OutOfMemory
    }
}

impl Received {
    // Takes no memory.
    pub(crate) fn new(alloc: Global) -> Received
        ensures { result ≡ nothing_received }
    {
        Received {
            state: State::Fresh,
            door: None,
            tokens: Seq::new(alloc),
            interaction: None,
            subject: None,
            finish: None,
        }
    }
}

impl Client {
    /// A client that has asked for nothing. Takes no memory.
    pub fn new(alloc: Global, config: ClientConfig) -> Client
        ensures config { result.config ≡ config }
        ensures received { result.received ≡ nothing_received }
        ensures asked { result.asked ≡ None }
    {
        Client {
            alloc,
            config,
            received: Received::new(alloc),
            asked: None,
        }
    }

    pub fn state(&self) -> State
        ensures { result ≡ self.now.received.state }
    {
        self.received.state
    }

    /// The continuation value.
    pub fn door(&self) -> Option<&Bytes>
        ensures { option_map (λ b. b.now) result ≡ self.now.received.door }
    {
        self.received.door.as_ref()
    }

    pub fn tokens(&self) -> &Tokens
        ensures { result.now ≡ self.now.received.tokens }
    {
        &self.received.tokens
    }

    /// What the last interaction was handed, while no tokens came.
    pub fn interaction(&self) -> Option<&Interaction>
        ensures { option_map (λ i. i.now) result ≡ self.now.received.interaction }
    {
        self.received.interaction.as_ref()
    }

    /// The user's opaque identifier.
    pub fn subject(&self) -> Option<&Bytes>
        ensures { option_map (λ b. b.now) result ≡ self.now.received.subject }
    {
        self.received.subject.as_ref()
    }
}

impl fmt::Display for ClientFault {
    fn fmt<W: fmt::Write>(&self, f: &mut fmt::Formatter<W>) -> fmt::Result {
        match self {
            ClientFault::NotInGrammar => f.write_str("the bytes are no reply to the request"),
            ClientFault::HashDiffers { .. } => {
                f.write_str("the hash isn't the one that the client computes")
            }
            ClientFault::WrongState { state } => {
                write!(f, "the call isn't made in the state {state:?}")
            }
            ClientFault::NoToken { held } => {
                write!(f, "there is no such token: {held} are held")
            }
            ClientFault::Refused { code } => write!(f, "the server refused: {}", code.text()),
            ClientFault::LinkFault => f.write_str("the link failed"),
            ClientFault::OutOfMemory => f.write_str("memory ran out"),
        }
    }
}
