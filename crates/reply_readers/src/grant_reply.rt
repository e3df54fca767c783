//! What a client is told.
use bytes_and_lists::bytes::Bytes;
use gnap_model::calls::{TokenOut, Tokens};
use gnap_model::objects::ErrorCode;

/// What a pending grant hands out for the interaction (RFC 9635, section 3.3).
#[derive(Drop)]
pub struct Interaction {
    /// Where the user is sent.
    pub redirect: Option<Bytes>,
    /// The code that the user types; where it comes with a URI, the code of that.
    pub user_code: Option<Bytes>,
    /// Where the user types the code.
    pub user_code_uri: Option<Bytes>,
    /// The server's nonce for the interaction hash.
    pub nonce: Option<Bytes>,
    /// The seconds for which the user may decide.
    pub expires_in: u64,
}

/// A reply to a grant request, a continuation or a management call. A `door` is a continuation value.
#[derive(Drop)]
pub enum GrantReply {
    /// The grant is approved (RFC 9635, section 3.2). There may be no token.
    Granted {
        door: Bytes,
        tokens: Tokens,
        /// The user's opaque identifier.
        subject: Option<Bytes>,
    },
    /// The user is asked (RFC 9635, section 3.3).
    Pending {
        door: Bytes,
        interaction: Interaction,
    },
    /// Nothing is new but the continuation value (RFC 9635, section 3.1).
    Continuing {
        door: Bytes,
    },
    /// A token has a successor (RFC 9635, section 6.1).
    Rotated {
        token: TokenOut,
    },
    /// A status without a body: it is done.
    Done,
    /// An error (RFC 9635, section 3.6).
    Refused {
        code: ErrorCode,
    },
}

/// Which replies a request may get. Any of them may get Refused.
#[derive(Clone, Copy)]
pub enum ReplyKind {
    /// A grant request or a modification: Granted or Pending.
    Asking,
    /// A poll or a continuation with a reference: Granted or Continuing.
    Continuing,
    /// A rotation: Rotated.
    Rotating,
    /// A cancellation or a revocation: Done.
    Ending,
}
