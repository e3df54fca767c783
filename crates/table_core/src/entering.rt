//! What the entry of a call has, and what a call comes to before anything changes.
ghost use Rattle.token_manager.specs.Tokens.{AreOfApproved};

use crate::kept_terms::KeptTerms;
use bytes_and_lists::seq::Seq;
use gnap_model::calls::Reply;
use gnap_tables::rows::{GrantRow, KeptRound, TokenRow};
use grant_rules::drawing::Supply;
use grant_states::{Change, GrantTable};
use kept_rights::KeptRights;
use token_manager::TokenTable;

/// What the entry of a call has: both tables, the number of the next grant, and what it draws on.
#[derive(Clone, Copy)]
pub struct Entering<'a> {
    /// The rows of grants.
    pub grants: &'a GrantTable,
    /// The rows of tokens.
    pub tokens: &'a TokenTable,
    /// The number of the next grant.
    pub next: u64,
    /// What the entry draws on.
    pub supply: Supply<'a>,
    pub ghost approved: { AreOfApproved grants.now.rows tokens.now.rows },
}

/// Rows of tokens that are to be issued.
pub type NewTokens = Seq<Box<TokenRow>>;

/// A grant goes on with a new continuation value.
#[derive(Drop)]
pub struct Renewal {
    /// The grant's number.
    pub number: u64,
    /// The tokens that it had are retired.
    pub retires: bool,
    /// New terms.
    pub terms: Option<KeptTerms>,
    /// It is approved, and the user granted these rights so far.
    pub consent: Option<KeptRights>,
    /// The continuation value.
    pub door: [u8; 32],
    /// The serial of that value.
    pub serial: u64,
    /// The first moment at which a poll may present it.
    pub earliest: u64,
    /// New tokens.
    pub tokens: NewTokens,
}

/// A change of both tables, with the memory that it takes.
#[derive(Drop)]
pub enum TableChange {
    /// No change.
    Nothing,
    /// A new grant.
    Open {
        /// Its row.
        row: Box<GrantRow>,
        /// The serial of its continuation value.
        serial: u64,
        /// Its tokens.
        tokens: NewTokens,
    },
    /// A grant ends.
    End {
        /// Its number.
        number: u64,
    },
    /// A change of the row of a grant, and nothing else.
    Alter {
        /// The grant's number.
        number: u64,
        /// The change.
        change: Change,
    },
    /// A grant goes on with a new continuation value.
    Renew(Renewal),
    /// A grant with new terms is pending in a new round, and the tokens that it had are retired.
    Pend {
        /// The terms.
        terms: KeptTerms,
        /// The round.
        round: KeptRound,
        /// The continuation value.
        door: [u8; 32],
        /// The serial of that value.
        serial: u64,
        /// The first moment at which a poll may present it.
        earliest: u64,
    },
}

/// What a call comes to.
#[derive(Drop)]
pub struct Plan {
    /// The reply.
    pub reply: Reply,
    /// How many values are drawn.
    pub drawn: u64,
    /// What is to be done with the tables.
    pub change: TableChange,
}
