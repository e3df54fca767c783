//! The tokens of a grant, as they are issued and handed out (RFC 9635, section 3.2).
ghost use Rattle.std.specs.Prelude.{◌≡◌, ◌≤◌, ◌<◌, ◌*◌, [], ◌∷◌, ◌++◌, length, map, IfOk, OnOk};
ghost use Rattle.gnap_model.specs.Actions.{token_for, tokens_for, token_out as token_shown, drawn_value};
ghost use Rattle.gnap_model.specs.declared.calls.Reply.TheVariants.{Granted};
ghost use Rattle.gnap_tables.specs.RowSearches.{opening_of};
ghost use Rattle.gnap_tables.specs.Tables.{new_token};
ghost use Rattle.table_core.specs.Entries.{supply};
ghost use Rattle.table_core.specs.Plans.{rows_in, GrantsOn};

use crate::entering::{Entering, NewTokens, Plan, Renewal, TableChange};
use crate::kept_terms::KeptTerms;
use crate::stored::stored_token;
use bytes_and_lists::bytes::Bytes;
use bytes_and_lists::memory::{Duplicate, Mem};
use bytes_and_lists::seq::Seq;
use gnap_model::calls::{Reply, TokenOut, Tokens};
use gnap_model::notes::TokenNote;
use gnap_model::objects::Ask;
use gnap_tables::rows::{GrantRow, TokenRow};
use grant_rules::limits::WAIT;
use grant_rules::tokens::token_out;
use kept_rights::KeptRights;
use std::alloc::Global;

/// A new token, as its row and as it is handed out.
#[derive(Drop)]
pub struct IssuedToken {
    /// Its row.
    pub row: TokenRow,
    /// What the client is told of it.
    pub told: TokenOut,
}

/// The token, handed out at this moment.
pub fn issued(alloc: Global, token: TokenNote, now: u64) -> Result<IssuedToken, Mem>
    ensures row { IfOk result (λ issued. issued.row ≡ new_token token) }
    ensures told { IfOk result (λ issued. issued.told ≡ token_shown now token) }
{
    let told = token_out(&token, now)?;
    Ok(IssuedToken {
        row: stored_token(alloc, token)?,
        told,
    })
}

/// New tokens of a grant, as rows and as they are handed out.
#[derive(Drop)]
pub struct IssuedTokens {
    /// Their rows.
    pub rows: NewTokens,
    /// What the client is told of them.
    pub told: Tokens,
}

// The token for an ask.
fn token(entering: &Entering, row: &GrantRow, ask: &Ask, index: usize) -> Result<TokenNote, Mem>
    requires { index < 23 }
    ensures { IfOk result (λ token. token ≡ token_for (supply entering.now) (opening_of row.now) ask.now index) }
{
    let label = ask.label.copy()?;
    let rights = ask.rights.copy()?;
    entering.supply.token(
        row.number, &row.key, row.end, label, rights, ask.bearer, index,
    )
}

impl IssuedTokens {
    // One more token, for an ask. An `Err` may leave a part of it there.
    fn push(
        &mut self,
        alloc: Global,
        entering: &Entering,
        row: &GrantRow,
        ask: &Ask,
        index: usize,
    ) -> Result<(), Mem>
        requires { index < 23 }
        ensures rows { OnOk result (rows_in self.new.rows
            ≡ rows_in self.old.rows ++ new_token (token_for (supply entering.now) (opening_of row.now) ask.now index) ∷ []) }
        ensures told { OnOk result (self.new.told
            ≡ self.old.told ++ token_shown entering.now.supply.moment (token_for (supply entering.now) (opening_of row.now) ask.now index) ∷ []) }
    {
        let token = token(entering, row, ask, index)?;
        let issued = issued(alloc, token, entering.supply.moment)?;
        self.told.push(issued.told)?;
        self.rows.push(Box::new(alloc, issued.row)?)
    }
}

/// A token for each ask, the values in turn, for the grant of the row.
pub fn issue(
    alloc: Global,
    entering: &Entering,
    row: &GrantRow,
    asks: &[Ask],
) -> Result<IssuedTokens, Mem>
    requires { length asks.now ≤ 8 }
    ensures rows { IfOk result (λ issue. rows_in issue.rows ≡ map new_token (tokens_for (supply entering.now) (opening_of row.now) asks.now 0)) }
    ensures told { IfOk result (λ issue. issue.told
        ≡ map (token_shown entering.now.supply.moment) (tokens_for (supply entering.now) (opening_of row.now) asks.now 0)) }
{
    let mut tokens = IssuedTokens {
        rows: Seq::new(alloc),
        told: Seq::new(alloc),
    };
    let mut index = 0;
    for ask in asks {
        tokens.push(alloc, entering, row, ask, index)?;
        index += 2;
    }
    Ok(tokens)
}

/// What comes of asks that are granted.
#[derive(Drop)]
pub struct Granting {
    /// The reply.
    pub reply: Reply,
    /// The rows of the tokens.
    pub tokens: NewTokens,
}

/// The asks are granted to the grant of the row: their tokens, and the new continuation value after them (RFC 9635, section 3.2).
pub fn grant(
    alloc: Global,
    entering: &Entering,
    row: &GrantRow,
    asks: &[Ask],
    single: bool,
    subject: Option<Bytes>,
    instance: Option<Bytes>,
) -> Result<Granting, Mem>
    requires { length asks.now ≤ 8 }
    ensures reply { IfOk result (λ granting. granting.reply ≡ Granted (drawn_value (supply entering.now) (2 * length asks.now))
        (map (token_shown entering.now.supply.moment) (tokens_for (supply entering.now) (opening_of row.now) asks.now 0)) single subject instance) }
    ensures tokens { IfOk result (λ granting. rows_in granting.tokens ≡ map new_token (tokens_for (supply entering.now) (opening_of row.now) asks.now 0)) }
{
    let issued = issue(alloc, entering, row, asks)?;
    let door = entering.supply.value(2 * asks.len());
    Ok(Granting {
        reply: Reply::Granted {
            door,
            tokens: issued.told,
            single,
            subject,
            instance,
        },
        tokens: issued.rows,
    })
}

/// The asks are granted to a grant that goes on with this consent, and with new terms where there are some.
pub fn grant_on(
    alloc: Global,
    entering: &Entering,
    row: &GrantRow,
    asks: &[Ask],
    single: bool,
    subject: Option<Bytes>,
    retires: bool,
    terms: Option<KeptTerms>,
    consent: KeptRights,
) -> Result<Plan, Mem>
    requires { length asks.now ≤ 8 }
    ensures { IfOk result (GrantsOn entering.now row.now asks.now single subject retires terms consent) }
{
    let count = asks.len();
    let granting = grant(alloc, entering, row, asks, single, subject, None)?;
    let door = entering.supply.value(2 * count);
    Ok(Plan {
        reply: granting.reply,
        drawn: 2 * count as u64 + 1,
        change: TableChange::Renew(Renewal {
            number: row.number,
            retires,
            terms,
            consent: Some(consent),
            door,
            serial: entering.supply.first + 2 * count as u64,
            earliest: entering.supply.moment + WAIT,
            tokens: granting.tokens,
        }),
    })
}
