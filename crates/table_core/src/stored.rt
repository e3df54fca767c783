//! What the notes of an entry leave in rows.
ghost use Rattle.std.specs.Prelude.{◌≡◌, IfOk};
ghost use Rattle.std.specs.declared.option.Option.TheVariants.{None};
ghost use Rattle.gnap_tables.specs.Rows.{round_row};
ghost use Rattle.gnap_tables.specs.Tables.{new_token};

use crate::kept_terms::KeptTerms;
use bytes_and_lists::memory::Mem;
use gnap_model::notes::{RoundNote, TokenNote};
use gnap_model::objects::GrantRequest;
use gnap_tables::rows::{KeptRound, Round, TokenRow};
use kept_rights::{KeptAsks, KeptRights};
use std::alloc::Global;

/// The row of a token that was just issued.
pub fn stored_token(alloc: Global, token: TokenNote) -> Result<TokenRow, Mem>
    ensures { IfOk result (λ row. row ≡ new_token token) }
{
    let value = token.value;
    let manage = token.manage;
    Ok(TokenRow {
        serial: token.serial,
        grant: token.grant,
        value,
        manage,
        label: token.label,
        rights: KeptRights::keep(alloc, &token.rights)?,
        bearer: token.bearer,
        key: token.key,
        issued: token.issued,
        until: token.until,
        retired: false,
    })
}

/// A round that has just begun.
pub fn stored_round(alloc: Global, round: RoundNote) -> Result<KeptRound, Mem>
    ensures { IfOk result (λ kept. kept ≡ round_row 0 None round) }
{
    let handle = round.handle;
    let begun = Round {
        handle,
        code: round.code,
        nonce: round.nonce,
        modes: round.modes,
        until: round.until,
        over: round.over,
        wrongs: 0,
        decision: None,
    };
    KeptRound::keep(alloc, begun)
}

/// What the grant with this number is asked for from now on, as its row keeps it.
pub fn requested_terms(alloc: Global, number: u64, request: &GrantRequest) -> Result<KeptTerms, Mem>
    ensures { IfOk result (λ kept. kept ≡ record { grant = number; asks = request.now.asks; single = request.now.single; subject = request.now.subject }) }
{
    Ok(KeptTerms {
        grant: number,
        asks: KeptAsks::keep(alloc, &request.asks)?,
        single: request.single,
        subject: request.subject,
    })
}
