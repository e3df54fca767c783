//! The tokens of a grant, as they are issued and handed out (RFC 9635, section 3.2).
ghost use Rattle.std.specs.Prelude.{◌≡◌, ◌≤◌, ◌<◌, ◌++◌, length, map, IfOk};
ghost use Rattle.gnap_model.specs.Actions.{token_for, tokens_for, token_out as token_shown, grant_outcome};
ghost use Rattle.gnap_model.specs.declared.notes.Note.TheVariants.{Issued};
ghost use Rattle.gnap_history.specs.Drawings.{supply, IsAnswer};

use crate::drawing::{Drawing, NotedReply};
use bytes_and_lists::bytes::Bytes;
use bytes_and_lists::memory::{Duplicate, Mem};
use bytes_and_lists::seq::Seq;
use gnap_model::calls::{Reply, Tokens};
use gnap_model::notes::{Note, OpeningNote, TokenNote};
use gnap_model::objects::Ask;
use gnap_model::rights::Rights;
use grant_rules::tokens::token_out;
use std::alloc::Global;

/// The token of a grant that is bound to this key, with this label and these rights: its value is that of the entry with this index, its management value the
/// next one (RFC 9635, section 3.2.1).
pub fn token_with(
    drawing: &Drawing,
    opening: &OpeningNote,
    key: &Bytes,
    label: Option<Bytes>,
    rights: Rights,
    bearer: bool,
    index: usize,
) -> Result<TokenNote, Mem>
    requires { index < 23 }
    ensures { IfOk result (λ token. token
        ≡ record (token_for (supply drawing.now) opening.now (record { label = label; rights = rights; bearer = bearer }) index) { key = key.now }) }
{
    drawing.supply().token(
        opening.grant,
        key,
        opening.end,
        label,
        rights,
        bearer,
        index,
    )
}

/// The token for an ask.
fn token(
    drawing: &Drawing,
    opening: &OpeningNote,
    ask: &Ask,
    index: usize,
) -> Result<TokenNote, Mem>
    requires { index < 23 }
    ensures { IfOk result (λ token. token ≡ token_for (supply drawing.now) opening.now ask.now index) }
{
    let label = ask.label.copy()?;
    let rights = ask.rights.copy()?;
    token_with(
        drawing,
        opening,
        &opening.key,
        label,
        rights,
        ask.bearer,
        index,
    )
}

/// Issues a token for each ask, the values in turn, and adds their notes to `added`. After an `Err` some may be added.
fn issue(
    alloc: Global,
    drawing: &Drawing,
    opening: &OpeningNote,
    asks: &[Ask],
    added: &mut Seq<Note>,
) -> Result<Tokens, Mem>
    requires { length asks.now ≤ 8 }
    ensures { IfOk result (λ tokens. (tokens ≡ map (token_shown drawing.now.moment) (tokens_for (supply drawing.now) opening.now asks.now 0))
        × (added.new ≡ added.old ++ map Issued (tokens_for (supply drawing.now) opening.now asks.now 0))) }
{
    let mut tokens = Seq::new(alloc);
    let mut index = 0;
    for ask in asks {
        let issued = token(drawing, opening, ask, index)?;
        tokens.push(token_out(&issued, drawing.moment)?)?;
        added.push(Note::Issued(issued))?;
        index += 2;
    }
    Ok(tokens)
}

/// The asks are granted: the tokens and a new continuation value, after the notes `before` (RFC 9635, section 3.2).
pub fn grant(
    alloc: Global,
    drawing: &Drawing,
    opening: &OpeningNote,
    before: Seq<Note>,
    asks: &[Ask],
    single: bool,
    subject: Option<Bytes>,
    instance: Option<Bytes>,
) -> Result<NotedReply, Mem>
    requires { length asks.now ≤ 8 }
    ensures { IfOk result (IsAnswer (grant_outcome (supply drawing.now) opening.now before asks.now single subject instance)) }
{
    let mut notes = before;
    let tokens = issue(alloc, drawing, opening, asks, &mut notes)?;
    let door = drawing.value(2 * asks.len());
    notes.push(drawing.door(opening, door))?;
    Ok(NotedReply {
        reply: Reply::Granted {
            door,
            tokens,
            single,
            subject,
            instance,
        },
        notes,
    })
}
