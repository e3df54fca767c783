//! The user is asked: a grant is pending in a new round of interaction (RFC 9635, section 3.3).
ghost use Rattle.std.specs.Prelude.{◌≡◌, IfOk};
ghost use Rattle.gnap_model.specs.Common.{some_if};
ghost use Rattle.gnap_model.specs.Asked.{wants_code as code_wanted};
ghost use Rattle.gnap_model.specs.Actions.{round_for, pending_outcome};
ghost use Rattle.gnap_history.specs.Drawings.{supply, IsAnswer};
ghost use Rattle.grant_rules.specs.UserCodes.{code_for};

use crate::drawing::{Drawing, NotedReply};
use crate::user_codes::user_code;
use bytes_and_lists::bytes::Bytes;
use bytes_and_lists::memory::{Duplicate, Mem};
use bytes_and_lists::seq::Seq;
use gnap_model::notes::{Note, OpeningNote, RoundNote};
use gnap_model::objects::Modes;
use grant_rules::drawing::pending_reply;
use std::alloc::Global;

/// The user code, where the client can show one.
fn wanted_code(alloc: Global, drawing: &Drawing, modes: &Modes) -> Result<Option<[u8; 8]>, Mem>
    ensures { IfOk result (λ code. code ≡ some_if (code_wanted modes.now) (code_for (supply drawing.now))) }
{
    if modes.user_code || modes.user_code_uri {
        Ok(Some(user_code(alloc, drawing)?))
    } else {
        Ok(None)
    }
}

/// A new round of interaction.
fn round(
    alloc: Global,
    drawing: &Drawing,
    opening: &OpeningNote,
    modes: &Modes,
) -> Result<RoundNote, Mem>
    ensures { IfOk result (λ round. round ≡ round_for (supply drawing.now) opening.now modes.now) }
{
    let code = wanted_code(alloc, drawing, modes)?;
    drawing
        .supply()
        .round(opening.grant, opening.end, modes, code)
}

/// The user is asked: a new continuation value and a round of interaction, after the notes `before` (RFC 9635, sections 3.1 and 3.3).
pub fn pending(
    alloc: Global,
    drawing: &Drawing,
    opening: &OpeningNote,
    before: Seq<Note>,
    modes: &Modes,
    instance: Option<Bytes>,
) -> Result<NotedReply, Mem>
    ensures { IfOk result (IsAnswer (pending_outcome (supply drawing.now) opening.now before modes.now instance)) }
{
    let round = round(alloc, drawing, opening, modes)?;
    let door = drawing.value(0);
    let reply = pending_reply(alloc, &round, drawing.moment, door, instance)?;
    let mut notes = before;
    notes.push(drawing.door(opening, door))?;
    notes.push(Note::Pended(round))?;
    Ok(NotedReply { reply, notes })
}
