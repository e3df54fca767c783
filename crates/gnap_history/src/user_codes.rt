//! User codes: a new one is that of no live interaction (RFC 9635, section 3.3.3).
ghost use Rattle.std.specs.Prelude.{◌≡◌, reverse, IfOk};
ghost use Rattle.gnap_model.specs.Standing.{live_codes as codes_live};
ghost use Rattle.gnap_history.specs.Drawings.{supply};
ghost use Rattle.grant_rules.specs.UserCodes.{code_for};

use crate::drawing::Drawing;
use crate::live_rounds::live_round;
use bytes_and_lists::memory::Mem;
use bytes_and_lists::seq::Seq;
use gnap_model::notes::Note;
use grant_rules::user_codes::free_code;
use std::alloc::Global;

/// The user codes of the live interactions, that of the oldest grant first.
fn live_codes(alloc: Global, notes: &[Note], now: u64) -> Result<Seq<[u8; 8]>, Mem>
    ensures { IfOk result (λ codes. codes ≡ reverse (codes_live (reverse notes.now) now)) }
{
    let mut codes = Seq::new(alloc);
    for note in notes {
        if let Note::Opened(opening) = note {
            if let Some(round) = live_round(notes, opening.grant, now) {
                if let Some(code) = round.code {
                    codes.push(code)?;
                }
            }
        }
    }
    Ok(codes)
}

/// The user code that an entry draws, from the last of its words.
pub fn user_code(alloc: Global, drawing: &Drawing) -> Result<[u8; 8], Mem>
    ensures { IfOk result (λ code. code ≡ code_for (supply drawing.now)) }
{
    let taken = live_codes(alloc, drawing.notes.as_slice(), drawing.moment)?;
    Ok(free_code(drawing.words.word(47), taken.as_slice()))
}
