//! What the notes so far say, the oldest first.
ghost use Rattle.std.specs.Prelude.{◌≡◌, ℕ, List, reverse, option_map, ◌||◌};
ghost use Rattle.std.specs.List.{list_any};
ghost use Rattle.gnap_model.specs.Common.{first_of};
ghost use Rattle.gnap_model.specs.Standing.{is_end_of, opening_in, state_change_in, has_ended, grant_state, is_finalized as finalized, is_approved as approved, is_retirement, is_live as token_is_live, live_token as token_by_value};
ghost use Rattle.gnap_history.specs.Rounds.{round_of_change};

use gnap_model::notes::{Note, OpeningNote, RoundNote, TokenNote};

/// The grant was finalized by an entry.
pub fn was_ended(notes: &[Note], grant: u64) -> bool
    ensures { result ≡ list_any (is_end_of grant) (reverse notes.now) }
{
    let mut found = false;
    for note in notes {
        if let Note::Finalized { grant: of } = note {
            if *of == grant {
                found = true;
            }
        }
    }
    found
}

/// The opening of a grant.
pub fn opening_of<'a>(notes: &'a [Note], grant: u64) -> Option<&'a OpeningNote>
    ensures { option_map (λ o. o.now) result ≡ first_of (opening_in grant) (reverse notes.now) }
{
    let mut found = None;
    for note in notes {
        if let Note::Opened(opening) = note {
            if opening.grant == grant {
                found = Some(opening);
            }
        }
    }
    found
}

/// The grant has come to its end.
pub fn is_over(notes: &[Note], grant: u64, now: u64) -> bool
    ensures { result ≡ (list_any (is_end_of grant) (reverse notes.now) || has_ended (first_of (opening_in grant) (reverse notes.now)) now) }
{
    if was_ended(notes, grant) {
        return true;
    }
    match opening_of(notes, grant) {
        Some(opening) => opening.end <= now,
        None => false,
    }
}

/// The round that a grant is in, where its last change of state is a round.
pub fn last_round<'a>(notes: &'a [Note], grant: u64) -> Option<&'a RoundNote>
    ensures { option_map (λ r. r.now) result ≡ round_of_change (first_of (state_change_in grant) (reverse notes.now)) }
{
    let mut found = None;
    for note in notes {
        match note {
            Note::Pended(round) => {
                if round.grant == grant {
                    found = Some(round);
                }
            }
            Note::Approved {
                grant: of,
                consent: _,
            } => {
                if *of == grant {
                    found = None;
                }
            }
            _ => {}
        }
    }
    found
}

/// The grant is finalized at this moment.
pub fn is_finalized(notes: &[Note], grant: u64, now: u64) -> bool
    ensures { result ≡ finalized (grant_state (reverse notes.now) grant now) }
{
    if is_over(notes, grant, now) {
        return true;
    }
    match last_round(notes, grant) {
        Some(round) => round.over <= now,
        None => false,
    }
}

/// The grant is approved at this moment.
pub fn is_approved(notes: &[Note], grant: u64, now: u64) -> bool
    ensures { result ≡ approved (grant_state (reverse notes.now) grant now) }
{
    !is_over(notes, grant, now) && last_round(notes, grant).is_none()
}

/// The token was retired.
pub fn is_retired(notes: &[Note], serial: u64) -> bool
    ensures { result ≡ list_any (is_retirement serial) (reverse notes.now) }
{
    let mut found = false;
    for note in notes {
        if let Note::Retired { serial: of, why: _ } = note {
            if *of == serial {
                found = true;
            }
        }
    }
    found
}

/// The token is live at this moment: not retired, before its end, and of an approved grant.
pub fn is_live(notes: &[Note], token: &TokenNote, now: u64) -> bool
    ensures { result ≡ token_is_live (reverse notes.now) now token.now }
{
    now < token.until && !is_retired(notes, token.serial) && is_approved(notes, token.grant, now)
}

/// The live token with this value.
pub fn live_token<'a>(notes: &'a [Note], now: u64, value: &[u8]) -> Option<&'a TokenNote>
    ensures { option_map (λ t. t.now) result ≡ token_by_value (reverse notes.now) now value.now }
{
    let mut found = None;
    for note in notes {
        if let Note::Issued(token) = note {
            if token.value.as_slice() == value && is_live(notes, token, now) {
                found = Some(token);
            }
        }
    }
    found
}
