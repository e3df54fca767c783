//! The interactions in which the user may still decide (RFC 9635, section 3.3).
ghost use Rattle.std.specs.Prelude.{◌≡◌, reverse, option_map};
ghost use Rattle.std.specs.List.{list_any};
ghost use Rattle.std.specs.Option.{unwrap_or, option_and_then};
ghost use Rattle.gnap_model.specs.Common.{first_of};
ghost use Rattle.gnap_model.specs.Standing.{grant_state, live_round as round_by_state, live_rounds, round_by_handle as round_with_handle, round_by_code as round_with_code};
ghost use Rattle.gnap_history.specs.Interactions.{goes_by as is_called, round_where, grant_in, is_round_elsewhere};

use crate::rounds::{StateNow, decision_of, state_now};
use gnap_model::notes::{Note, RoundNote};

/// By what the consent front knows an interaction.
#[derive(Clone, Copy)]
pub enum RoundName<'a> {
    /// By its handle.
    Handle(&'a [u8]),
    /// By its user code (RFC 9635, section 3.3.3).
    Code(&'a [u8; 8]),
}

/// The round of the grant, where it is pending and the user may still decide.
pub fn live_round<'a>(notes: &'a [Note], grant: u64, now: u64) -> Option<&'a RoundNote>
    ensures { option_map (λ r. r.now) result ≡ round_by_state (reverse notes.now) now (grant_state (reverse notes.now) grant now) }
{
    match state_now(notes, grant, now) {
        StateNow::Pending(round)
            if now < round.until && decision_of(notes, round.grant).is_none() => Some(round),
        _ => None,
    }
}

/// The round has this name.
fn goes_by(round: &RoundNote, name: RoundName) -> bool
    ensures { result ≡ is_called name.entry round.now }
{
    match name {
        RoundName::Handle(handle) => round.handle.as_slice() == handle,
        RoundName::Code(code) => match &round.code {
            Some(drawn) => drawn == code,
            None => false,
        },
    }
}

/// The grant that was the last to have a round with this name, and 0 where none had.
fn last_grant_with(notes: &[Note], name: RoundName) -> u64
    ensures { result ≡ unwrap_or (first_of (grant_in (is_called name.entry)) (reverse notes.now)) 0 }
{
    let mut found = 0;
    for note in notes {
        if let Note::Pended(round) = note {
            if goes_by(round, name) {
                found = round.grant;
            }
        }
    }
    found
}

/// Another grant than this one had a round with this name.
fn is_used_elsewhere(notes: &[Note], grant: u64, name: RoundName) -> bool
    ensures { result ≡ list_any (is_round_elsewhere grant (is_called name.entry)) notes.now }
{
    for note in notes {
        if let Note::Pended(round) = note {
            if goes_by(round, name) && round.grant != grant {
                return true;
            }
        }
    }
    false
}

/// The live round of the grant, if it has the name. `holder` had a round with it, and no other grant had one unless `is_shared`: then other grants are
/// passed over without a look at their notes.
fn live_round_with<'a>(
    notes: &'a [Note],
    now: u64,
    name: RoundName,
    grant: u64,
    holder: u64,
    is_shared: bool,
) -> Option<&'a RoundNote>
    requires { is_shared ≡ list_any (is_round_elsewhere holder (is_called name)) notes.now }
    ensures { option_map (λ r. r.now) result
        ≡ option_and_then (round_where (is_called name.entry)) (round_by_state (reverse notes.now) now (grant_state (reverse notes.now) grant now)) }
{
    if grant != holder && !is_shared {
        return None;
    }
    match live_round(notes, grant, now) {
        Some(round) if goes_by(round, name) => Some(round),
        _ => None,
    }
}

/// The interaction with this name.
fn round_with<'a>(notes: &'a [Note], now: u64, name: RoundName) -> Option<&'a RoundNote>
    ensures { option_map (λ r. r.now) result ≡ first_of (round_where (is_called name.entry)) (live_rounds (reverse notes.now) now) }
{
    let holder = last_grant_with(notes, name);
    let is_shared = is_used_elsewhere(notes, holder, name);
    let mut found = None;
    for note in notes {
        if let Note::Opened(opening) = note {
            if let Some(round) = live_round_with(
                notes,
                now,
                name,
                opening.grant,
                holder,
                is_shared,
            ) {
                found = Some(round);
            }
        }
    }
    found
}

/// The interaction with this handle; `None` where no live interaction has it.
pub fn round_by_handle<'a>(notes: &'a [Note], now: u64, handle: &[u8]) -> Option<&'a RoundNote>
    ensures { option_map (λ r. r.now) result ≡ round_with_handle (reverse notes.now) now handle.now }
{
    round_with(notes, now, RoundName::Handle(handle))
}

/// The interaction with this user code (RFC 9635, section 3.3.3); `None` where no live interaction has it.
pub fn round_by_code<'a>(notes: &'a [Note], now: u64, code: &[u8; 8]) -> Option<&'a RoundNote>
    ensures { option_map (λ r. r.now) result ≡ round_with_code (reverse notes.now) now code.now }
{
    round_with(notes, now, RoundName::Code(code))
}
