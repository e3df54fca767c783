//! The limits on live grants and live tokens.
ghost use Rattle.std.specs.Prelude.{◌≡◌, ℕ, List, length, reverse, nat_le, ◌≤◌};
ghost use Rattle.std.specs.List.{count_by, list_all};
ghost use Rattle.gnap_model.specs.Limits.{live_limit};
ghost use Rattle.gnap_model.specs.Standing.{live_grants as grants_live, live_tokens as tokens_live};
ghost use Rattle.gnap_model.specs.Begin.{pass_limit};
ghost use Rattle.gnap_model.specs.Change.{other_live_tokens as others_live};
ghost use Rattle.gnap_history.specs.Counts.{is_unexpired, lets_go_on};

use crate::look_ups::{is_finalized, is_live};
use crate::note_list::NoteList;
use gnap_model::notes::{Note, OpeningNote};
use grant_rules::limits::LIVE_LIMIT;

/// How many grants are live at this moment.
fn live_grants(notes: &[Note], now: u64) -> usize
    ensures { result ≡ grants_live (reverse notes.now) now }
{
    let mut count = 0;
    for note in notes {
        if let Note::Opened(opening) = note {
            if !is_finalized(notes, opening.grant, now) {
                count += 1;
            }
        }
    }
    count
}

/// How many tokens are live at this moment.
fn live_tokens(notes: &[Note], now: u64) -> usize
    ensures count { result ≡ length (tokens_live (reverse notes.now) now) }
    ensures few { result ≤ length notes.now }
{
    let mut count = 0;
    for note in notes {
        if let Note::Issued(token) = note {
            if is_live(notes, token, now) {
                count += 1;
            }
        }
    }
    count
}

/// How many tokens of other grants are live at this moment.
fn other_live_tokens(notes: &[Note], opening: &OpeningNote, now: u64) -> usize
    ensures count { result ≡ length (others_live (reverse notes.now) now opening.now) }
    ensures few { result ≤ length notes.now }
{
    let mut count = 0;
    for note in notes {
        if let Note::Issued(token) = note {
            if token.grant != opening.grant && is_live(notes, token, now) {
                count += 1;
            }
        }
    }
    count
}

/// How many tokens have not expired.
fn unexpired_tokens(notes: &[Note], now: u64) -> usize
    ensures count { result ≡ count_by (is_unexpired now) notes.now }
    ensures few { result ≤ length notes.now }
{
    let mut count = 0;
    for note in notes {
        if let Note::Issued(token) = note {
            if now < token.until {
                count += 1;
            }
        }
    }
    count
}

/// No note ends a grant or a token or makes a grant pending, and no grant has come to its end.
fn goes_on(notes: &[Note], now: u64) -> bool
    ensures { result ≡ list_all (lets_go_on now) notes.now }
{
    for note in notes {
        let goes_on = match note {
            Note::Opened(opening) => now < opening.end,
            Note::Pended(_) => false,
            Note::Finalized { .. } => false,
            Note::Retired { .. } => false,
            _ => true,
        };
        if !goes_on {
            return false;
        }
    }
    true
}

/// As many grants are live as may be. They are counted one by one only where so many were opened, and not all are live.
pub fn has_many_grants(notes: &NoteList, now: u64) -> bool
    ensures { result ≡ nat_le live_limit (grants_live (reverse notes.now) now) }
{
    if notes.grants() < LIVE_LIMIT {
        return false;
    }
    if goes_on(notes.as_slice(), now) {
        return true;
    }
    live_grants(notes.as_slice(), now) >= LIVE_LIMIT
}

/// The live tokens and so many more are too many. They are counted one by one only where so many were issued and have not expired, and not all of these are
/// live.
pub fn passes_limit(notes: &NoteList, now: u64, more: usize) -> bool
    requires { more ≤ 8 }
    ensures { result ≡ pass_limit (tokens_live (reverse notes.now) now) more }
{
    if notes.tokens() + more <= LIVE_LIMIT {
        return false;
    }
    if unexpired_tokens(notes.as_slice(), now) + more <= LIVE_LIMIT {
        return false;
    }
    if goes_on(notes.as_slice(), now) {
        return true;
    }
    live_tokens(notes.as_slice(), now) + more > LIVE_LIMIT
}

/// The live tokens of other grants and so many more are too many. They are counted one by one only where so many have not expired.
pub fn others_pass_limit(notes: &[Note], opening: &OpeningNote, now: u64, more: usize) -> bool
    requires { more ≤ 8 }
    ensures { result ≡ pass_limit (others_live (reverse notes.now) now opening.now) more }
{
    let unexpired = unexpired_tokens(notes, now);
    if unexpired + more <= LIVE_LIMIT {
        return false;
    }
    other_live_tokens(notes, opening, now) + more > LIVE_LIMIT
}
