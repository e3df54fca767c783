//! The state of a grant, and what its last round of interaction came to (RFC 9635, sections 1.5 and 4).
ghost use Rattle.std.specs.Prelude.{◌≡◌, ◌≤◌, ℕ, [], reverse, option_map, length};
ghost use Rattle.gnap_model.specs.Common.{first_of};
ghost use Rattle.gnap_model.specs.Continue.{is_early as comes_early};
ghost use Rattle.gnap_model.specs.Standing.{grant_state, earliest_in, consent_of as consent_to, decision_of as decision_on, wrongs_of as wrongs_in};
ghost use Rattle.gnap_history.specs.Rounds.{state};

use crate::look_ups::{is_over, last_round};
use gnap_model::notes::{DecisionNote, Note, OpeningNote, RoundNote};
use gnap_model::rights::Rights;

/// The state of a grant at a moment.
#[derive(Clone, Copy)]
pub enum StateNow<'a> {
    /// It waits for the user, in this round.
    Pending(&'a RoundNote),
    /// Its tokens may be live.
    Approved,
    /// It has ended.
    Finalized,
}

/// The state of the grant at this moment.
pub fn state_now<'a>(notes: &'a [Note], grant: u64, now: u64) -> StateNow<'a>
    ensures { state result ≡ grant_state (reverse notes.now) grant now }
{
    if is_over(notes, grant, now) {
        return StateNow::Finalized;
    }
    match last_round(notes, grant) {
        Some(round) => {
            if round.over <= now {
                StateNow::Finalized
            } else {
                StateNow::Pending(round)
            }
        }
        None => StateNow::Approved,
    }
}

/// The decision of the grant's last round.
pub fn decision_of<'a>(notes: &'a [Note], grant: u64) -> Option<&'a DecisionNote>
    ensures { option_map (λ d. d.now) result ≡ decision_on (reverse notes.now) grant }
{
    let mut found = None;
    for note in notes {
        match note {
            Note::Pended(round) => {
                if round.grant == grant {
                    found = None;
                }
            }
            Note::DecidedAs(decision) => {
                if decision.grant == grant {
                    found = Some(decision);
                }
            }
            _ => {}
        }
    }
    found
}

/// How many references were wrong in the grant's last round.
pub fn wrongs_of(notes: &[Note], grant: u64) -> usize
    ensures count { result ≡ wrongs_in (reverse notes.now) grant }
    ensures few { result ≤ length notes.now }
{
    let mut count = 0;
    for note in notes {
        match note {
            Note::Pended(round) => {
                if round.grant == grant {
                    count = 0;
                }
            }
            Note::Wrong { grant: of } => {
                if *of == grant {
                    count += 1;
                }
            }
            _ => {}
        }
    }
    count
}

/// The moment from which on a poll may present the grant's continuation value.
fn earliest_of(notes: &[Note], grant: u64) -> Option<u64>
    ensures { result ≡ first_of (earliest_in grant) (reverse notes.now) }
{
    let mut found = None;
    for note in notes {
        if let Note::Door {
            grant: of,
            value: _,
            earliest,
        } = note
        {
            if *of == grant {
                found = Some(*earliest);
            }
        }
    }
    found
}

/// A poll with the grant's continuation value comes too early (RFC 9635, section 5.2).
pub fn is_early(notes: &[Note], opening: &OpeningNote, now: u64) -> bool
    ensures { result ≡ comes_early (reverse notes.now) now opening.now }
{
    match earliest_of(notes, opening.grant) {
        Some(earliest) => now < earliest,
        None => false,
    }
}

/// The rights to which the user agreed so far in the grant; `none` where there was no decision.
pub fn consent_of<'a>(notes: &'a [Note], grant: u64, none: &'a Rights) -> &'a Rights
    requires { none.now ≡ [] }
    ensures { result.now ≡ consent_to (reverse notes.now) grant }
{
    let mut consent = none;
    for note in notes {
        if let Note::Approved {
            grant: of,
            consent: rights,
        } = note
        {
            if *of == grant {
                consent = rights;
            }
        }
    }
    consent
}
