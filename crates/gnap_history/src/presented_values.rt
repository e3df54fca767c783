//! What a presented value names: a continuation value its grant, a management value its token (RFC 9635, sections 5 and 6).
ghost use Rattle.std.specs.Prelude.{◌≡◌, reverse, option_map, not, ◌&&◌, IfOk, IfErr};
ghost use Rattle.std.specs.Option.{unwrap_or};
ghost use Rattle.std.specs.List.{list_any};
ghost use Rattle.gnap_model.specs.Common.{first_of};
ghost use Rattle.gnap_model.specs.declared.notes.OpeningNote.{OpeningNote};
ghost use Rattle.gnap_model.specs.Actions.{Action, on_found, with_key, with_owner};
ghost use Rattle.gnap_model.specs.Actions.Action.{Refuse};
ghost use Rattle.gnap_model.specs.Standing.{door, is_door_of as is_door_text_of, grant_state, is_finalized as finalized, named_grant as grant_by_value, is_replacement, is_managed as token_is_managed, managed_token as token_by_manage};
ghost use Rattle.gnap_history.specs.Holders.{holder_in, is_held_by_other};

use crate::look_ups::is_finalized;
use gnap_model::notes::{Note, OpeningNote, TokenNote, Why};
use gnap_model::objects::ErrorCode;

/// The last grant that had the continuation value, and 0 where none had it.
fn last_holder(notes: &[Note], value: &[u8]) -> u64
    ensures { result ≡ unwrap_or (first_of (holder_in value.now) (reverse notes.now)) 0 }
{
    let mut found = 0;
    for note in notes {
        if let Note::Door {
            grant,
            value: text,
            earliest: _,
        } = note
        {
            if text.as_slice() == value {
                found = *grant;
            }
        }
    }
    found
}

/// Another grant than this one had the continuation value.
fn had_by_other(notes: &[Note], grant: u64, value: &[u8]) -> bool
    ensures { result ≡ list_any (is_held_by_other grant value.now) notes.now }
{
    for note in notes {
        if let Note::Door {
            grant: holder,
            value: text,
            earliest: _,
        } = note
        {
            if text.as_slice() == value && *holder != grant {
                return true;
            }
        }
    }
    false
}

/// The continuation value of a grant.
fn door_of<'a>(notes: &'a [Note], grant: u64) -> Option<&'a [u8; 32]>
    ensures { option_map (λ v. v.now) result ≡ door (reverse notes.now) grant }
{
    let mut found = None;
    for note in notes {
        if let Note::Door {
            grant: holder,
            value,
            earliest: _,
        } = note
        {
            if *holder == grant {
                found = Some(value);
            }
        }
    }
    found
}

/// The text is the continuation value of the grant.
fn is_door_of(notes: &[Note], grant: u64, text: &[u8]) -> bool
    ensures { result ≡ is_door_text_of (reverse notes.now) grant text.now }
{
    match door_of(notes, grant) {
        Some(value) => value.as_slice() == text,
        None => false,
    }
}

/// The continuation value names the grant. `holder` had the value, and no other grant had it unless `had_by_several`: then other grants are passed over
/// without a look at their notes.
fn names(
    notes: &[Note],
    now: u64,
    value: &[u8],
    grant: u64,
    holder: u64,
    had_by_several: bool,
) -> bool
    requires { had_by_several ≡ list_any (is_held_by_other holder value.now) notes.now }
    ensures { result ≡ (is_door_text_of (reverse notes.now) grant value.now && not (finalized (grant_state (reverse notes.now) grant now))) }
{
    if grant != holder && !had_by_several {
        return false;
    }
    is_door_of(notes, grant, value) && !is_finalized(notes, grant, now)
}

/// The grant that the continuation value names.
pub fn named_grant<'a>(notes: &'a [Note], now: u64, value: &[u8]) -> Option<&'a OpeningNote>
    ensures { option_map (λ o. o.now) result ≡ grant_by_value (reverse notes.now) now value.now }
{
    let holder = last_holder(notes, value);
    let had_by_several = had_by_other(notes, holder, value);
    let mut found = None;
    for note in notes {
        if let Note::Opened(opening) = note {
            if names(notes, now, value, opening.grant, holder, had_by_several) {
                found = Some(opening);
            }
        }
    }
    found
}

/// The token was replaced, by a rotation or a modification.
fn is_replaced(notes: &[Note], serial: u64) -> bool
    ensures { result ≡ list_any (is_replacement serial) (reverse notes.now) }
{
    let mut found = false;
    for note in notes {
        if let Note::Retired { serial: of, why } = note {
            let replaces = match why {
                Why::ByRotation => true,
                Why::ByModification => true,
                Why::ByRevocation => false,
            };
            if replaces && *of == serial {
                found = true;
            }
        }
    }
    found
}

/// The token can be managed: no rotation and no modification replaced it, and its grant goes on.
pub fn is_managed(notes: &[Note], token: &TokenNote, now: u64) -> bool
    ensures { result ≡ token_is_managed (reverse notes.now) now token.now }
{
    !is_replaced(notes, token.serial) && !is_finalized(notes, token.grant, now)
}

/// The token that the management value names.
pub fn managed_token<'a>(notes: &'a [Note], now: u64, value: &[u8]) -> Option<&'a TokenNote>
    ensures { option_map (λ t. t.now) result ≡ token_by_manage (reverse notes.now) now value.now }
{
    let mut found = None;
    for note in notes {
        if let Note::Issued(token) = note {
            if token.manage.as_slice() == value && is_managed(notes, token, now) {
                found = Some(token);
            }
        }
    }
    found
}

/// The grant that was found, where the key is its own; else the code with which an action on it is refused (RFC 9635, section 5).
pub fn of_key<'a>(
    found: Option<&'a OpeningNote>,
    key: &[u8],
    unknown: ErrorCode,
) -> Result<&'a OpeningNote, ErrorCode>
    ensures ok { IfOk result (λ opening. (act : OpeningNote → Action)
        → on_found unknown (with_key act key.now) (option_map (λ o. o.now) found.entry) ≡ act opening.now) }
    ensures err { IfErr result (λ code. (act : OpeningNote → Action)
        → on_found unknown (with_key act key.now) (option_map (λ o. o.now) found.entry) ≡ Refuse code) }
{
    match found {
        Some(opening) => {
            if opening.key.as_slice() == key {
                Ok(opening)
            } else {
                Err(ErrorCode::InvalidClient)
            }
        }
        None => Err(unknown),
    }
}

/// The grant that was found, where the key is the owner's; else the code with which an action on a token of that owner is refused (RFC 9635, section 6).
pub fn of_owner<'a>(
    found: Option<&'a OpeningNote>,
    owner: &[u8],
    key: &[u8],
    unknown: ErrorCode,
) -> Result<&'a OpeningNote, ErrorCode>
    ensures ok { IfOk result (λ opening. (act : OpeningNote → Action)
        → on_found unknown (with_owner act owner.now key.now) (option_map (λ o. o.now) found.entry) ≡ act opening.now) }
    ensures err { IfErr result (λ code. (act : OpeningNote → Action)
        → on_found unknown (with_owner act owner.now key.now) (option_map (λ o. o.now) found.entry) ≡ Refuse code) }
{
    match found {
        Some(opening) => {
            if owner == key {
                Ok(opening)
            } else {
                Err(ErrorCode::InvalidClient)
            }
        }
        None => Err(unknown),
    }
}
