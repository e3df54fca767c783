//! What the signature of a line's call says of itself.
ghost use Rattle.std.specs.Prelude.{◌≡◌, ◌≤◌, true, IfOk, IfSome, option_map};
ghost use Rattle.std.specs.Option.{option_copied, unwrap_or};
ghost use Rattle.histories.specs.History.{last_moment};
ghost use Rattle.serde_json.specs.View.{view};
ghost use Rattle.message_signature.specs.Marks.{has_nonce_length};
ghost use Rattle.grant_machine.specs.Gnap.{MarkFits};
ghost use Rattle.signed_requests.specs.Nonces.{line_nonce};
ghost use Rattle.call_replay.specs.CallLines.{sized_nonce, nonce_in, created_in, line_mark, mark_for};

use crate::call_lines::moment_in;
use bytes_and_lists::bytes::Bytes;
use bytes_and_lists::memory::Mem;
use gnap_objects::CallKind;
use json_objects::member;
use message_signature::LONGEST_NONCE;
use serde_json::Value;
use signed_calls::signed::Mark;
use signed_requests::line_nonce;
use std::alloc::Global;

/// What the mark of a line follows from.
#[derive(Clone, Copy)]
pub(crate) struct MarkFields<'v> {
    /// The moment of the call, in seconds since 1970.
    pub at: u64,
    /// The line's number. That of the setup is 1.
    pub number: u64,
    /// The nonce that the line tells, where it tells one.
    pub nonce: Option<&'v str>,
    /// The moment of the signature that the line tells, where it tells one.
    pub created: Option<u64>,
}

// The text as a nonce, where it has 1 to 64 bytes.
fn sized_nonce(text: &str) -> Option<&str>
    ensures { option_copied result ≡ sized_nonce text.now }
{
    if !text.is_empty() && text.len() <= LONGEST_NONCE {
        Some(text)
    } else {
        None
    }
}

/// The nonce that the line tells, where it tells one; none where it tells one that is no string of 1 to 64 bytes.
#[tactic(auto, unfolding(crate::specs::CallLines::nonce_in))]
pub(crate) fn nonce_in(value: &Value) -> Option<Option<&str>>
    ensures nonce { option_map option_copied result ≡ nonce_in (view value.now) }
    ensures sized { IfSome result (λ nonce. IfSome (option_copied nonce) (λ n. has_nonce_length n ≡ true)) }
{
    match member(value, "nonce") {
        None => Some(None),
        Some(nonce) => Some(Some(sized_nonce(nonce.as_str()?)?)),
    }
}

/// The moment of the signature that the line tells, where it tells one; none where it tells one that is no moment.
#[tactic(auto, unfolding(crate::specs::CallLines::created_in))]
pub(crate) fn created_in(value: &Value) -> Option<Option<u64>>
    ensures created { result ≡ created_in (view value.now) }
    ensures in_time { IfSome result (λ created. IfSome created (λ moment. moment ≤ last_moment)) }
{
    match member(value, "created") {
        None => Some(None),
        Some(created) => Some(Some(moment_in(created)?)),
    }
}

// The nonce of a line.
#[tactic(auto, using(crate::proofs::Asked::nonce_length))]
fn nonce_of(alloc: Global, fields: MarkFields<'_>) -> Result<Bytes, Mem>
    requires sized { IfSome (option_copied fields.nonce) (λ n. has_nonce_length n ≡ true) }
    ensures nonce { IfOk result (λ nonce. nonce ≡ unwrap_or (option_copied fields.entry.nonce) (line_nonce fields.entry.at fields.entry.number)) }
    ensures sized { IfOk result (λ nonce. has_nonce_length nonce ≡ true) }
{
    match fields.nonce {
        Some(nonce) => Bytes::from_slice(alloc, nonce.as_bytes()),
        None => line_nonce(alloc, fields.at, fields.number),
    }
}

// The mark of a line.
#[tactic(auto, using(crate::proofs::Asked::mark_fits))]
fn line_mark(alloc: Global, fields: MarkFields<'_>) -> Result<Mark, Mem>
    requires in_time { fields.at ≤ last_moment }
    requires sized { IfSome (option_copied fields.nonce) (λ n. has_nonce_length n ≡ true) }
    requires signed_in_time { IfSome fields.created (λ moment. moment ≤ last_moment) }
    ensures mark { IfOk result (λ mark. mark ≡ line_mark fields.entry.at fields.entry.number (option_copied fields.entry.nonce) fields.entry.created) }
    ensures fits { IfOk result (λ mark. MarkFits (Some mark)) }
{
    let nonce = nonce_of(alloc, fields)?;
    let created = match fields.created {
        Some(created) => created,
        None => fields.at,
    };
    Ok(Mark { nonce, created })
}

/// The mark of the line's call, where it is of this kind. An introspection has none.
pub(crate) fn mark_for(
    alloc: Global,
    kind: CallKind,
    fields: MarkFields<'_>,
) -> Result<Option<Mark>, Mem>
    requires in_time { fields.at ≤ last_moment }
    requires sized { IfSome (option_copied fields.nonce) (λ n. has_nonce_length n ≡ true) }
    requires signed_in_time { IfSome fields.created (λ moment. moment ≤ last_moment) }
    ensures mark { IfOk result (λ mark. mark
        ≡ mark_for kind (line_mark fields.entry.at fields.entry.number (option_copied fields.entry.nonce) fields.entry.created)) }
    ensures fits { IfOk result MarkFits }
{
    match kind {
        CallKind::Introspect => Ok(None),
        _ => Ok(Some(line_mark(alloc, fields)?)),
    }
}
