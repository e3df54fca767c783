//! What a request makes of a grant (RFC 9635, section 2).
ghost use Rattle.std.specs.Prelude.{◌≡◌, ◌≤◌, IfOk};
ghost use Rattle.bytes_and_lists.specs.Moments.{last_moment};
ghost use Rattle.gnap_model.specs.Actions.{instance_of as instance_named};
ghost use Rattle.gnap_model.specs.Begin.{is_past as has_passed, end_of};

use crate::limits::GRANT_TIME;
use bytes_and_lists::bytes::Bytes;
use bytes_and_lists::memory::{Duplicate, Mem};
use gnap_model::notes::{OpeningNote, TermsNote};
use gnap_model::objects::GrantRequest;

/// The asked end has come.
pub fn is_past(now: u64, not_after: Option<u64>) -> bool
    ensures { result ≡ has_passed now not_after }
{
    match not_after {
        Some(end) => end <= now,
        None => false,
    }
}

/// The grant with this number that the request opens. It ends after `GRANT_TIME` seconds, or at `not_after` where that is sooner.
pub fn opening(
    number: u64,
    now: u64,
    key: &Bytes,
    request: &GrantRequest,
    not_after: Option<u64>,
) -> Result<OpeningNote, Mem>
    requires { now ≤ last_moment }
    ensures { IfOk result (λ opening. opening
        ≡ record { grant = number; key = key.now; by_object = request.now.by_object; user = request.now.user; end = end_of now not_after }) }
{
    let end = now + GRANT_TIME;
    Ok(OpeningNote {
        grant: number,
        key: key.copy()?,
        by_object: request.by_object,
        user: request.user.copy()?,
        end: match not_after {
            Some(not_after) => end.min(not_after),
            None => end,
        },
    })
}

/// What the grant with this number is asked for from now on.
pub fn terms(number: u64, request: &GrantRequest) -> Result<TermsNote, Mem>
    ensures { IfOk result (λ terms. terms ≡ record { grant = number; asks = request.now.asks; single = request.now.single; subject = request.now.subject }) }
{
    Ok(TermsNote {
        grant: number,
        asks: request.asks.copy()?,
        single: request.single,
        subject: request.subject,
    })
}

/// The client's instance id, where the request named the client by an object (section 3.5).
pub fn instance_of(opening: &OpeningNote) -> Result<Option<Bytes>, Mem>
    ensures { IfOk result (λ instance. instance ≡ instance_named opening.now) }
{
    if opening.by_object {
        Ok(Some(opening.key.copy()?))
    } else {
        Ok(None)
    }
}
