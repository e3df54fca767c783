//! What the list of a signature asks of its message and of the time.
ghost use Rattle.std.specs.Prelude.{◌≡◌, ◌&&◌, Some, codes, option_and_then};
ghost use Rattle.std.specs.Option.{option_copied};
ghost use Rattle.structured_fields.specs.Strings.{is_string};
ghost use Rattle.message_signature.specs.Base.{is_named};
ghost use Rattle.message_signature.specs.Demands.{covering_of, demands_with, demands_of, are_covering, is_near, is_not_past, admitted_by};
ghost use Rattle.message_signature.specs.Verified.{integer_in, absent_or};

use crate::base::is_named;
use crate::components::{has_body, has_field};
use crate::fault::SigFault;
use crate::tags::must;
use bytes_and_lists::message::Message;
use structured_fields::{Bare, InnerList, Item, Items, Params, is_string};

// How many seconds `created` may be before or after now.
const WINDOW: u64 = 300;

/// Which of the components that a message may need are covered.
#[derive(Clone, Copy, Drop)]
pub(crate) struct Covering {
    /// The method and the target URI.
    target: bool,
    /// The digest of a body.
    digest: bool,
    /// An access token that is presented.
    authorization: bool,
}

#[derive(Clone, Copy, Drop)]
pub(crate) struct Demands {
    covering: Covering,
    created: Option<i64>,
    expires: Option<i64>,
    /// It names no algorithm but `hmac-sha256`.
    right_alg: bool,
}

fn integer_in(value: Option<&Bare>) -> Option<i64>
    ensures { result ≡ option_and_then integer_in (option_copied value.entry) }
{
    match value {
        Some(Bare::Integer(n)) => Some(*n),
        _ => None,
    }
}

fn is_right_alg(alg: Option<&Bare>) -> bool
    ensures { result ≡ absent_or (is_string (codes "hmac-sha256")) (option_copied alg.entry) }
{
    match alg {
        Some(alg) => is_string(b"hmac-sha256", alg),
        None => true,
    }
}

fn covers_target(items: &[Item]) -> bool
    ensures { result ≡ (is_named (codes "@method") items.now && is_named (codes "@target-uri") items.now) }
{
    is_named(b"@method", items) && is_named(b"@target-uri", items)
}

pub(crate) fn covering_of(items: &Items) -> Covering
    ensures { result ≡ covering_of items.now }
{
    let items = items.as_slice();
    Covering {
        target: covers_target(items),
        digest: is_named(b"content-digest", items),
        authorization: is_named(b"authorization", items),
    }
}

/// Those of a list that covers so much, by its parameters.
pub(crate) fn demands_with(covering: Covering, params: &Params) -> Demands
    ensures { result ≡ demands_with covering params.now }
{
    Demands {
        covering,
        created: integer_in(params.get(b"created")),
        expires: integer_in(params.get(b"expires")),
        right_alg: is_right_alg(params.get(b"alg")),
    }
}

/// Those of a list.
pub(crate) fn demands_of(list: &InnerList) -> Demands
    ensures { result ≡ demands_of list.now }
{
    demands_with(covering_of(&list.items), &list.params)
}

fn are_covering(message: &Message, covering: &Covering) -> bool
    ensures { result ≡ are_covering message.now covering.now }
{
    covering.target
        && (!has_body(message) || covering.digest)
        && (!has_field(message, b"authorization") || covering.authorization)
}

fn is_at_most_from(now: u64, created: i64) -> bool
    ensures { result ≡ is_near now (Some created) }
{
    if created < 0 {
        now.saturating_add(created.unsigned_abs()) <= WINDOW
    } else {
        now.abs_diff(created.unsigned_abs()) <= WINDOW
    }
}

fn is_near(now: u64, created: Option<i64>) -> bool
    ensures { result ≡ is_near now created }
{
    match created {
        Some(created) => is_at_most_from(now, created),
        None => false,
    }
}

fn is_not_past(now: u64, expires: Option<i64>) -> bool
    ensures { result ≡ is_not_past now expires }
{
    match expires {
        Some(expires) => expires >= 0 && now <= expires.unsigned_abs(),
        None => true,
    }
}

/// Whether the message, at this moment in seconds since 1970, is as the demands ask.
///
/// Errors: the first of Uncovered, Created, Expired and Alg that is so.
pub(crate) fn admit(message: &Message, now: u64, demands: &Demands) -> Result<(), SigFault>
    ensures { result ≡ admitted_by message.now now demands.now }
{
    must(
        SigFault::Uncovered,
        are_covering(message, &demands.covering),
    )?;
    must(SigFault::Created, is_near(now, demands.created))?;
    must(SigFault::Expired, is_not_past(now, demands.expires))?;
    must(SigFault::Alg, demands.right_alg)
}
