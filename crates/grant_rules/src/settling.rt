//! How a grant request is settled (RFC 9635, section 1.5).
ghost use Rattle.std.specs.Prelude.{◌≡◌, ◌++◌, IfOk};
ghost use Rattle.gnap_model.specs.Rights.{covers as rights_cover};
ghost use Rattle.gnap_model.specs.Asked.{asked_rights, has_start as can_start};
ghost use Rattle.gnap_model.specs.Judging.{settle as settled_by, settle_by};
ghost use Rattle.grant_rules.specs.Courses.{settled};

use crate::keys::rights_of_client;
use access_rights::covers;
use bytes_and_lists::memory::{Duplicate, Mem};
use bytes_and_lists::seq::Seq;
use gnap_model::objects::{Ask, GrantRequest, Modes, Setup};
use gnap_model::rights::Rights;
use std::alloc::Global;

/// What is done with a request.
#[derive(Clone, Copy)]
pub enum Course {
    /// The tokens are issued at once.
    AtOnce,
    /// The user is asked.
    ByAsking,
    /// Neither.
    Never,
}

/// The rights cover all rights of the asks.
fn covers_asks(granted: &Rights, asks: &[Ask]) -> bool
    ensures { result ≡ rights_cover granted.now (asked_rights asks.now) }
{
    for ask in asks {
        if !covers(granted, &ask.rights) {
            return false;
        }
    }
    true
}

/// One list of rights and another one together cover all rights of the asks.
fn cover_asks(first: &Rights, then: &Rights, asks: &[Ask]) -> Result<bool, Mem>
    ensures { IfOk result (λ b. b ≡ rights_cover (first.now ++ then.now) (asked_rights asks.now)) }
{
    if then.as_slice().is_empty() {
        return Ok(covers_asks(first, asks));
    }
    Ok(covers_asks(&joined(first, then)?, asks))
}

/// The rights of both lists, in order.
fn joined(first: &Rights, then: &Rights) -> Result<Rights, Mem>
    ensures { IfOk result (λ rights. rights ≡ first.now ++ then.now) }
{
    let mut rights = first.copy()?;
    rights.append(then.copy()?)?;
    Ok(rights)
}

/// The client can start an interaction (RFC 9635, section 2.5.1).
fn has_start(modes: &Option<Modes>) -> bool
    ensures { result ≡ can_start modes.now }
{
    match modes {
        Some(modes) => modes.redirect || modes.user_code || modes.user_code_uri,
        None => false,
    }
}

// Settles a request by the rights that come at once, those for which the user is asked, and those to which the user agreed.
fn settle_by(
    auto: &Rights,
    ask: &Rights,
    consent: &Rights,
    request: &GrantRequest,
) -> Result<Course, Mem>
    ensures { IfOk result (λ s. settled s ≡ settle_by auto.now ask.now consent.now request.now) }
{
    let asks = request.asks.as_slice();
    if !request.subject && cover_asks(auto, consent, asks)? {
        return Ok(Course::AtOnce);
    }
    if !has_start(&request.modes) {
        return Ok(Course::Never);
    }
    let more = joined(consent, ask)?;
    if cover_asks(auto, &more, asks)? {
        Ok(Course::ByAsking)
    } else {
        Ok(Course::Never)
    }
}

/// Settles a request of the client with this key, to whose grant the user agreed so far with these rights.
pub fn settle(
    alloc: Global,
    setup: &Setup,
    key: &[u8],
    consent: &Rights,
    request: &GrantRequest,
) -> Result<Course, Mem>
    ensures { IfOk result (λ s. settled s ≡ settled_by setup.now key.now consent.now request.now) }
{
    let none = Seq::new(alloc);
    let rights = rights_of_client(setup, key, &none);
    settle_by(rights.auto, rights.ask, consent, request)
}
