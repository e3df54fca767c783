//! Token requests (RFC 9635, section 2.1).
ghost use Rattle.std.specs.Prelude.{◌≡◌, ◌||◌, ◌≤◌, ℕ, List, [], false, length, IfOk, IsUtf8};
ghost use Rattle.std.specs.List.{AllByRecursion, list_any};
ghost use Rattle.serde_json.specs.View.{view, items_view};
ghost use Rattle.json_objects.specs.Bodies.{IsBody, AreBodies};
ghost use Rattle.json_objects.specs.Reading.{Gives};
ghost use Rattle.json_objects.specs.Texts.{IsUtf8Or};
ghost use Rattle.json_objects.specs.TextSets.{has_text};
ghost use Rattle.gnap_model.specs.Common.{is_text};
ghost use Rattle.access_rights.specs.Fits.{Fits};
ghost use Rattle.gnap_objects.specs.declared.fault.ObjectFault.TheVariants.{OutOfMemory};
ghost use Rattle.gnap_objects.specs.Fits.{AskFits};
ghost use Rattle.gnap_objects.specs.TokenRequests.{access_of, has_label, label_of, flags_from, flags_of, token_request_of, token_requests_from, single_request, token_requests_of};

use crate::fault::ObjectFault;
use crate::members::{added_text, counted_rights, rights_under, sized_str};
use bytes_and_lists::bytes::Bytes;
use bytes_and_lists::seq::Seq;
use gnap_model::objects::{Ask, Asks};
use gnap_model::rights::Rights;
use json_objects::{TextSet, member};
use serde_json::Value;
use std::alloc::Global;

// What counts of `flags`.
#[derive(Clone, Copy)]
struct Flags {
    bearer: bool,
    repeated: bool,
}

#[derive(Drop)]
struct TokenRequest {
    ask: Ask,
    repeats_flag: bool,
}

/// The tokens that a grant request asks for.
#[derive(Drop)]
pub(crate) struct TokenRequests {
    pub(crate) asks: Asks,
    /// One is asked for outside an array.
    pub(crate) single: bool,
    /// A flag stands twice in one of them.
    pub(crate) repeats_flag: bool,
}

#[tactic(auto, unfolding(crate::specs::TokenRequests::access_of))]
fn access_of(alloc: Global, value: &Value) -> Result<Rights, ObjectFault>
    requires { IsBody (view value.now) }
    ensures value { Gives OutOfMemory (λ r. r) result (access_of (view value.now)) }
    ensures fits { IfOk result (AllByRecursion Fits) }
{
    let rights = rights_under(alloc, value, "access")?;
    counted_rights(alloc, rights, "access")
}

// The labels are those of the requests before, and on Ok the new one beside them.
#[tactic(auto, unfolding(crate::specs::TokenRequests::label_of))]
fn label_of(
    alloc: Global,
    value: &Value,
    needed: bool,
    labels: &mut TextSet,
    before: &Asks,
) -> Result<Option<Bytes>, ObjectFault>
    requires { (label : List ℕ) → has_text labels.old label ≡ list_any (has_label label) before.now }
    ensures value { Gives OutOfMemory (λ l. l) result (label_of needed before.now (view value.now)) }
    ensures labels { IfOk result (λ own. (label : List ℕ) → has_text labels.new label ≡ (is_text label own || has_text labels.old label)) }
    ensures utf8 { IfOk result IsUtf8Or }
{
    let Some(member) = member(value, "label") else {
        if needed {
            return Err(ObjectFault::missing(alloc, "label"));
        }
        return Ok(None);
    };
    let label = sized_str(alloc, member, 64, "label")?;
    Ok(Some(added_text(alloc, labels, label, "label")?))
}

#[tactic(auto, unfolding(crate::specs::Reading::text_of))]
fn flags_from(alloc: Global, items: &Vec<Value>) -> Result<Flags, ObjectFault>
    ensures { Gives OutOfMemory (λ f. f) result (flags_from [] false (items_view items.now.items)) }
{
    let mut seen = TextSet::new(alloc);
    let mut bearer = false;
    let mut repeated = false;
    for item in items {
        let Some(flag) = item.as_str() else {
            return Err(ObjectFault::wrong(alloc, "flags"));
        };
        let new = seen.insert(alloc, flag)?;
        repeated |= !new;
        bearer |= flag == "bearer";
    }
    Ok(Flags { bearer, repeated })
}

#[tactic(auto, unfolding(crate::specs::TokenRequests::flags_of))]
fn flags_of(alloc: Global, value: &Value) -> Result<Flags, ObjectFault>
    ensures { Gives OutOfMemory (λ f. f) result (flags_of (view value.now)) }
{
    let Some(member) = member(value, "flags") else {
        return Ok(Flags {
            bearer: false,
            repeated: false,
        });
    };
    let Some(items) = member.as_array() else {
        return Err(ObjectFault::wrong(alloc, "flags"));
    };
    flags_from(alloc, items)
}

#[tactic(auto, unfolding(crate::specs::TokenRequests::token_request_of))]
fn token_request_of(
    alloc: Global,
    value: &Value,
    needed: bool,
    labels: &mut TextSet,
    before: &Asks,
) -> Result<TokenRequest, ObjectFault>
    requires body { IsBody (view value.now) }
    requires labels { (label : List ℕ) → has_text labels.old label ≡ list_any (has_label label) before.now }
    ensures value { Gives OutOfMemory (λ t. t) result (token_request_of needed before.now (view value.now)) }
    ensures labels { IfOk result (λ t. (label : List ℕ) → has_text labels.new label ≡ (has_label label t.ask || has_text labels.old label)) }
    ensures fits { IfOk result (λ t. AskFits t.ask) }
{
    if !value.is_object() {
        return Err(ObjectFault::wrong(alloc, "access_token"));
    }
    let rights = access_of(alloc, value)?;
    let label = label_of(alloc, value, needed, labels, before)?;
    let flags = flags_of(alloc, value)?;
    Ok(TokenRequest {
        ask: Ask {
            label,
            rights,
            bearer: flags.bearer,
        },
        repeats_flag: flags.repeated,
    })
}

fn token_requests_from(alloc: Global, items: &Vec<Value>) -> Result<TokenRequests, ObjectFault>
    requires { AreBodies (items_view items.now.items) }
    ensures value { Gives OutOfMemory (λ t. t) result (token_requests_from [] false (items_view items.now.items)) }
    ensures fits { IfOk result (λ t. AllByRecursion AskFits t.asks) }
{
    let mut asks = Seq::new(alloc);
    let mut labels = TextSet::new(alloc);
    let mut repeats_flag = false;
    for item in items {
        let request = token_request_of(alloc, item, true, &mut labels, &asks)?;
        repeats_flag |= request.repeats_flag;
        asks.push(request.ask)?;
    }
    Ok(TokenRequests {
        asks,
        single: false,
        repeats_flag,
    })
}

fn single_request(alloc: Global, value: &Value) -> Result<TokenRequests, ObjectFault>
    requires { IsBody (view value.now) }
    ensures value { Gives OutOfMemory (λ t. t) result (single_request (view value.now)) }
    ensures few { IfOk result (λ t. length t.asks ≤ 8) }
    ensures fits { IfOk result (λ t. AllByRecursion AskFits t.asks) }
{
    let mut asks = Seq::new(alloc);
    let mut labels = TextSet::new(alloc);
    let request = token_request_of(alloc, value, false, &mut labels, &asks)?;
    asks.push(request.ask)?;
    Ok(TokenRequests {
        asks,
        single: true,
        repeats_flag: request.repeats_flag,
    })
}

/// The member `access_token` of a grant request: a token request, or an array of 1 to 8 of them with distinct labels; none where it is absent.
#[tactic(auto, unfolding(crate::specs::TokenRequests::token_requests_of))]
pub(crate) fn token_requests_of(alloc: Global, value: &Value) -> Result<TokenRequests, ObjectFault>
    requires { IsBody (view value.now) }
    ensures value { Gives OutOfMemory (λ t. t) result (token_requests_of (view value.now)) }
    ensures few { IfOk result (λ t. length t.asks ≤ 8) }
    ensures fits { IfOk result (λ t. AllByRecursion AskFits t.asks) }
{
    let Some(tokens) = member(value, "access_token") else {
        return Ok(TokenRequests {
            asks: Seq::new(alloc),
            single: false,
            repeats_flag: false,
        });
    };
    let Some(items) = tokens.as_array() else {
        return single_request(alloc, tokens);
    };
    let requests = token_requests_from(alloc, items)?;
    if requests.asks.len() == 0 {
        return Err(ObjectFault::wrong(alloc, "access_token"));
    }
    if 8 < requests.asks.len() {
        return Err(ObjectFault::too_many(alloc, "access_token"));
    }
    Ok(requests)
}
