//! Token requests as JSON (RFC 9635, section 2.1).
ghost use Rattle.std.specs.Prelude.{◌≡◌, IfOk, option_map, map};
ghost use Rattle.std.specs.List.{AllByRecursion};
ghost use Rattle.serde_json.specs.View.{view};
ghost use Rattle.gnap_objects.specs.Fits.{AskFits};
ghost use Rattle.grant_values.specs.TokenRequests.{asked_flags, token_request_data, token_requests_data};

use access_rights::rights_value;
use bytes_and_lists::memory::Mem;
use gnap_model::objects::Ask;
use json_objects::{Draft, lone_value, optional_value, word_value};
use serde_json::Value;
use std::alloc::Global;

fn asked_flags(alloc: Global, bearer: bool) -> Result<Option<Value>, Mem>
    ensures { IfOk result (λ v. option_map view v ≡ asked_flags bearer) }
{
    if !bearer {
        return Ok(None);
    }
    Ok(Some(lone_value(alloc, word_value(alloc, "bearer")?)?))
}

#[tactic(auto, unfolding(crate::specs::TokenRequests::token_request_data))]
fn token_request_value(alloc: Global, ask: &Ask) -> Result<Value, Mem>
    requires { AskFits ask.now }
    ensures { IfOk result (λ v. view v ≡ token_request_data ask.now) }
{
    Draft::new(alloc)
        .with_optional("label", optional_value(alloc, &ask.label))
        .with_optional("flags", asked_flags(alloc, ask.bearer))
        .with("access", rights_value(alloc, &ask.rights))
        .value()
}

fn each_token_request(alloc: Global, asks: &[Ask]) -> Result<Vec<Value>, Mem>
    requires { AllByRecursion AskFits asks.now }
    ensures { IfOk result (λ items. map view items.items ≡ map token_request_data asks.now) }
{
    let mut items = Vec::new(alloc);
    for ask in asks {
        items.push(token_request_value(alloc, ask)?)?;
    }
    Ok(items)
}

/// The value of the member `access_token`, where a token is asked for. A request that is alone stands outside an array where `single` says so.
pub fn token_requests_value(alloc: Global, single: bool, asks: &[Ask]) -> Result<Option<Value>, Mem>
    requires { AllByRecursion AskFits asks.now }
    ensures { IfOk result (λ v. option_map view v ≡ token_requests_data single asks.now) }
{
    match asks {
        [] => Ok(None),
        [ask] if single => Ok(Some(token_request_value(alloc, ask)?)),
        asks => Ok(Some(Value::Array(each_token_request(alloc, asks)?))),
    }
}
