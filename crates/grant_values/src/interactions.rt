//! The ways to interact with the user that a client offers, as JSON (RFC 9635, section 2.5).
ghost use Rattle.std.specs.Prelude.{◌≡◌, ◌++◌, IfOk, OnOk, option_map, map};
ghost use Rattle.serde_json.specs.Data.{string};
ghost use Rattle.serde_json.specs.View.{view};
ghost use Rattle.json_objects.specs.Objects.{texts_data};
ghost use Rattle.gnap_objects.specs.CallsFit.{FinishFits, FinishFitsOr, ModesFit, ModesFitOr};
ghost use Rattle.grant_values.specs.Interactions.{finish_method, hash_method_data, finish_data, listed_if, starts_of, modes_data};

use bytes_and_lists::memory::Mem;
use gnap_model::objects::{Finish, Modes};
use json_objects::{Draft, text_value, word_value};
use serde_json::Value;
use std::alloc::Global;

fn hash_method_value(alloc: Global, long: bool) -> Result<Option<Value>, Mem>
    ensures { IfOk result (λ v. option_map view v ≡ hash_method_data long) }
{
    if !long {
        return Ok(None);
    }
    Ok(Some(word_value(alloc, "sha-512")?))
}

fn finish_method(push: bool) -> &'static str
    ensures { result.now ≡ finish_method push }
{
    if push { "push" } else { "redirect" }
}

#[tactic(auto, unfolding(crate::specs::Interactions::finish_data), using(interaction::proofs::WebUrls::uri_is_utf8))]
fn finish_value(alloc: Global, finish: &Finish) -> Result<Value, Mem>
    requires { FinishFits finish.now }
    ensures { IfOk result (λ v. view v ≡ finish_data finish.now) }
{
    Draft::new(alloc)
        .with("uri", text_value(alloc, finish.uri.as_slice()))
        .with("nonce", text_value(alloc, finish.nonce.as_slice()))
        .with("method", word_value(alloc, finish_method(finish.push)))
        .with_optional("hash_method", hash_method_value(alloc, finish.long))
        .value()
}

fn optional_finish(alloc: Global, finish: &Option<Finish>) -> Result<Option<Value>, Mem>
    requires { FinishFitsOr finish.now }
    ensures { IfOk result (λ v. option_map view v ≡ option_map finish_data finish.now) }
{
    match finish {
        None => Ok(None),
        Some(finish) => Ok(Some(finish_value(alloc, finish)?)),
    }
}

fn push_if(alloc: Global, starts: &mut Vec<Value>, offered: bool, mode: &str) -> Result<(), Mem>
    ensures { OnOk result (map view starts.new.items
        ≡ map view starts.old.items ++ map string (listed_if offered mode.now)) }
{
    if offered {
        starts.push(word_value(alloc, mode)?)?;
    }
    Ok(())
}

fn starts_value(alloc: Global, modes: &Modes) -> Result<Value, Mem>
    ensures { IfOk result (λ v. view v ≡ texts_data (starts_of modes.now)) }
{
    let mut starts = Vec::new(alloc);
    push_if(alloc, &mut starts, modes.redirect, "redirect")?;
    push_if(alloc, &mut starts, modes.user_code, "user_code")?;
    push_if(alloc, &mut starts, modes.user_code_uri, "user_code_uri")?;
    Ok(Value::Array(starts))
}

#[tactic(auto, unfolding(crate::specs::Interactions::modes_data))]
fn modes_value(alloc: Global, modes: &Modes) -> Result<Value, Mem>
    requires { ModesFit modes.now }
    ensures { IfOk result (λ v. view v ≡ modes_data modes.now) }
{
    Draft::new(alloc)
        .with("start", starts_value(alloc, modes))
        .with_optional("finish", optional_finish(alloc, &modes.finish))
        .value()
}

/// The value of the member `interact`, where ways to interact are offered.
pub fn optional_modes(alloc: Global, modes: &Option<Modes>) -> Result<Option<Value>, Mem>
    requires { ModesFitOr modes.now }
    ensures { IfOk result (λ v. option_map view v ≡ option_map modes_data modes.now) }
{
    match modes {
        None => Ok(None),
        Some(modes) => Ok(Some(modes_value(alloc, modes)?)),
    }
}
