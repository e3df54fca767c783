//! Tokens in replies (RFC 9635, section 3.2).
ghost use Rattle.serde_json.specs.View.{view, items_view};
ghost use Rattle.json_objects.specs.Bodies.{IsBody, AreBodies};
ghost use Rattle.json_objects.specs.Reading.{Gives, each};
ghost use Rattle.reply_readers.specs.declared.members.FormFault.TheVariants.{OutOfMemory};
ghost use Rattle.reply_readers.specs.Members.{Tells};
ghost use Rattle.reply_readers.specs.Grants.{manage_of, token_of, tokens_in, tokens_of, some_tokens};

use crate::members::{
    FormFault, bearer_of, needed_drawn, needed_number, needed_rights, needed_str, optional_copied,
    optional_str,
};
use bytes_and_lists::seq::Seq;
use gnap_model::calls::{TokenOut, Tokens};
use json_objects::member;
use serde_json::Value;
use std::alloc::Global;

#[tactic(auto, unfolding(crate::specs::Grants::manage_of))]
fn manage_of(value: &Value) -> Option<[u8; 32]>
    ensures { Tells (λ v. v) result (manage_of (view value.now)) }
{
    let manage = member(value, "manage")?;
    let token = member(manage, "access_token")?;
    let _uri = needed_str(manage, "uri")?;
    needed_drawn(token, "value")
}

#[tactic(auto, unfolding(crate::specs::Grants::token_of))]
pub(crate) fn token_of(alloc: Global, value: &Value) -> Result<TokenOut, FormFault>
    requires { IsBody (view value.now) }
    ensures { Gives OutOfMemory (λ t. t) result (token_of (view value.now)) }
{
    let Some(expires_in) = needed_number(value, "expires_in") else {
        return Err(FormFault::NotOfForm);
    };
    let Some(bearer) = bearer_of(value) else {
        return Err(FormFault::NotOfForm);
    };
    let Some(label) = optional_str(value, "label") else {
        return Err(FormFault::NotOfForm);
    };
    let Some(manage) = manage_of(value) else {
        return Err(FormFault::NotOfForm);
    };
    let Some(drawn) = needed_drawn(value, "value") else {
        return Err(FormFault::NotOfForm);
    };
    let label = optional_copied(alloc, label)?;
    let rights = needed_rights(alloc, value, "access")?;
    Ok(TokenOut {
        value: drawn,
        manage,
        label,
        rights,
        expires_in,
        bearer,
    })
}

fn tokens_from(alloc: Global, items: &Vec<Value>) -> Result<Tokens, FormFault>
    requires { AreBodies (items_view items.now.items) }
    ensures { Gives OutOfMemory (λ t. t) result (each token_of (items_view items.now.items)) }
{
    let mut tokens = Seq::new(alloc);
    for item in items {
        tokens.push(token_of(alloc, item)?)?;
    }
    Ok(tokens)
}

fn some_tokens(tokens: Tokens) -> Result<Tokens, FormFault>
    ensures { Gives OutOfMemory (λ t. t) result (some_tokens tokens) }
{
    if tokens.len() == 0 {
        return Err(FormFault::NotOfForm);
    }
    Ok(tokens)
}

#[tactic(auto, unfolding(crate::specs::Grants::tokens_in))]
fn tokens_in(alloc: Global, value: &Value) -> Result<Tokens, FormFault>
    requires { IsBody (view value.now) }
    ensures { Gives OutOfMemory (λ t. t) result (tokens_in (view value.now)) }
{
    match value.as_array() {
        Some(items) => some_tokens(tokens_from(alloc, items)?),
        None => {
            let mut tokens = Seq::new(alloc);
            tokens.push(token_of(alloc, value)?)?;
            Ok(tokens)
        }
    }
}

#[tactic(auto, unfolding(crate::specs::Grants::tokens_of))]
pub(crate) fn tokens_of(alloc: Global, value: &Value) -> Result<Tokens, FormFault>
    requires { IsBody (view value.now) }
    ensures { Gives OutOfMemory (λ t. t) result (tokens_of (view value.now)) }
{
    match member(value, "access_token") {
        None => Ok(Seq::new(alloc)),
        Some(member) => tokens_in(alloc, member),
    }
}
