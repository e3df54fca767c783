//! How that which was read of a JSON text is told. Texts stand between quotes, and what is absent is `none`.

use crate::objects::Refusal;
use bytes_and_lists::bytes::Bytes;
use gnap_model::objects::{
    Ask, Binding, DecideRequest, GrantRequest, IntrospectRequest, Modes, Setup, Verdict,
};
use gnap_objects::{ObjectFault, SetupFault};
use std::alloc::{AllocError, Global};

pub fn quoted(alloc: Global, text: &[u8]) -> Result<String, AllocError> {
    let text = str::from_utf8(text).unwrap_or("?");
    format!(in alloc; "\"{text}\"")
}

pub fn optional(alloc: Global, text: Option<&Bytes>) -> Result<String, AllocError> {
    match text {
        Some(text) => quoted(alloc, text.as_slice()),
        None => String::from_str(alloc, "none"),
    }
}

// Appends the number of rights, the label, and whether a bearer token is asked for.
fn push_ask(alloc: Global, text: &mut String, ask: &Ask) -> Result<(), AllocError> {
    let label = optional(alloc, ask.label.as_ref())?;
    let bearer = if ask.bearer { "bearer" } else { "bound" };
    let told = format!(in alloc; ": {} {label} {bearer}", ask.rights.len())?;
    text.push_str(told.as_str())
}

fn modes(alloc: Global, modes: &Modes) -> Result<String, AllocError> {
    let mut text = String::from_str(alloc, "ways")?;
    for (offered, way) in [
        (modes.redirect, " redirect"),
        (modes.user_code, " user_code"),
        (modes.user_code_uri, " user_code_uri"),
    ] {
        if offered {
            text.push_str(way)?;
        }
    }
    let Some(finish) = &modes.finish else {
        return Ok(text);
    };
    let method = if finish.push { "push" } else { "redirect" };
    let hash = if finish.long { "sha-512" } else { "sha-256" };
    let uri = quoted(alloc, finish.uri.as_slice())?;
    let nonce = quoted(alloc, finish.nonce.as_slice())?;
    format!(in alloc; "{text} then {method} {uri} {nonce} {hash}")
}

/// The client, the user and what else is asked, and then each token request.
pub fn request(alloc: Global, request: &GrantRequest) -> Result<String, AllocError> {
    let client = optional(alloc, request.client.as_ref())?;
    let named = if request.by_object {
        "by object"
    } else {
        "by id"
    };
    let subject = if request.subject { "opaque" } else { "none" };
    let user = optional(alloc, request.user.as_ref())?;
    let modes = match &request.modes {
        Some(offered) => modes(alloc, offered)?,
        None => String::from_str(alloc, "none")?,
    };
    let form = if request.single { "one" } else { "array" };
    let mut text = format!(in alloc;
        "client {client} {named}; subject {subject}; user {user}; interact {modes}; {form}"
    )?;
    for asked in request.asks.as_slice() {
        push_ask(alloc, &mut text, asked)?;
    }
    Ok(text)
}

pub fn introspection(alloc: Global, asked: &IntrospectRequest) -> Result<String, AllocError> {
    let value = quoted(alloc, asked.value.as_slice())?;
    let proof = match asked.binding {
        Some(Binding::Httpsig) => "httpsig",
        Some(Binding::Bearer) => "bearer",
        None => "none",
    };
    let server = quoted(alloc, asked.server.as_slice())?;
    match &asked.wanted {
        Some(rights) => { format!(in alloc; "{value} {proof} {server} {}", rights.len()) }
        None => format!(in alloc; "{value} {proof} {server} none"),
    }
}

pub fn decision(alloc: Global, decision: &DecideRequest) -> Result<String, AllocError> {
    let handle = quoted(alloc, decision.handle.as_slice())?;
    let verdict = match decision.verdict {
        Verdict::Grant => "grant",
        Verdict::Deny => "deny",
        Verdict::Unknown => "unknown",
    };
    let subject = optional(alloc, decision.subject.as_ref())?;
    match &decision.rights {
        Some(rights) => { format!(in alloc; "{handle} {verdict} {} {subject}", rights.len()) }
        None => format!(in alloc; "{handle} {verdict} none {subject}"),
    }
}

/// Both addresses and the number of keys.
pub fn setup(alloc: Global, setup: &Setup) -> Result<String, AllocError> {
    let base = quoted(alloc, setup.base.as_slice())?;
    let front = quoted(alloc, setup.front.as_slice())?;
    format!(in alloc; "{base} {front} {}", setup.keys.as_slice().len())
}

fn fault(alloc: Global, fault: &ObjectFault) -> Result<String, AllocError> {
    let (kind, name) = match fault {
        ObjectFault::Missing(name) => ("Missing", name.as_slice()),
        ObjectFault::Wrong(name) => ("Wrong", name.as_slice()),
        ObjectFault::TooMany(name) => ("TooMany", name.as_slice()),
        ObjectFault::Flag(name) => ("Flag", name.as_slice()),
        ObjectFault::Unknown(name) => ("Unknown", name.as_slice()),
        ObjectFault::OutOfMemory => return Err(AllocError),
    };
    let name = str::from_utf8(name).unwrap_or("?");
    format!(in alloc; "{kind} {name}")
}

pub fn refusal(alloc: Global, refusal: &Refusal) -> Result<String, AllocError> {
    match refusal {
        Refusal::NoObject | Refusal::Setup(SetupFault::NotJson) => {
            String::from_str(alloc, "no object")
        }
        Refusal::Object(found) | Refusal::Setup(SetupFault::InSetup(found)) => fault(alloc, found),
        Refusal::Setup(SetupFault::InKey(place, found)) => {
            let found = fault(alloc, found)?;
            format!(in alloc; "key {place}: {found}")
        }
        Refusal::Setup(SetupFault::OutOfMemory) | Refusal::OutOfMemory => Err(AllocError),
    }
}
