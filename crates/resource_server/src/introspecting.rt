//! The introspection of a token: its question, and how it is asked.
ghost use Rattle.std.specs.Prelude.{◌≡◌, ◌<◌, ◌^◌, [], ◌∷◌, Some, IfOk, IsUtf8};
ghost use Rattle.std.specs.List.{AllByRecursion};
ghost use Rattle.serde_json.specs.Data.{string};
ghost use Rattle.serde_json.specs.View.{view};
ghost use Rattle.access_rights.specs.Fits.{Fits};
ghost use Rattle.resource_server.specs.Fits.{RsSetupFits};
ghost use Rattle.resource_server.specs.Introspecting.{proof_of, introspection_data, introspection_text, introspection, introspection_bytes, IsAsked};

use crate::setup::{Route, RsSetup};
use access_rights::printing::rights_value;
use bytes_and_lists::bytes::Bytes;
use bytes_and_lists::memory::{Duplicate, Mem};
use bytes_and_lists::seq::Seq;
use gnap_model::rights::Rights;
use json_objects::{Draft, compact_text, text_value, word_value};
use outside::link::{Link, LinkFault};
use serde_json::Value;
use signed_requests::{Scheme, UnsignedRequest, signed_request};
use std::alloc::Global;

/// The right of a route, alone.
pub fn wanted_of(alloc: Global, route: &Route) -> Result<Rights, Mem>
    requires { Fits route.now.right }
    ensures value { IfOk result (λ r. r ≡ route.now.right ∷ []) }
    ensures fits { IfOk result (AllByRecursion Fits) }
{
    let right = route.right.copy()?;
    let mut wanted = Seq::new(alloc);
    wanted.push(right)?;
    Ok(wanted)
}

fn proof_of(scheme: Scheme) -> &'static str
    ensures { result.now ≡ proof_of scheme }
{
    match scheme {
        Scheme::Gnap => "httpsig",
        Scheme::Bearer => "bearer",
    }
}

fn proof_value(alloc: Global, scheme: Scheme) -> Result<Value, Mem>
    ensures { IfOk result (λ v. view v ≡ string (proof_of scheme)) }
{
    word_value(alloc, proof_of(scheme))
}

#[tactic(auto, unfolding(crate::specs::Introspecting::introspection_data))]
fn introspection_value(
    alloc: Global,
    id: &Bytes,
    wanted: &Rights,
    scheme: Scheme,
    value: &[u8],
) -> Result<Value, Mem>
    requires id { IsUtf8 id.now }
    requires wanted { AllByRecursion Fits wanted.now }
    requires value { IsUtf8 value.now }
    ensures { IfOk result (λ v. view v ≡ introspection_data id.now wanted.now (scheme, value.now)) }
{
    Draft::new(alloc)
        .with("resource_server", text_value(alloc, id.as_slice()))
        .with("proof", proof_value(alloc, scheme))
        .with("access_token", text_value(alloc, value))
        .with("access", rights_value(alloc, wanted))
        .value()
}

/// The question about a token with this value, presented so, for these rights: the body of its introspection (RFC 9767, section 3.3).
#[tactic(auto, using(crate::proofs::Shown::introspection_whole))]
pub fn introspection_text(
    alloc: Global,
    setup: &RsSetup,
    wanted: &Rights,
    scheme: Scheme,
    value: &[u8],
) -> Result<Bytes, Mem>
    requires setup { RsSetupFits setup.now }
    requires wanted { AllByRecursion Fits wanted.now }
    requires value { IsUtf8 value.now }
    ensures { IfOk result (λ b. b ≡ introspection_text setup.now.id wanted.now (scheme, value.now)) }
{
    let body = introspection_value(alloc, &setup.id, wanted, scheme, value)?;
    compact_text(alloc, &body)
}

fn introspection(alloc: Global, text: Bytes) -> Result<UnsignedRequest, Mem>
    ensures { IfOk result (λ m. m ≡ introspection text) }
{
    Ok(UnsignedRequest {
        method: Bytes::from_slice(alloc, b"POST")?,
        target: Bytes::from_slice(alloc, b"/introspect")?,
        presented: None,
        body: text,
    })
}

// The bytes of the signed request with this question.
fn introspection_bytes(alloc: Global, setup: &RsSetup, now: u64, text: Bytes) -> Result<Bytes, Mem>
    requires setup { RsSetupFits setup.now }
    requires now { now < 10 ^ 15 }
    ensures { IfOk result (λ b. introspection_bytes setup.now now text ≡ Some b) }
{
    let request = introspection(alloc, text)?;
    signed_request(alloc, &setup.server, &setup.id, &setup.secret, now, request)
}

/// The reply to the question, which is signed at this moment, in seconds since 1970, and exchanged over the link. Want of memory leaves the link as it was.
#[tactic(auto, using(crate::proofs::Asking::never_sent))]
pub fn ask<L: Link>(
    alloc: Global,
    setup: &RsSetup,
    link: &mut L,
    now: u64,
    text: Bytes,
) -> Result<Bytes, LinkFault>
    requires setup { RsSetupFits setup.now }
    requires now { now < 10 ^ 15 }
    ensures { IsAsked setup.now now text (L.link link.old) (L.link link.new) result }
{
    let Ok(request) = introspection_bytes(alloc, setup, now, text) else {
        return Err(LinkFault::OutOfMemory);
    };
    link.exchange(request.as_slice())
}
