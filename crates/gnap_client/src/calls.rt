//! The requests of a client, signed with a nonce (RFC 9635, sections 2, 5, 6 and 7.2; RFC 9421, section 2.3).
ghost use Rattle.std.specs.Prelude.{◌≡◌, ◌<◌, ◌^◌, true, Ok, Err, if◌then◌else◌, option_map, IfOk, IsUtf8};
ghost use Rattle.serde_json.specs.View.{view};
ghost use Rattle.json_objects.specs.Objects.{object_of};
ghost use Rattle.json_objects.specs.Reading.{Gives};
ghost use Rattle.gnap_objects.specs.Fits.{RequestFits};
ghost use Rattle.gnap_objects.specs.CallsFit.{ModesFitOr};
ghost use Rattle.message_signature.specs.Marks.{is_nonce};
ghost use Rattle.signed_requests.specs.Forms.{is_method, is_target};
ghost use Rattle.gnap_client.specs.declared.client.ClientFault.TheVariants.{OutOfMemory, WrongState};
ghost use Rattle.gnap_client.specs.Calls.{HasAsked, is_fresh, is_pending, is_approved, is_open, request_message, with_door, finish_asked, continuation, management, reference_fields, reference_body, begin_call, poll_call, patch_call, cancel_call, awaited_hash, checked_hash, awaits, own_hash, finish_call, token_at, rotate_call, revoke_call, scheme_for, use_call};

use crate::client::{Asked, Client, ClientFault, Received, State};
use bytes_and_lists::bytes::Bytes;
use bytes_and_lists::memory::{Duplicate, Mem};
use gnap_model::calls::TokenOut;
use gnap_model::objects::{Finish, GrantRequest, Modes};
use grant_values::grant_text;
use interaction::interaction_hash;
use json_objects::{Draft, compact_text, text_value};
use serde_json::Value;
use signed_requests::{Scheme, UnsignedRequest, marked_request};
use std::alloc::Global;

/// A request to the server with this base, and what is outstanding once it is made.
#[derive(Drop)]
pub struct DueRequest {
    pub base: Bytes,
    pub message: UnsignedRequest,
    pub asks: Asked,
}

fn is_fresh(state: State) -> bool
    ensures { result ≡ is_fresh state }
{
    matches!(state, State::Fresh)
}

fn is_pending(state: State) -> bool
    ensures { result ≡ is_pending state }
{
    matches!(state, State::Pending)
}

fn is_approved(state: State) -> bool
    ensures { result ≡ is_approved state }
{
    matches!(state, State::Approved)
}

fn is_open(state: State) -> bool
    ensures { result ≡ is_open state }
{
    is_pending(state) || is_approved(state)
}

fn in_state(so: bool, state: State) -> Result<(), ClientFault>
    ensures { result ≡ (if so then Ok tt else Err (WrongState state)) }
{
    if so {
        Ok(())
    } else {
        Err(ClientFault::WrongState { state })
    }
}

fn presented_copy(
    alloc: Global,
    presented: Option<(Scheme, &[u8])>,
) -> Result<Option<(Scheme, Bytes)>, Mem>
    ensures { IfOk result (λ p. p ≡ option_map (λ x. (x.0, x.1.now)) presented.entry) }
{
    match presented {
        Some((scheme, value)) => Ok(Some((scheme, Bytes::from_slice(alloc, value)?))),
        None => Ok(None),
    }
}

fn request_message(
    alloc: Global,
    method: &[u8],
    target: &[u8],
    presented: Option<(Scheme, &[u8])>,
    body: Bytes,
) -> Result<UnsignedRequest, Mem>
    ensures { IfOk result (λ m. m ≡ request_message method.now target.now (option_map (λ x. (x.0, x.1.now)) presented.entry) body) }
{
    let presented = presented_copy(alloc, presented)?;
    Ok(UnsignedRequest {
        method: Bytes::from_slice(alloc, method)?,
        target: Bytes::from_slice(alloc, target)?,
        presented,
        body,
    })
}

fn due_request(
    alloc: Global,
    base: &Bytes,
    method: &[u8],
    target: &[u8],
    presented: Option<(Scheme, &[u8])>,
    body: Bytes,
    asks: Asked,
) -> Result<DueRequest, ClientFault>
    ensures { Gives OutOfMemory (λ r. r) result (Ok (record {
      base = base.now;
      message = request_message method.now target.now (option_map (λ x. (x.0, x.1.now)) presented.entry) body;
      asks = asks;
    })) }
{
    let message = request_message(alloc, method, target, presented, body)?;
    Ok(DueRequest {
        base: base.copy()?,
        message,
        asks,
    })
}

fn with_door(received: &Received) -> Option<(Scheme, &[u8])>
    ensures { option_map (λ p. (p.0, p.1.now)) result ≡ with_door received.now }
{
    match &received.door {
        Some(door) => Some((Scheme::Gnap, door.as_slice())),
        None => None,
    }
}

fn finish_asked(modes: &Option<Modes>) -> Result<Option<Finish>, Mem>
    ensures { IfOk result (λ f. f ≡ finish_asked modes.now) }
{
    match modes {
        Some(modes) => modes.finish.copy(),
        None => Ok(None),
    }
}

fn reference_value(alloc: Global, reference: &[u8]) -> Result<Value, Mem>
    requires { IsUtf8 reference.now }
    ensures { IfOk result (λ v. view v ≡ object_of (reference_fields reference.now)) }
{
    Draft::new(alloc)
        .with("interact_ref", text_value(alloc, reference))
        .value()
}

#[tactic(auto, using(crate::proofs::References::reference_whole))]
fn reference_body(alloc: Global, reference: &[u8]) -> Result<Bytes, Mem>
    requires { IsUtf8 reference.now }
    ensures { IfOk result (λ b. b ≡ reference_body reference.now) }
{
    compact_text(alloc, &reference_value(alloc, reference)?)
}

// The finish that was asked for and the server's nonce, while the client is pending.
fn awaits(received: &Received) -> Option<(&Finish, &Bytes)>
    ensures { option_map (λ b. (b.0.now, b.1.now)) result ≡ awaits received.now }
{
    if !is_pending(received.state) {
        return None;
    }
    let Some(finish) = &received.finish else {
        return None;
    };
    let Some(interaction) = &received.interaction else {
        return None;
    };
    let Some(nonce) = &interaction.nonce else {
        return None;
    };
    Some((finish, nonce))
}

fn awaited_hash(
    alloc: Global,
    server: &Bytes,
    finish: &Finish,
    nonce: &Bytes,
    reference: &[u8],
) -> Result<Bytes, Mem>
    ensures { IfOk result (λ b. b ≡ awaited_hash server.now (finish.now, nonce.now) reference.now) }
{
    let mut endpoint = server.copy()?;
    endpoint.extend(b"/gnap")?;
    interaction_hash(
        alloc,
        finish.long,
        finish.nonce.as_slice(),
        nonce.as_slice(),
        reference,
        endpoint.as_slice(),
    )
}

fn checked_hash(alloc: Global, wanted: Bytes, hash: &[u8]) -> Result<Bytes, ClientFault>
    ensures { Gives OutOfMemory (λ b. b) result (checked_hash wanted hash.now) }
{
    if wanted.as_slice() == hash {
        return Ok(wanted);
    }
    let found = Bytes::from_slice(alloc, hash)?;
    Err(ClientFault::HashDiffers { wanted, found })
}

fn token_at(received: &Received, i: usize) -> Result<&TokenOut, ClientFault>
    ensures { Gives OutOfMemory (λ t. t.now) result (token_at received.now i) }
{
    if !is_approved(received.state) {
        return Err(ClientFault::WrongState {
            state: received.state,
        });
    }
    if received.tokens.len() <= i {
        return Err(ClientFault::NoToken {
            held: received.tokens.len(),
        });
    }
    Ok(received.tokens.at(i))
}

fn scheme_for(token: &TokenOut) -> Scheme
    ensures { result ≡ scheme_for token.now }
{
    if token.bearer {
        Scheme::Bearer
    } else {
        Scheme::Gnap
    }
}

// What each call asks for.
impl Client {
    // A request to continue the grant, with what it asks for.
    fn continuation(
        &self,
        method: &[u8],
        body: Bytes,
        asks: Asked,
    ) -> Result<DueRequest, ClientFault>
        ensures { Gives OutOfMemory (λ r. r) result (Ok (continuation self.now method.now body asks)) }
    {
        due_request(
            self.alloc,
            &self.config.server,
            method,
            b"/continue",
            with_door(&self.received),
            body,
            asks,
        )
    }

    // A request to manage this token.
    fn management(
        &self,
        method: &[u8],
        token: &TokenOut,
        asks: Asked,
    ) -> Result<DueRequest, ClientFault>
        ensures { Gives OutOfMemory (λ r. r) result (Ok (management self.now method.now token.now asks)) }
    {
        due_request(
            self.alloc,
            &self.config.server,
            method,
            b"/token",
            Some((Scheme::Gnap, token.manage.as_slice())),
            Bytes::new(self.alloc),
            asks,
        )
    }

    #[tactic(auto, unfolding(crate::specs::Calls::begin_call))]
    fn begin_call(&self, request: &GrantRequest) -> Result<DueRequest, ClientFault>
        requires fits { RequestFits request.now }
        requires modes { ModesFitOr request.now.modes }
        ensures { Gives OutOfMemory (λ r. r) result (begin_call self.now request.now) }
    {
        let alloc = self.alloc;
        in_state(is_fresh(self.received.state), self.received.state)?;
        let body = grant_text(alloc, request)?;
        let finish = finish_asked(&request.modes)?;
        due_request(
            alloc,
            &self.config.server,
            b"POST",
            b"/gnap",
            None,
            body,
            Asked::Grant { finish },
        )
    }

    #[tactic(auto, unfolding(crate::specs::Calls::poll_call))]
    fn poll_call(&self) -> Result<DueRequest, ClientFault>
        ensures { Gives OutOfMemory (λ r. r) result (poll_call self.now) }
    {
        in_state(is_open(self.received.state), self.received.state)?;
        self.continuation(b"POST", Bytes::new(self.alloc), Asked::Continuation)
    }

    #[tactic(auto, unfolding(crate::specs::Calls::patch_call))]
    fn patch_call(&self, request: &GrantRequest) -> Result<DueRequest, ClientFault>
        requires fits { RequestFits request.now }
        requires modes { ModesFitOr request.now.modes }
        ensures { Gives OutOfMemory (λ r. r) result (patch_call self.now request.now) }
    {
        in_state(is_open(self.received.state), self.received.state)?;
        let body = grant_text(self.alloc, request)?;
        let finish = finish_asked(&request.modes)?;
        self.continuation(b"PATCH", body, Asked::Grant { finish })
    }

    #[tactic(auto, unfolding(crate::specs::Calls::cancel_call))]
    fn cancel_call(&self) -> Result<DueRequest, ClientFault>
        ensures { Gives OutOfMemory (λ r. r) result (cancel_call self.now) }
    {
        in_state(is_open(self.received.state), self.received.state)?;
        self.continuation(b"DELETE", Bytes::new(self.alloc), Asked::Cancellation)
    }

    // The hash of the interaction with this reference, where it is this one.
    fn own_hash(&self, hash: &[u8], reference: &[u8]) -> Result<Bytes, ClientFault>
        ensures { Gives OutOfMemory (λ b. b) result (own_hash self.now hash.now reference.now) }
    {
        let Some((finish, nonce)) = awaits(&self.received) else {
            return Err(ClientFault::WrongState {
                state: self.received.state,
            });
        };
        let wanted = awaited_hash(self.alloc, &self.config.server, finish, nonce, reference)?;
        checked_hash(self.alloc, wanted, hash)
    }

    #[tactic(auto, unfolding(crate::specs::Calls::finish_call))]
    fn finish_call(&self, hash: &[u8], reference: &[u8]) -> Result<DueRequest, ClientFault>
        requires { IsUtf8 reference.now }
        ensures { Gives OutOfMemory (λ r. r) result (finish_call self.now hash.now reference.now) }
    {
        let _same = self.own_hash(hash, reference)?;
        let body = reference_body(self.alloc, reference)?;
        self.continuation(b"POST", body, Asked::Continuation)
    }

    #[tactic(auto, unfolding(crate::specs::Calls::rotate_call))]
    fn rotate_call(&self, i: usize) -> Result<DueRequest, ClientFault>
        ensures { Gives OutOfMemory (λ r. r) result (rotate_call self.now i) }
    {
        let token = token_at(&self.received, i)?;
        self.management(b"POST", token, Asked::Rotation { token: i })
    }

    #[tactic(auto, unfolding(crate::specs::Calls::revoke_call))]
    fn revoke_call(&self, i: usize) -> Result<DueRequest, ClientFault>
        ensures { Gives OutOfMemory (λ r. r) result (revoke_call self.now i) }
    {
        let token = token_at(&self.received, i)?;
        self.management(b"DELETE", token, Asked::Revocation)
    }

    #[tactic(auto, unfolding(crate::specs::Calls::use_call))]
    fn use_call(&self, i: usize, method: &[u8], path: &[u8]) -> Result<DueRequest, ClientFault>
        ensures { Gives OutOfMemory (λ r. r) result (use_call self.now i method.now path.now) }
    {
        let token = token_at(&self.received, i)?;
        due_request(
            self.alloc,
            &self.config.resource,
            method,
            path,
            Some((scheme_for(token), token.value.as_slice())),
            Bytes::new(self.alloc),
            Asked::Resource,
        )
    }

    // Signs the request with this nonce, and makes it the outstanding one. An `Err` changes nothing.
    fn ask(&mut self, now: u64, nonce: &Bytes, request: DueRequest) -> Result<Bytes, ClientFault>
        requires now { now < 10 ^ 15 }
        requires nonce { is_nonce nonce.now ≡ true }
        ensures { HasAsked (Ok request) now nonce.now self.old self.new result }
    {
        let DueRequest {
            base,
            message,
            asks,
        } = request;
        let config = &self.config;
        let bytes = marked_request(
            self.alloc,
            &base,
            &config.id,
            &config.secret,
            now,
            nonce,
            message,
        )?;
        self.asked = Some(asks);
        Ok(bytes)
    }
}

impl Client {
    /// The grant request. `WrongState` comes exactly where something was asked for already.
    ///
    /// As for every call here, `now` is in seconds since 1970, and the nonce, by which the server knows a second use of the request, has 1 to 64 letters,
    /// digits, `.`, `_` or `-`; on Ok this is the outstanding request in place of an older one, and an `Err` changes nothing.
    pub fn begin(
        &mut self,
        now: u64,
        nonce: &Bytes,
        request: &GrantRequest,
    ) -> Result<Bytes, ClientFault>
        requires now { now < 10 ^ 15 }
        requires nonce { is_nonce nonce.now ≡ true }
        requires fits { RequestFits request.now }
        requires modes { ModesFitOr request.now.modes }
        ensures { HasAsked (begin_call self.old request.now) now nonce.now self.old self.new result }
    {
        let request = self.begin_call(request)?;
        self.ask(now, nonce, request)
    }

    /// A continuation without an interaction reference. `WrongState` comes exactly where the grant is neither pending nor approved.
    pub fn poll(&mut self, now: u64, nonce: &Bytes) -> Result<Bytes, ClientFault>
        requires now { now < 10 ^ 15 }
        requires nonce { is_nonce nonce.now ≡ true }
        ensures { HasAsked (poll_call self.old) now nonce.now self.old self.new result }
    {
        let request = self.poll_call()?;
        self.ask(now, nonce, request)
    }

    /// A modification. `WrongState` comes exactly where the grant is neither pending nor approved.
    pub fn patch(
        &mut self,
        now: u64,
        nonce: &Bytes,
        request: &GrantRequest,
    ) -> Result<Bytes, ClientFault>
        requires now { now < 10 ^ 15 }
        requires nonce { is_nonce nonce.now ≡ true }
        requires fits { RequestFits request.now }
        requires modes { ModesFitOr request.now.modes }
        ensures { HasAsked (patch_call self.old request.now) now nonce.now self.old self.new result }
    {
        let request = self.patch_call(request)?;
        self.ask(now, nonce, request)
    }

    /// The grant's cancellation. `WrongState` comes exactly where the grant is neither pending nor approved.
    pub fn cancel(&mut self, now: u64, nonce: &Bytes) -> Result<Bytes, ClientFault>
        requires now { now < 10 ^ 15 }
        requires nonce { is_nonce nonce.now ≡ true }
        ensures { HasAsked (cancel_call self.old) now nonce.now self.old self.new result }
    {
        let request = self.cancel_call()?;
        self.ask(now, nonce, request)
    }

    /// A continuation with the interaction reference, where the hash is that of this interaction (RFC 9635, section 4.2.3).
    ///
    /// `WrongState` comes exactly where the grant isn't pending, or the interaction has no finish; then `HashDiffers` exactly where the hash is another
    /// one.
    pub fn finish(
        &mut self,
        now: u64,
        nonce: &Bytes,
        hash: &[u8],
        reference: &[u8],
    ) -> Result<Bytes, ClientFault>
        requires now { now < 10 ^ 15 }
        requires nonce { is_nonce nonce.now ≡ true }
        requires reference { IsUtf8 reference.now }
        ensures { HasAsked (finish_call self.old hash.now reference.now) now nonce.now self.old self.new result }
    {
        let request = self.finish_call(hash, reference)?;
        self.ask(now, nonce, request)
    }

    /// The rotation of a token, by its place, counted from 0.
    ///
    /// `WrongState` comes exactly where the grant isn't approved; then `NoToken` exactly where there is no such place.
    pub fn rotate(&mut self, now: u64, nonce: &Bytes, i: usize) -> Result<Bytes, ClientFault>
        requires now { now < 10 ^ 15 }
        requires nonce { is_nonce nonce.now ≡ true }
        ensures { HasAsked (rotate_call self.old i) now nonce.now self.old self.new result }
    {
        let request = self.rotate_call(i)?;
        self.ask(now, nonce, request)
    }

    /// The revocation of a token, by its place, with the faults of `rotate`.
    pub fn revoke(&mut self, now: u64, nonce: &Bytes, i: usize) -> Result<Bytes, ClientFault>
        requires now { now < 10 ^ 15 }
        requires nonce { is_nonce nonce.now ≡ true }
        ensures { HasAsked (revoke_call self.old i) now nonce.now self.old self.new result }
    {
        let request = self.revoke_call(i)?;
        self.ask(now, nonce, request)
    }

    /// A request without a body to the resource server that presents a token, by its place, with the faults of `rotate`.
    pub fn use_token(
        &mut self,
        now: u64,
        nonce: &Bytes,
        i: usize,
        method: &[u8],
        path: &[u8],
    ) -> Result<Bytes, ClientFault>
        requires now { now < 10 ^ 15 }
        requires nonce { is_nonce nonce.now ≡ true }
        requires method { is_method method.now ≡ true }
        requires path { is_target path.now ≡ true }
        ensures { HasAsked (use_call self.old i method.now path.now) now nonce.now self.old self.new result }
    {
        let request = self.use_call(i, method, path)?;
        self.ask(now, nonce, request)
    }
}
