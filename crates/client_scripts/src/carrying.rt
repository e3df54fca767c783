//! Deeds, carried out over a link, and what is printed for them.
ghost use Rattle.std.specs.Prelude.{◌≡◌, ◌<◌, ◌^◌, ◌++◌, true, codes, IfOk, OnOk};
ghost use Rattle.message_signature.specs.Marks.{is_nonce};
ghost use Rattle.client_scripts.specs.Deeds.{DeedFits, Called, word_of, state_text, ok_text, fault_text, said_line};
ghost use Rattle.client_scripts.specs.Carrying.{CarriesStep};

use crate::deeds::{Deed, ScriptStep};
use bytes_and_lists::bytes::Bytes;
use bytes_and_lists::memory::Mem;
use gnap_client::{Client, ClientFault, State, Took};
use itoa::Buffer;
use outside::link::Link;
use std::alloc::Global;

fn call(client: &mut Client, step: &ScriptStep) -> Result<Bytes, ClientFault>
    requires at { step.now.at < 10 ^ 15 }
    requires nonce { is_nonce step.now.nonce ≡ true }
    requires deed { DeedFits step.now.deed }
    ensures { Called step.now client.old client.new result }
{
    let at = step.at;
    let nonce = &step.nonce;
    match &step.deed {
        Deed::Begin(request) => client.begin(at, nonce, request),
        Deed::Poll => client.poll(at, nonce),
        Deed::Finish { hash, reference } => {
            client.finish(at, nonce, hash.as_slice(), reference.as_slice())
        }
        Deed::Patch(request) => client.patch(at, nonce, request),
        Deed::Cancel => client.cancel(at, nonce),
        Deed::Rotate(token) => client.rotate(at, nonce, *token),
        Deed::Revoke(token) => client.revoke(at, nonce, *token),
        Deed::Use {
            token,
            method,
            path,
        } => client.use_token(at, nonce, *token, method.as_slice(), path.as_slice()),
    }
}

/// Has the client do what a line says: it makes the request, exchanges it once, and takes the reply.
pub fn carry_out<L: Link>(
    client: &mut Client,
    link: &mut L,
    step: &ScriptStep,
) -> Result<Took, ClientFault>
    requires at { step.now.at < 10 ^ 15 }
    requires nonce { is_nonce step.now.nonce ≡ true }
    requires deed { DeedFits step.now.deed }
    ensures { CarriesStep step.now (L.link link.old) (L.link link.new) client.old client.new result }
{
    match call(client, step) {
        Ok(request) => client.send(link, request.as_slice()),
        Err(fault) => Err(fault),
    }
}

fn word_of(deed: &Deed) -> &'static str
    ensures { result.now ≡ word_of deed.now }
{
    match deed {
        Deed::Begin(_) => "begin",
        Deed::Poll => "poll",
        Deed::Finish { .. } => "finish",
        Deed::Patch(_) => "patch",
        Deed::Cancel => "cancel",
        Deed::Rotate(_) => "rotate",
        Deed::Revoke(_) => "revoke",
        Deed::Use { .. } => "use",
    }
}

fn state_text(state: State) -> &'static str
    ensures { result.now ≡ state_text state }
{
    match state {
        State::Fresh => "Fresh",
        State::Pending => "Pending",
        State::Approved => "Approved",
        State::Ended => "Ended",
    }
}

fn push_state(out: &mut Bytes, state: State) -> Result<(), Mem>
    ensures { OnOk result (out.new ≡ out.old ++ (codes " ok " ++ state_text state)) }
{
    out.extend(b" ok ")?;
    out.extend(state_text(state).as_bytes())
}

fn push_ok(out: &mut Bytes, state: State, took: &Took) -> Result<(), Mem>
    ensures { OnOk result (out.new ≡ out.old ++ ok_text state took.now) }
{
    match took {
        Took::Resource { status, .. } => {
            out.extend(b" ok ")?;
            let mut buffer = Buffer::new();
            out.extend(buffer.format(*status).as_bytes())
        }
        Took::Granted => push_state(out, state),
        Took::Pending => push_state(out, state),
        Took::Continuing => push_state(out, state),
        Took::Rotated => push_state(out, state),
        Took::Done => push_state(out, state),
    }
}

fn push_fault(out: &mut Bytes, fault: &ClientFault) -> Result<(), Mem>
    ensures { OnOk result (out.new ≡ out.old ++ fault_text fault.now) }
{
    match fault {
        ClientFault::NotInGrammar => out.extend(b" NotInGrammar"),
        ClientFault::HashDiffers { .. } => out.extend(b" HashDiffers"),
        ClientFault::WrongState { .. } => out.extend(b" WrongState"),
        ClientFault::NoToken { .. } => out.extend(b" NoToken"),
        ClientFault::Refused { code } => {
            out.extend(b" refused ")?;
            out.extend(code.text().as_bytes())
        }
        ClientFault::LinkFault => out.extend(b" LinkFault"),
        ClientFault::OutOfMemory => Ok(()),
    }
}

/// The line that is printed for a deed: its word, and ` ok` with the client's state or a resource server's status; or ` refused` with the code of the
/// error; or the name of the fault.
pub fn said_line(
    alloc: Global,
    deed: &Deed,
    state: State,
    answer: &Result<Took, ClientFault>,
) -> Result<Bytes, Mem>
    ensures { IfOk result (λ b. b ≡ said_line deed.now state answer.now) }
{
    let mut out = Bytes::from_slice(alloc, word_of(deed).as_bytes())?;
    match answer {
        Ok(took) => push_ok(&mut out, state, took)?,
        Err(fault) => push_fault(&mut out, fault)?,
    }
    out.push(b'\n')?;
    Ok(out)
}
