//! What goes out for a reply.
ghost use Rattle.std.specs.Prelude.{◌≡◌, IfOk, IfSome, IsUtf8, option_map};
ghost use Rattle.serde_json.specs.Written.{compact_text};
ghost use Rattle.gnap_model.specs.declared.objects.Setup.{Setup};
ghost use Rattle.gnap_objects.specs.CallsFit.{ReplyFits};
ghost use Rattle.gnap_replies.specs.Printing.{Printed, then_value, HasPrinted};
ghost use Rattle.gnap_replies.specs.Responses.{response_of, error_response, text_of};

use crate::errors::print_error_body;
use crate::grants::{print_continuing, print_granted, print_pending, print_rotated};
use crate::interactions::{print_decided, print_handle, print_shown};
use crate::introspections::{print_active, print_inactive};
use crate::printer::Printer;
use bytes_and_lists::bytes::Bytes;
use bytes_and_lists::memory::Mem;
use gnap_model::calls::Reply;
use gnap_model::objects::{ErrorCode, Setup};
use std::alloc::Global;

#[tactic(auto, unfolding(crate::specs::Responses::response_of))]
fn status(reply: &Reply) -> u16
    ensures { (setup : Setup) → (response_of setup reply.now).status ≡ result }
{
    match reply {
        Reply::Granted { .. }
        | Reply::Pending { .. }
        | Reply::Continuing { .. }
        | Reply::Rotated { .. }
        | Reply::Active { .. }
        | Reply::Inactive
        | Reply::Shown { .. }
        | Reply::Handle { .. }
        | Reply::Decided { .. } => 200,
        Reply::Done => 204,
        Reply::Error { code } => code.status(),
        Reply::Lapsed => 503,
    }
}

#[tactic(auto, unfolding(crate::specs::Responses::response_of))]
fn print_body(alloc: Global, out: &mut Printer, setup: &Setup, reply: &Reply)
    requires base { IsUtf8 setup.now.base }
    requires front { IsUtf8 setup.now.front }
    requires reply { ReplyFits reply.now }
    ensures { IfSome (response_of setup.now reply.now).body
        (λ d. (p : Printed) → HasPrinted out.old p → HasPrinted out.new (then_value p (compact_text d))) }
{
    let base = setup.base.as_slice();
    match reply {
        Reply::Granted {
            door,
            tokens,
            single,
            subject,
            instance,
        } => {
            let tokens = tokens.as_slice();
            print_granted(
                alloc,
                out,
                base,
                door.as_slice(),
                tokens,
                *single,
                subject,
                instance,
            )
        }
        Reply::Pending {
            door,
            modes,
            handle,
            code,
            nonce,
            expires_in,
            instance,
        } => {
            print_pending(
                alloc,
                out,
                base,
                setup.front.as_slice(),
                door.as_slice(),
                modes.get(),
                handle.as_slice(),
                code.as_slice(),
                nonce.as_slice(),
                *expires_in,
                instance,
            )
        }
        Reply::Continuing { door } => print_continuing(alloc, out, base, door.as_slice()),
        Reply::Rotated { token } => print_rotated(alloc, out, base, token),
        Reply::Active {
            access,
            iat,
            exp,
            instance,
            bearer,
        } => print_active(
            alloc,
            out,
            base,
            access,
            *iat,
            *exp,
            instance.as_slice(),
            *bearer,
        ),
        Reply::Inactive => print_inactive(out),
        Reply::Shown {
            asks,
            client,
            expires_in,
            subject,
            user,
        } => {
            let asks = asks.as_slice();
            print_shown(
                alloc,
                out,
                asks,
                client.as_slice(),
                *expires_in,
                *subject,
                user,
            )
        }
        Reply::Handle { handle } => print_handle(out, handle.as_slice()),
        Reply::Decided { finish } => print_decided(alloc, out, base, finish),
        Reply::Error { code } => print_error_body(out, *code),
        Reply::Done | Reply::Lapsed => {}
    }
}

/// The status of a reply and the text of its body, a compact JSON object whose members stand in the ascending byte order of their names. `Done` (204) and
/// `Lapsed` (503) have no body.
#[tactic(auto, unfolding(crate::specs::Responses::response_of))]
pub fn print_reply(alloc: Global, setup: &Setup, reply: &Reply) -> Result<(u16, Option<Bytes>), Mem>
    requires base { IsUtf8 setup.now.base }
    requires front { IsUtf8 setup.now.front }
    requires reply { ReplyFits reply.now }
    ensures { IfOk result (λ printed. printed ≡ text_of (response_of setup.now reply.now)) }
{
    let status = status(reply);
    if let Reply::Done | Reply::Lapsed = reply {
        return Ok((status, None));
    }
    let mut out = Printer::new(alloc);
    print_body(alloc, &mut out, setup, reply);
    Ok((status, Some(out.into_bytes()?)))
}

/// The same of an error that no call of the machine has given.
pub fn print_error(alloc: Global, code: ErrorCode) -> Result<(u16, Option<Bytes>), Mem>
    ensures { IfOk result (λ printed. printed ≡ text_of (error_response code)) }
{
    let mut out = Printer::new(alloc);
    print_error_body(&mut out, code);
    Ok((code.status(), Some(out.into_bytes()?)))
}
