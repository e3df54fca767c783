//! The replies to a client as JSON (RFC 9635, section 3).
ghost use Rattle.std.specs.Prelude.{◌≡◌, IfOk, IsUtf8, codes, string_bytes, option_map};
ghost use Rattle.std.specs.List.{AllByRecursion};
ghost use Rattle.json.specs.Print.{quoted};
ghost use Rattle.serde_json.specs.Data.{string, array, item, no_items};
ghost use Rattle.serde_json.specs.Written.{compact_text};
ghost use Rattle.json_objects.specs.Objects.{object_of};
ghost use Rattle.json_objects.specs.Texts.{IsUtf8Or};
ghost use Rattle.gnap_objects.specs.CallsFit.{TokenFits};
ghost use Rattle.gnap_replies.specs.Printing.{Printed, then_value, then_field, HasPrinted};
ghost use Rattle.gnap_replies.specs.Endpoints.{interaction_page};
ghost use Rattle.gnap_replies.specs.Grants.{continue_data, sub_id_fields, subject_data, granted_fields, where_offered, code_page_fields};
ghost use Rattle.gnap_replies.specs.Grants.{interact_data, pending_fields, continuing_fields, rotated_fields};

use crate::endpoints::{joined, print_place};
use crate::printer::Printer;
use crate::tokens::{print_bare_token, print_optional, print_token, print_tokens};
use bytes_and_lists::bytes::Bytes;
use bytes_and_lists::memory::Mem;
use gnap_model::calls::TokenOut;
use gnap_model::objects::Modes;
use std::alloc::Global;

// The seconds before the first poll.
const WAIT: u64 = 5;

#[tactic(auto, unfolding(crate::specs::Grants::continue_data))]
fn print_continue(alloc: Global, out: &mut Printer, base: &[u8], door: &[u8])
    requires base { IsUtf8 base.now }
    requires door { IsUtf8 door.now }
    ensures { (p : Printed) → HasPrinted out.old p → HasPrinted out.new (then_value p (compact_text (continue_data base.now door.now))) }
{
    out.begin(b"{\"access_token\":");
    print_bare_token(out, door);
    out.begin(b"\"uri\":");
    print_place(alloc, out, base, "/continue");
    out.begin(b"\"wait\":");
    out.number(WAIT);
    out.end(b'}');
}

fn print_sub_id(out: &mut Printer, id: &[u8])
    requires { IsUtf8 id.now }
    ensures { (p : Printed) → HasPrinted out.old p → HasPrinted out.new (then_value p (compact_text (object_of (sub_id_fields id.now)))) }
{
    out.begin(b"{\"format\":");
    out.value(b"\"opaque\"");
    out.begin(b"\"id\":");
    out.string(id);
    out.end(b'}');
}

fn print_sub_ids(out: &mut Printer, id: &[u8])
    requires { IsUtf8 id.now }
    ensures { (p : Printed) → HasPrinted out.old p
        → HasPrinted out.new (then_value p (compact_text (array (item (object_of (sub_id_fields id.now)) no_items)))) }
{
    out.begin(b"[");
    print_sub_id(out, id);
    out.end(b']');
}

fn print_identified(out: &mut Printer, id: &[u8])
    requires { IsUtf8 id.now }
    ensures { (p : Printed) → HasPrinted out.old p → HasPrinted out.new (then_value p (compact_text (subject_data id.now))) }
{
    out.begin(b"{\"sub_ids\":");
    print_sub_ids(out, id);
    out.end(b'}');
}

// The member `subject`, where the user is told of.
#[tactic(auto, unfolding(json::specs::Print::escape_byte))]
fn print_subject(out: &mut Printer, subject: &Option<Bytes>)
    requires { IsUtf8Or subject.now }
    ensures { (p : Printed) → HasPrinted out.old p → HasPrinted out.new (then_field p (codes "subject") (option_map subject_data subject.now)) }
{
    if let Some(id) = subject {
        out.begin(b"\"subject\":");
        print_identified(out, id.as_slice());
    }
}

/// The grant is approved.
pub fn print_granted(
    alloc: Global,
    out: &mut Printer,
    base: &[u8],
    door: &[u8],
    tokens: &[TokenOut],
    single: bool,
    subject: &Option<Bytes>,
    instance: &Option<Bytes>,
)
    requires base { IsUtf8 base.now }
    requires door { IsUtf8 door.now }
    requires tokens { AllByRecursion TokenFits tokens.now }
    requires subject { IsUtf8Or subject.now }
    requires instance { IsUtf8Or instance.now }
    ensures { (p : Printed) → HasPrinted out.old p
        → HasPrinted out.new (then_value p (compact_text (object_of (granted_fields base.now door.now tokens.now single subject.now instance.now)))) }
{
    out.begin(b"{");
    print_tokens(alloc, out, base, single, tokens);
    out.begin(b"\"continue\":");
    print_continue(alloc, out, base, door);
    print_optional(out, "instance_id", instance);
    print_subject(out, subject);
    out.end(b'}');
}

// A member that is a text, where its way to interact was offered.
fn print_offered(out: &mut Printer, offered: bool, name: &str, text: &[u8])
    requires { IsUtf8 text.now }
    ensures { (p : Printed) → HasPrinted out.old p → HasPrinted out.new (then_field p name.now (where_offered offered (string text.now))) }
{
    if offered {
        out.name(name);
        out.string(text);
    }
}

fn interaction_uri(alloc: Global, front: &[u8], handle: &[u8]) -> Result<String, Mem>
    requires front { IsUtf8 front.now }
    requires handle { IsUtf8 handle.now }
    ensures { IfOk result (λ s. string_bytes s ≡ interaction_page front.now handle.now) }
{
    let mut uri = joined(alloc, front, "/i/")?;
    uri.push_str(unsafe { str::from_utf8_unchecked(handle) })?;
    Ok(uri)
}

// Where the user is sent for an interaction.
fn print_interaction_page(alloc: Global, out: &mut Printer, front: &[u8], handle: &[u8])
    requires front { IsUtf8 front.now }
    requires handle { IsUtf8 handle.now }
    ensures { (p : Printed) → HasPrinted out.old p → HasPrinted out.new (then_value p (quoted (interaction_page front.now handle.now))) }
{
    match interaction_uri(alloc, front, handle) {
        Ok(uri) => out.string(uri.as_bytes()),
        Err(Mem) => out.starve(),
    }
}

// The member `redirect`, where that was offered.
#[tactic(auto, unfolding(json::specs::Print::escape_byte))]
fn print_redirect(alloc: Global, out: &mut Printer, offered: bool, front: &[u8], handle: &[u8])
    requires front { IsUtf8 front.now }
    requires handle { IsUtf8 handle.now }
    ensures { (p : Printed) → HasPrinted out.old p
        → HasPrinted out.new (then_field p (codes "redirect") (where_offered offered (string (interaction_page front.now handle.now)))) }
{
    if offered {
        out.begin(b"\"redirect\":");
        print_interaction_page(alloc, out, front, handle);
    }
}

fn print_code_page(alloc: Global, out: &mut Printer, front: &[u8], code: &[u8])
    requires front { IsUtf8 front.now }
    requires code { IsUtf8 code.now }
    ensures { (p : Printed) → HasPrinted out.old p → HasPrinted out.new (then_value p (compact_text (object_of (code_page_fields front.now code.now)))) }
{
    out.begin(b"{\"code\":");
    out.string(code);
    out.begin(b"\"uri\":");
    print_place(alloc, out, front, "/code");
    out.end(b'}');
}

// The member `user_code_uri`, where that was offered.
#[tactic(auto, unfolding(json::specs::Print::escape_byte))]
fn print_user_code_uri(alloc: Global, out: &mut Printer, offered: bool, front: &[u8], code: &[u8])
    requires front { IsUtf8 front.now }
    requires code { IsUtf8 code.now }
    ensures { (p : Printed) → HasPrinted out.old p
        → HasPrinted out.new (then_field p (codes "user_code_uri") (where_offered offered (object_of (code_page_fields front.now code.now)))) }
{
    if offered {
        out.begin(b"\"user_code_uri\":");
        print_code_page(alloc, out, front, code);
    }
}

// How the client can interact with the user.
#[tactic(auto, unfolding(crate::specs::Grants::interact_data))]
fn print_interact(
    alloc: Global,
    out: &mut Printer,
    front: &[u8],
    modes: &Modes,
    handle: &[u8],
    code: &[u8],
    nonce: &[u8],
    expires_in: u64,
)
    requires front { IsUtf8 front.now }
    requires handle { IsUtf8 handle.now }
    requires code { IsUtf8 code.now }
    requires nonce { IsUtf8 nonce.now }
    ensures { (p : Printed) → HasPrinted out.old p
        → HasPrinted out.new (then_value p (compact_text (interact_data front.now modes.now handle.now code.now nonce.now expires_in))) }
{
    out.begin(b"{\"expires_in\":");
    out.number(expires_in);
    print_offered(out, modes.finish.is_some(), "finish", nonce);
    print_redirect(alloc, out, modes.redirect, front, handle);
    print_offered(out, modes.user_code, "user_code", code);
    print_user_code_uri(alloc, out, modes.user_code_uri, front, code);
    out.end(b'}');
}

/// The user is asked.
pub fn print_pending(
    alloc: Global,
    out: &mut Printer,
    base: &[u8],
    front: &[u8],
    door: &[u8],
    modes: &Modes,
    handle: &[u8],
    code: &[u8],
    nonce: &[u8],
    expires_in: u64,
    instance: &Option<Bytes>,
)
    requires base { IsUtf8 base.now }
    requires front { IsUtf8 front.now }
    requires door { IsUtf8 door.now }
    requires handle { IsUtf8 handle.now }
    requires code { IsUtf8 code.now }
    requires nonce { IsUtf8 nonce.now }
    requires instance { IsUtf8Or instance.now }
    ensures { (p : Printed) → HasPrinted out.old p
        → HasPrinted out.new (then_value p (compact_text (object_of (pending_fields base.now door.now
        (interact_data front.now modes.now handle.now code.now nonce.now expires_in) instance.now)))) }
{
    out.begin(b"{\"continue\":");
    print_continue(alloc, out, base, door);
    print_optional(out, "instance_id", instance);
    out.begin(b"\"interact\":");
    print_interact(alloc, out, front, modes, handle, code, nonce, expires_in);
    out.end(b'}');
}

/// Nothing is new.
pub fn print_continuing(alloc: Global, out: &mut Printer, base: &[u8], door: &[u8])
    requires base { IsUtf8 base.now }
    requires door { IsUtf8 door.now }
    ensures { (p : Printed) → HasPrinted out.old p → HasPrinted out.new (then_value p (compact_text (object_of (continuing_fields base.now door.now)))) }
{
    out.begin(b"{\"continue\":");
    print_continue(alloc, out, base, door);
    out.end(b'}');
}

/// A token has a successor.
pub fn print_rotated(alloc: Global, out: &mut Printer, base: &[u8], token: &TokenOut)
    requires base { IsUtf8 base.now }
    requires token { TokenFits token.now }
    ensures { (p : Printed) → HasPrinted out.old p → HasPrinted out.new (then_value p (compact_text (object_of (rotated_fields base.now token.now)))) }
{
    out.begin(b"{\"access_token\":");
    print_token(alloc, out, base, token);
    out.end(b'}');
}
