//! The replies to the consent front as JSON.
ghost use Rattle.std.specs.Prelude.{◌≡◌, ℕ, List, IfOk, IsUtf8, codes, option_map, map, Some, None, []};
ghost use Rattle.std.specs.List.{AllByRecursion};
ghost use Rattle.json.specs.Print.{quoted};
ghost use Rattle.serde_json.specs.Data.{string, boolean, array};
ghost use Rattle.serde_json.specs.Written.{compact_text};
ghost use Rattle.json_objects.specs.Objects.{items, object_of};
ghost use Rattle.json_objects.specs.Texts.{IsUtf8Or};
ghost use Rattle.interaction.specs.Pushes.{push_body};
ghost use Rattle.interaction.specs.Uris.{finish_uri};
ghost use Rattle.gnap_objects.specs.Fits.{AskFits};
ghost use Rattle.gnap_objects.specs.CallsFit.{EndingFits};
ghost use Rattle.gnap_replies.specs.Printing.{Printed, then_value, then_field, then_items, HasPrinted};
ghost use Rattle.gnap_replies.specs.Interactions.{ask_data, shown_fields, handle_fields, hash_of, pushed_fields, redirected_fields, decided_fields};

use crate::endpoints::joined;
use crate::printer::Printer;
use crate::rights::print_rights;
use crate::tokens::{print_flags, print_optional};
use bytes_and_lists::bytes::Bytes;
use bytes_and_lists::memory::Mem;
use gnap_model::calls::FinishOut;
use gnap_model::objects::Ask;
use interaction::{UriFault, finish_uri, interaction_hash, push_body};
use std::alloc::Global;

#[tactic(auto, unfolding(crate::specs::Interactions::ask_data))]
fn print_ask(alloc: Global, out: &mut Printer, ask: &Ask)
    requires { AskFits ask.now }
    ensures { (p : Printed) → HasPrinted out.old p → HasPrinted out.new (then_value p (compact_text (ask_data ask.now))) }
{
    out.begin(b"{\"access\":");
    print_rights(alloc, out, &ask.rights);
    print_flags(out, ask.bearer);
    print_optional(out, "label", &ask.label);
    out.end(b'}');
}

// The items of the array.
fn print_each_ask(alloc: Global, out: &mut Printer, asks: &[Ask])
    requires { AllByRecursion AskFits asks.now }
    ensures { (p : Printed) → HasPrinted out.old p → HasPrinted out.new (then_items p (map ask_data asks.now)) }
{
    for ask in asks {
        print_ask(alloc, out, ask);
    }
}

fn print_asks(alloc: Global, out: &mut Printer, asks: &[Ask])
    requires { AllByRecursion AskFits asks.now }
    ensures { (p : Printed) → HasPrinted out.old p → HasPrinted out.new (then_value p (compact_text (array (items (map ask_data asks.now))))) }
{
    out.begin(b"[");
    print_each_ask(alloc, out, asks);
    out.end(b']');
}

fn print_truth(out: &mut Printer, truth: bool)
    ensures { (p : Printed) → HasPrinted out.old p → HasPrinted out.new (then_value p (compact_text (boolean truth))) }
{
    if truth {
        out.value(b"true");
    } else {
        out.value(b"false");
    }
}

/// What the user is asked.
pub fn print_shown(
    alloc: Global,
    out: &mut Printer,
    asks: &[Ask],
    client: &[u8],
    expires_in: u64,
    subject: bool,
    user: &Option<Bytes>,
)
    requires asks { AllByRecursion AskFits asks.now }
    requires client { IsUtf8 client.now }
    requires user { IsUtf8Or user.now }
    ensures { (p : Printed) → HasPrinted out.old p
        → HasPrinted out.new (then_value p (compact_text (object_of (shown_fields asks.now client.now expires_in subject user.now)))) }
{
    out.begin(b"{\"access_token\":");
    print_asks(alloc, out, asks);
    out.begin(b"\"client\":");
    out.string(client);
    out.begin(b"\"expires_in\":");
    out.number(expires_in);
    out.begin(b"\"subject\":");
    print_truth(out, subject);
    print_optional(out, "user", user);
    out.end(b'}');
}

/// The interaction with the code that the user typed.
pub fn print_handle(out: &mut Printer, handle: &[u8])
    requires { IsUtf8 handle.now }
    ensures { (p : Printed) → HasPrinted out.old p → HasPrinted out.new (then_value p (compact_text (object_of (handle_fields handle.now)))) }
{
    out.begin(b"{\"handle\":");
    out.string(handle);
    out.end(b'}');
}

// The hash by which the client knows that the reference is for it.
fn hash(alloc: Global, base: &[u8], finish: &FinishOut) -> Result<Bytes, Mem>
    requires { IsUtf8 base.now }
    ensures value { IfOk result (λ b. b ≡ hash_of base.now finish.now) }
    ensures utf8 { IfOk result (λ b. IsUtf8 b) }
{
    let endpoint = joined(alloc, base, "/gnap")?;
    interaction_hash(
        alloc,
        finish.finish.long,
        finish.finish.nonce.as_slice(),
        finish.server_nonce.as_slice(),
        finish.reference.as_slice(),
        endpoint.as_bytes(),
    )
}

// What the front sends to the client.
fn pushed_body(alloc: Global, base: &[u8], finish: &FinishOut) -> Result<Bytes, Mem>
    requires base { IsUtf8 base.now }
    requires finish { EndingFits (Some finish.now) }
    ensures body { IfOk result (λ b. b ≡ push_body (hash_of base.now finish.now) finish.now.reference) }
    ensures utf8 { IfOk result (λ b. IsUtf8 b) }
{
    let hash = hash(alloc, base, finish)?;
    push_body(alloc, hash.as_slice(), finish.reference.as_slice())
}

// A string, if there was memory for it.
fn print_made(out: &mut Printer, text: Result<Bytes, Mem>)
    requires { IfOk text (λ t. IsUtf8 t) }
    ensures { (p : Printed) (s : List ℕ) → IfOk text (λ t. t ≡ s) → HasPrinted out.old p → HasPrinted out.new (then_value p (quoted s)) }
{
    match text {
        Ok(text) => out.string(text.as_slice()),
        Err(Mem) => out.starve(),
    }
}

fn print_pushed(alloc: Global, out: &mut Printer, base: &[u8], finish: &FinishOut)
    requires base { IsUtf8 base.now }
    requires finish { EndingFits (Some finish.now) }
    ensures { (p : Printed) → HasPrinted out.old p → HasPrinted out.new (then_value p (compact_text (object_of (pushed_fields base.now finish.now)))) }
{
    let body = pushed_body(alloc, base, finish);
    out.begin(b"{\"body\":");
    print_made(out, body);
    out.begin(b"\"finish\":");
    out.value(b"\"push\"");
    out.begin(b"\"uri\":");
    out.string(finish.finish.uri.as_slice());
    out.end(b'}');
}

// Where the user is sent.
#[tactic(auto, using(interaction::proofs::WebUrls::has_finish_uri))]
fn redirected_uri(alloc: Global, base: &[u8], finish: &FinishOut) -> Result<Bytes, Mem>
    requires base { IsUtf8 base.now }
    requires finish { EndingFits (Some finish.now) }
    ensures uri { IfOk result (λ uri. finish_uri finish.now.finish.uri (hash_of base.now finish.now) finish.now.reference ≡ Some uri) }
    ensures utf8 { IfOk result (λ uri. IsUtf8 uri) }
{
    let hash = hash(alloc, base, finish)?;
    match finish_uri(
        alloc,
        finish.finish.uri.as_slice(),
        hash.as_slice(),
        finish.reference.as_slice(),
    ) {
        Ok(uri) => Ok(uri),
        Err(UriFault::NotAUri) => unreachable!(),
        Err(UriFault::OutOfMemory) => Err(Mem),
    }
}

#[tactic(auto, unfolding(json::specs::Print::escape_byte))]
fn print_redirected_uri(alloc: Global, out: &mut Printer, base: &[u8], finish: &FinishOut)
    requires base { IsUtf8 base.now }
    requires finish { EndingFits (Some finish.now) }
    ensures { (p : Printed) → HasPrinted out.old p
        → HasPrinted out.new (then_field p (codes "uri")
        (option_map string (finish_uri finish.now.finish.uri (hash_of base.now finish.now) finish.now.reference))) }
{
    match redirected_uri(alloc, base, finish) {
        Ok(uri) => {
            out.begin(b"\"uri\":");
            out.string(uri.as_slice());
        }
        Err(Mem) => out.starve(),
    }
}

fn print_redirected(alloc: Global, out: &mut Printer, base: &[u8], finish: &FinishOut)
    requires base { IsUtf8 base.now }
    requires finish { EndingFits (Some finish.now) }
    ensures { (p : Printed) → HasPrinted out.old p → HasPrinted out.new (then_value p (compact_text (object_of (redirected_fields base.now finish.now)))) }
{
    out.begin(b"{\"finish\":");
    out.value(b"\"redirect\"");
    print_redirected_uri(alloc, out, base, finish);
    out.end(b'}');
}

fn print_none(out: &mut Printer)
    ensures { (p : Printed) → HasPrinted out.old p → HasPrinted out.new (then_value p (compact_text (object_of (decided_fields [] None)))) }
{
    out.begin(b"{\"finish\":");
    out.value(b"\"none\"");
    out.end(b'}');
}

/// How the front tells the client that the decision was taken.
pub fn print_decided(alloc: Global, out: &mut Printer, base: &[u8], finish: &Option<FinishOut>)
    requires base { IsUtf8 base.now }
    requires finish { EndingFits finish.now }
    ensures { (p : Printed) → HasPrinted out.old p → HasPrinted out.new (then_value p (compact_text (object_of (decided_fields base.now finish.now)))) }
{
    match finish {
        None => print_none(out),
        Some(finish) => if finish.finish.push {
            print_pushed(alloc, out, base, finish)
        } else {
            print_redirected(alloc, out, base, finish)
        },
    }
}
