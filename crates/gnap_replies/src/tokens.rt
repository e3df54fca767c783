//! Access tokens as JSON (RFC 9635, section 3.2).
ghost use Rattle.std.specs.Prelude.{◌≡◌, ◌++◌, IfOk, IsUtf8, codes, string_bytes, option_map, map};
ghost use Rattle.std.specs.List.{AllByRecursion};
ghost use Rattle.json.specs.Print.{quoted};
ghost use Rattle.serde_json.specs.Data.{string};
ghost use Rattle.serde_json.specs.Written.{compact_text};
ghost use Rattle.json_objects.specs.Objects.{object_of};
ghost use Rattle.json_objects.specs.Texts.{IsUtf8Or};
ghost use Rattle.gnap_objects.specs.CallsFit.{TokenFits};
ghost use Rattle.gnap_replies.specs.Printing.{Printed, then_value, then_field, then_items, HasPrinted};
ghost use Rattle.gnap_replies.specs.Tokens.{flags_data, bare_token_fields, manage_fields, token_data, tokens_data};

use crate::endpoints::print_place;
use crate::printer::Printer;
use crate::rights::print_rights;
use bytes_and_lists::bytes::Bytes;
use gnap_model::calls::TokenOut;
use std::alloc::Global;

/// The member `flags` of a bearer token.
pub fn print_flags(out: &mut Printer, bearer: bool)
    ensures { (p : Printed) → HasPrinted out.old p → HasPrinted out.new (then_field p (codes "flags") (flags_data bearer)) }
{
    if bearer {
        out.value(b"\"flags\":[\"bearer\"]");
    }
}

/// A member that is a text, where there is one.
pub fn print_optional(out: &mut Printer, name: &str, text: &Option<Bytes>)
    requires { IsUtf8Or text.now }
    ensures { (p : Printed) → HasPrinted out.old p → HasPrinted out.new (then_field p name.now (option_map string text.now)) }
{
    if let Some(text) = text {
        out.name(name);
        out.text(text);
    }
}

/// A token of which the value alone is told.
pub fn print_bare_token(out: &mut Printer, value: &[u8])
    requires { IsUtf8 value.now }
    ensures { (p : Printed) → HasPrinted out.old p → HasPrinted out.new (then_value p (compact_text (object_of (bare_token_fields value.now)))) }
{
    out.begin(b"{\"value\":");
    out.string(value);
    out.end(b'}');
}

fn print_manage(alloc: Global, out: &mut Printer, base: &[u8], manage: &[u8])
    requires base { IsUtf8 base.now }
    requires manage { IsUtf8 manage.now }
    ensures { (p : Printed) → HasPrinted out.old p → HasPrinted out.new (then_value p (compact_text (object_of (manage_fields base.now manage.now)))) }
{
    out.begin(b"{\"access_token\":");
    print_bare_token(out, manage);
    out.begin(b"\"uri\":");
    print_place(alloc, out, base, "/token");
    out.end(b'}');
}

/// A token with all that is told of it.
#[tactic(auto, unfolding(crate::specs::Tokens::token_data))]
pub fn print_token(alloc: Global, out: &mut Printer, base: &[u8], token: &TokenOut)
    requires base { IsUtf8 base.now }
    requires token { TokenFits token.now }
    ensures { (p : Printed) → HasPrinted out.old p → HasPrinted out.new (then_value p (compact_text (token_data base.now token.now))) }
{
    out.begin(b"{\"access\":");
    print_rights(alloc, out, &token.rights);
    out.begin(b"\"expires_in\":");
    out.number(token.expires_in);
    print_flags(out, token.bearer);
    print_optional(out, "label", &token.label);
    out.begin(b"\"manage\":");
    print_manage(alloc, out, base, token.manage.as_slice());
    out.begin(b"\"value\":");
    out.string(token.value.as_slice());
    out.end(b'}');
}

// The items of the array.
fn print_each_token(alloc: Global, out: &mut Printer, base: &[u8], tokens: &[TokenOut])
    requires base { IsUtf8 base.now }
    requires tokens { AllByRecursion TokenFits tokens.now }
    ensures { (p : Printed) → HasPrinted out.old p → HasPrinted out.new (then_items p (map (token_data base.now) tokens.now)) }
{
    for token in tokens {
        print_token(alloc, out, base, token);
    }
}

/// The member `access_token`, where there is a token: the one that was asked for outside an array, or an array.
#[tactic(auto, unfolding(json::specs::Print::escape_byte))]
pub fn print_tokens(
    alloc: Global,
    out: &mut Printer,
    base: &[u8],
    single: bool,
    tokens: &[TokenOut],
)
    requires base { IsUtf8 base.now }
    requires tokens { AllByRecursion TokenFits tokens.now }
    ensures { (p : Printed) → HasPrinted out.old p → HasPrinted out.new (then_field p (codes "access_token") (tokens_data base.now single tokens.now)) }
{
    match tokens {
        [] => {}
        [token, ..] if single => {
            out.begin(b"\"access_token\":");
            print_token(alloc, out, base, token);
        }
        tokens => {
            out.begin(b"\"access_token\":");
            out.begin(b"[");
            print_each_token(alloc, out, base, tokens);
            out.end(b']');
        }
    }
}
