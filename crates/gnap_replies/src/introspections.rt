//! The replies to an introspection as JSON (RFC 9767, section 3.3).
ghost use Rattle.std.specs.Prelude.{◌≡◌, IfOk, IsUtf8, codes};
ghost use Rattle.std.specs.List.{AllByRecursion};
ghost use Rattle.serde_json.specs.Written.{compact_text};
ghost use Rattle.json_objects.specs.Objects.{object_of};
ghost use Rattle.access_rights.specs.Fits.{Fits};
ghost use Rattle.gnap_replies.specs.Printing.{Printed, then_value, then_field, HasPrinted};
ghost use Rattle.gnap_replies.specs.Introspections.{key_data, active_fields, inactive_fields};

use crate::endpoints::print_place;
use crate::printer::Printer;
use crate::rights::print_rights;
use crate::tokens::print_flags;
use gnap_model::rights::Rights;
use std::alloc::Global;

// The member `key`, where the token isn't a bearer token.
#[tactic(auto, unfolding(json::specs::Print::escape_byte))]
fn print_key(out: &mut Printer, bearer: bool, instance: &[u8])
    requires { IsUtf8 instance.now }
    ensures { (p : Printed) → HasPrinted out.old p → HasPrinted out.new (then_field p (codes "key") (key_data bearer instance.now)) }
{
    if !bearer {
        out.begin(b"\"key\":");
        out.string(instance);
    }
}

/// What a resource server is told of an active token.
pub fn print_active(
    alloc: Global,
    out: &mut Printer,
    base: &[u8],
    access: &Rights,
    iat: u64,
    exp: u64,
    instance: &[u8],
    bearer: bool,
)
    requires base { IsUtf8 base.now }
    requires access { AllByRecursion Fits access.now }
    requires instance { IsUtf8 instance.now }
    ensures { (p : Printed) → HasPrinted out.old p
        → HasPrinted out.new (then_value p (compact_text (object_of (active_fields base.now access.now iat exp instance.now bearer)))) }
{
    out.begin(b"{\"access\":");
    print_rights(alloc, out, access);
    out.begin(b"\"active\":true,\"exp\":");
    out.number(exp);
    print_flags(out, bearer);
    out.begin(b"\"iat\":");
    out.number(iat);
    out.begin(b"\"instance_id\":");
    out.string(instance);
    out.begin(b"\"iss\":");
    print_place(alloc, out, base, "/gnap");
    print_key(out, bearer, instance);
    out.end(b'}');
}

/// What it is told of any other.
pub fn print_inactive(out: &mut Printer)
    ensures { (p : Printed) → HasPrinted out.old p → HasPrinted out.new (then_value p (compact_text (object_of inactive_fields))) }
{
    out.value(b"{\"active\":false}");
}
