//! Errors as JSON (RFC 9635, section 3.6).
ghost use Rattle.std.specs.Prelude.{◌≡◌, IfOk};
ghost use Rattle.serde_json.specs.Written.{compact_text};
ghost use Rattle.json_objects.specs.Objects.{object_of};
ghost use Rattle.gnap_replies.specs.Printing.{Printed, then_value, HasPrinted};
ghost use Rattle.gnap_replies.specs.Errors.{code_fields, error_fields};

use crate::printer::Printer;
use gnap_model::objects::ErrorCode;

fn print_code(out: &mut Printer, code: ErrorCode)
    ensures { (p : Printed) → HasPrinted out.old p → HasPrinted out.new (then_value p (compact_text (object_of (code_fields code)))) }
{
    out.begin(b"{\"code\":");
    out.string(code.text().as_bytes());
    out.end(b'}');
}

/// The body of an error.
pub fn print_error_body(out: &mut Printer, code: ErrorCode)
    ensures { (p : Printed) → HasPrinted out.old p → HasPrinted out.new (then_value p (compact_text (object_of (error_fields code)))) }
{
    out.begin(b"{\"error\":");
    print_code(out, code);
    out.end(b'}');
}
