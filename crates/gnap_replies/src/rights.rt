//! Rights as they are printed (RFC 9635, section 8).
ghost use Rattle.std.specs.Prelude.{◌≡◌, IfOk, true, map};
ghost use Rattle.std.specs.List.{AllByRecursion, list_all};
ghost use Rattle.serde_json.specs.Written.{compact_text};
ghost use Rattle.access_rights.specs.Fits.{Fits};
ghost use Rattle.access_rights.specs.Printing.{right_data, rights_data};
ghost use Rattle.gnap_replies.specs.Printing.{Printed, is_reference, then_value, then_items, HasPrinted};

use crate::printer::Printer;
use access_rights::printing::rights_value;
use bytes_and_lists::bytes::Bytes;
use bytes_and_lists::memory::Mem;
use gnap_model::rights::{Right, Rights};
use json_objects::compact_text;
use std::alloc::Global;

fn are_references(rights: &[Right]) -> bool
    ensures { result ≡ list_all is_reference rights.now }
{
    rights
        .iter()
        .all(|right| matches!(right, Right::Reference(_)))
}

// The items of the array.
fn print_references(out: &mut Printer, rights: &[Right])
    requires references { list_all is_reference rights.now ≡ true }
    requires fit { AllByRecursion Fits rights.now }
    ensures { (p : Printed) → HasPrinted out.old p → HasPrinted out.new (then_items p (map right_data rights.now)) }
{
    for right in rights {
        let Right::Reference(name) = right else {
            unreachable!()
        };
        out.text(name);
    }
}

#[tactic(auto, using(access_rights::proofs::Whole::rights_whole))]
fn rights_text(alloc: Global, rights: &Rights) -> Result<Bytes, Mem>
    requires { AllByRecursion Fits rights.now }
    ensures { IfOk result (λ text. text ≡ compact_text (rights_data rights.now)) }
{
    compact_text(alloc, &rights_value(alloc, rights)?)
}

/// The array of the rights. Most rights are references, which need no tree either.
pub fn print_rights(alloc: Global, out: &mut Printer, rights: &Rights)
    requires { AllByRecursion Fits rights.now }
    ensures { (p : Printed) → HasPrinted out.old p → HasPrinted out.new (then_value p (compact_text (rights_data rights.now))) }
{
    if are_references(rights.as_slice()) {
        out.begin(b"[");
        print_references(out, rights.as_slice());
        out.end(b']');
        return;
    }
    out.made_value(rights_text(alloc, rights));
}
