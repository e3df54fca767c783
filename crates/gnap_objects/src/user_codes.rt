//! User codes, as people type them (RFC 9635, section 3.3.3).
ghost use Rattle.std.specs.Prelude.{◌≡◌, ◌==◌, length};
ghost use Rattle.std.specs.List.{list_all};
ghost use Rattle.serde_json.specs.View.{view};
ghost use Rattle.json_objects.specs.Reading.{Gives};
ghost use Rattle.gnap_model.specs.Common.{some_if};
ghost use Rattle.gnap_objects.specs.declared.fault.ObjectFault.TheVariants.{OutOfMemory};
ghost use Rattle.gnap_objects.specs.UserCodes.{is_code_letter, is_gap, letters_of, user_code_of};

use crate::fault::ObjectFault;
use crate::members::required_str;
use arrayvec::ArrayVec;
use serde_json::Value;
use std::alloc::Global;

fn is_gap(b: u8) -> bool
    ensures { result ≡ is_gap b }
{
    b == b'-' || b == b' '
}

fn is_code_letter(b: u8) -> bool
    ensures { result ≡ is_code_letter b }
{
    b"BCDFGHJKLMNPQRSTVWXZ".iter().any(|letter| *letter == b)
}

fn all_code_letters(letters: &[u8]) -> bool
    ensures { result ≡ list_all is_code_letter letters.now }
{
    letters.iter().all(|b| is_code_letter(*b))
}

// The bytes that were typed but for the gaps, in upper case, where they are eight.
fn eight_letters(typed: &[u8]) -> Option<[u8; 8]>
    ensures { result ≡ some_if (length (letters_of typed.now) == 8) (letters_of typed.now) }
{
    let mut letters = ArrayVec::<u8, 8>::new();
    for b in typed {
        if is_gap(*b) {
            continue;
        }
        if letters.try_push(b.to_ascii_uppercase()).is_err() {
            return None;
        }
    }
    letters.into_inner().ok()
}

/// The user code under `code`, a string: 8 of the letters `BCDFGHJKLMNPQRSTVWXZ`, in upper or lower case, with any number of hyphens and spaces among
/// them (RFC 9635, section 3.3.3). It is given in upper case and without those. Other members are not looked at.
#[tactic(auto, unfolding(crate::specs::UserCodes::user_code_of))]
pub fn read_code(alloc: Global, value: &Value) -> Result<[u8; 8], ObjectFault>
    ensures { Gives OutOfMemory (λ c. c) result (user_code_of (view value.now)) }
{
    let typed = required_str(alloc, value, "code")?;
    match eight_letters(typed.as_bytes()) {
        Some(code) if all_code_letters(code.as_slice()) => Ok(code),
        _ => Err(ObjectFault::wrong(alloc, "code")),
    }
}
