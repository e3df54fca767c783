//! User codes: a new one is that of no live interaction (RFC 9635, section 3.3.3).
ghost use Rattle.std.specs.Prelude.{◌≡◌, length};
ghost use Rattle.std.specs.List.{list_any};
ghost use Rattle.gnap_model.specs.Common.{same_text};
ghost use Rattle.gnap_model.specs.Values.{free_code as code_not_taken};

use drawn_texts::{CODE_COUNT, code_text};

// The code is one of those that are taken.
fn is_taken(code: [u8; 8], taken: &[[u8; 8]]) -> bool
    ensures { result ≡ list_any (same_text code) taken.now }
{
    for other in taken {
        if code == *other {
            return true;
        }
    }
    false
}

/// The code of the first of `number`, `number + 1` and so on, in a circle, that isn't taken.
pub fn free_code(number: u64, taken: &[[u8; 8]]) -> [u8; 8]
    ensures { result ≡ code_not_taken (length taken.now) number taken.now }
{
    let mut tried = number % CODE_COUNT;
    for _ in taken {
        let code = code_text(tried);
        if !is_taken(code, taken) {
            return code;
        }
        tried = (tried + 1) % CODE_COUNT;
    }
    code_text(tried)
}
