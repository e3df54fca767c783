//! A dictionary that is one byte sequence, read directly: of a signed request two fields mostly are.
ghost use Rattle.std.specs.Prelude.{◌≡◌, true, Some, [], IfSome};
ghost use Rattle.structured_fields.specs.Letters.{is_key};
ghost use Rattle.structured_fields.specs.Reading.{dictionary_of};
ghost use Rattle.structured_fields.specs.SoleMember.{sole_text, sole_sequence};

use crate::bare_reading::decode;
use bytes_and_lists::bytes::Bytes;
use std::alloc::Global;

// What stands between the colons of `=:base64:`.
#[tactic(auto, using(crate::proofs::SoleMember::colons_are))]
fn between_colons(value: &[u8]) -> Option<&[u8]>
    ensures { IfSome result (λ coded. value.now ≡ sole_text [] coded.now) }
{
    match value {
        [b'=', b':', coded @ .., b':'] => Some(coded),
        _ => None,
    }
}

// The same of `key=:base64:`.
fn coded_under<'a>(text: &'a [u8], key: &[u8]) -> Option<&'a [u8]>
    ensures { IfSome result (λ coded. text.now ≡ sole_text key.now coded.now) }
{
    between_colons(text.strip_prefix(key)?)
}

/// The bytes of the member under a key (RFC 9651, section 3.1.2), where the text of a dictionary (section 4.2.2) is `key=:base64:` and nothing else, without a
/// space at either end. None says nothing of the text: it may have another form, or memory ran out.
pub fn sole_bytes(alloc: Global, text: &[u8], key: &[u8]) -> Option<Bytes>
    ensures { is_key key.now ≡ true → IfSome result (λ bytes. dictionary_of text.now ≡ Some (sole_sequence key.now bytes)) }
{
    decode(alloc, coded_under(text, key)?).ok()
}
