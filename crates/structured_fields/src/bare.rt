//! Bare items.
ghost use Rattle.std.specs.Prelude.{◌≡◌};
ghost use Rattle.structured_fields.specs.Strings.{is_any_string, is_string};

use bytes_and_lists::bytes::Bytes;

/// A bare item (RFC 9651, section 3.3).
#[derive(Drop)]
pub enum Bare {
    /// A whole number of at most 15 digits.
    Integer(i64),
    /// A number of thousandths, of at most 15 digits: `1.5` is 1,500.
    Decimal(i64),
    /// Characters from SP to `~`, without quotes and escapes.
    Str(Bytes),
    /// A letter or `*`, then letters, digits and signs.
    Token(Bytes),
    /// Any bytes.
    Binary(Bytes),
    Boolean(bool),
    /// Seconds from 1970-01-01T00:00:00Z on, of at most 15 digits; leap seconds aren't counted.
    Date(i64),
    /// A display string: UTF-8, without its escapes.
    Display(Bytes),
}

/// Whether a bare item is a String.
pub fn is_any_string(v: &Bare) -> bool
    ensures { result ≡ is_any_string v.now }
{
    matches!(v, Bare::Str(_))
}

/// Whether a bare item is this String.
pub fn is_string(s: &[u8], v: &Bare) -> bool
    ensures { result ≡ is_string s.now v.now }
{
    match v {
        Bare::Str(text) => text.as_slice() == s,
        _ => false,
    }
}
