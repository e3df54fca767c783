//! The classes of bytes, and how far they run at the front of a text.
ghost use Rattle.std.specs.Prelude.{◌≡◌, ◌≤◌, true, false, length, drop, reverse, MatchOption};
ghost use Rattle.std.specs.List.{prefix_len, list_all};
ghost use Rattle.structured_fields.specs.Classes.{is_of};
ghost use Rattle.structured_fields.specs.Letters.{is_space, is_ows, is_digit, is_key_start, is_key_byte, is_token_start, is_token_byte, is_string_byte, is_quoted, is_plain, is_shown};
ghost use Rattle.structured_fields.specs.Reading.{front, behind, begins, trimmed};

/// A class of bytes that stand one after another.
#[derive(Clone, Copy)]
pub(crate) enum Class {
    /// What a key goes on with.
    Key,
    /// What a token goes on with.
    Token,
    /// What stands for itself between the quotes of a string.
    Plain,
    /// What needs no backslash before it there.
    Unquoted,
    NotColon,
    NotQuote,
    Digit,
    Space,
    /// SP and HTAB.
    Ows,
}

pub fn is_key_start(c: u8) -> bool
    ensures { result ≡ is_key_start c }
{
    c.is_ascii_lowercase() || c == b'*'
}

fn is_key_byte(c: u8) -> bool
    ensures { result ≡ is_key_byte c }
{
    is_key_start(c) || c.is_ascii_digit() || c == b'_' || c == b'-' || c == b'.'
}

pub fn is_token_start(c: u8) -> bool
    ensures { result ≡ is_token_start c }
{
    c.is_ascii_alphabetic() || c == b'*'
}

fn is_token_byte(c: u8) -> bool
    ensures { result ≡ is_token_byte c }
{
    c.is_ascii_alphanumeric()
        || matches!(
            c,
            b'!' | b'#'..=b'\'' | b'*' | b'+' | b'-' | b'.' | b'^'..=b'`' | b'|' | b'~' | b':' | b'/'
        )
}

pub fn is_string_byte(c: u8) -> bool
    ensures { result ≡ is_string_byte c }
{
    c >= 0x20 && c <= 0x7E
}

pub fn is_quoted(c: u8) -> bool
    ensures { result ≡ is_quoted c }
{
    c == b'"' || c == b'\\'
}

// It stands for itself in a display string.
pub(crate) fn is_shown(c: u8) -> bool
    ensures { result ≡ is_shown c }
{
    is_string_byte(c) && c != b'"' && c != b'%'
}

fn is_ows(c: u8) -> bool
    ensures { result ≡ is_ows c }
{
    c == b' ' || c == b'\t'
}

fn is_of(class: Class, c: u8) -> bool
    ensures { result ≡ is_of class c }
{
    match class {
        Class::Key => is_key_byte(c),
        Class::Token => is_token_byte(c),
        Class::Plain => is_string_byte(c) && !is_quoted(c),
        Class::Unquoted => !is_quoted(c),
        Class::NotColon => c != b':',
        Class::NotQuote => c != b'"',
        Class::Digit => c.is_ascii_digit(),
        Class::Space => c == b' ',
        Class::Ows => is_ows(c),
    }
}

// How far the bytes at the front are of a class.
pub(crate) fn run(class: Class, bytes: &[u8]) -> usize
    ensures len { result ≡ prefix_len (is_of class) bytes.now }
    ensures within { result ≤ length bytes.now }
{
    for (i, c) in bytes.iter().enumerate() {
        if !is_of(class, *c) {
            return i;
        }
    }
    bytes.len()
}

pub fn plain_run(bytes: &[u8]) -> usize
    ensures len { result ≡ prefix_len is_plain bytes.now }
    ensures within { result ≤ length bytes.now }
{
    run(Class::Plain, bytes)
}

pub fn key_run(bytes: &[u8]) -> usize
    ensures len { result ≡ prefix_len is_key_byte bytes.now }
    ensures within { result ≤ length bytes.now }
{
    run(Class::Key, bytes)
}

pub fn token_run(bytes: &[u8]) -> usize
    ensures len { result ≡ prefix_len is_token_byte bytes.now }
    ensures within { result ≤ length bytes.now }
{
    run(Class::Token, bytes)
}

// The digits at the front, and the rest.
#[tactic(auto, using(crate::proofs::Runs::digits_all))]
pub(crate) fn digits_in(bytes: &[u8]) -> (&[u8], &[u8])
    ensures front { result.0.now ≡ front is_digit bytes.now }
    ensures behind { result.1.now ≡ behind is_digit bytes.now }
    ensures digits { list_all is_digit result.0.now ≡ true }
    ensures len { length result.0.now ≡ prefix_len is_digit bytes.now }
{
    bytes.split_at(run(Class::Digit, bytes))
}

pub fn without_spaces(bytes: &[u8]) -> &[u8]
    ensures { result.now ≡ behind is_space bytes.now }
{
    let (_, rest) = bytes.split_at(run(Class::Space, bytes));
    rest
}

pub(crate) fn without_ows(bytes: &[u8]) -> &[u8]
    ensures { result.now ≡ behind is_ows bytes.now }
{
    let (_, rest) = bytes.split_at(run(Class::Ows, bytes));
    rest
}

// How many SP and HTAB stand at the end.
fn ows_run_back(bytes: &[u8]) -> usize
    ensures len { result ≡ prefix_len is_ows (reverse bytes.now) }
    ensures within { result ≤ length bytes.now }
{
    bytes.iter().rev().take_while(|b| is_ows(**b)).count()
}

#[tactic(auto, using(crate::proofs::Fronts::dropped_back))]
fn without_ows_back(bytes: &[u8]) -> &[u8]
    ensures { result.now ≡ reverse (behind is_ows (reverse bytes.now)) }
{
    &bytes[..bytes.len() - ows_run_back(bytes)]
}

/// The value of a field line without SP and HTAB at both ends (RFC 9110, section 5.5).
pub fn trimmed(line: &[u8]) -> &[u8]
    ensures { result.now ≡ trimmed line.now }
{
    without_ows_back(without_ows(line))
}

pub fn begins(c: u8, bytes: &[u8]) -> bool
    ensures { result ≡ begins c bytes.now }
{
    match bytes {
        [] => false,
        [b, ..] => *b == c,
    }
}

// What stands behind the byte c, where the text begins with it.
pub fn strip(c: u8, bytes: &[u8]) -> Option<&[u8]>
    ensures { MatchOption result (begins c bytes.now ≡ false) (λ r. (begins c bytes.now ≡ true) × (r.now ≡ drop 1 bytes.now)) }
{
    match bytes {
        [] => None,
        [b, after @ ..] => {
            if *b != c {
                return None;
            }
            Some(after)
        }
    }
}
