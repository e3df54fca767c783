//! Reading keys and bare items from the front of a text.
ghost use Rattle.std.specs.Prelude.{◌≡◌, ℕ, ◌-◌, ◌*◌, ◌^◌, ◌<◌, ◌≤◌, true, false, length};
ghost use Rattle.std.specs.List.{list_all};
ghost use Rattle.base64.specs.Engines.{standard_no_pad};
ghost use Rattle.base64.specs.GeneralPurpose.{decoded_of};
ghost use Rattle.structured_fields.specs.Letters.{integer_digits, fraction_digits, number_limit, is_digit, number, signed};
ghost use Rattle.structured_fields.specs.Reading.{Gives, key_at, decimal_at, unsigned_at, number_at, string_rest, only_bytes, decoded, binary_rest, boolean_rest, date_at, bare_at};

use crate::bare::Bare;
use crate::display_reading::display_of;
use crate::fault::FieldFault;
use crate::letters::{
    Class, digits_in, is_key_start, is_quoted, is_string_byte, is_token_start, key_run, plain_run,
    run, token_run,
};
use base64::DecodeAllocError;
use base64::engine::general_purpose::{STANDARD, STANDARD_NO_PAD};
use bytes_and_lists::bytes::Bytes;
use std::alloc::Global;

// So many digits an Integer has at most (RFC 9651, section 3.3.1).
pub(crate) const INTEGER_DIGITS: usize = 15;

// So many stand at most before the point of a Decimal (section 3.3.2).
const WHOLE_DIGITS: usize = 12;

// So many stand at most behind it.
const FRACTION_DIGITS: usize = 3;

#[tactic(auto, unfolding(crate::specs::Reading::key_at))]
pub(crate) fn key_of(alloc: Global, bytes: &[u8]) -> Result<(Bytes, &[u8]), FieldFault>
    ensures { Gives (λ x. (x.0, x.1.now)) result (key_at bytes.now) }
{
    match bytes {
        [] => Err(FieldFault::NotInGrammar),
        [first, ..] => {
            if !is_key_start(*first) {
                return Err(FieldFault::NotInGrammar);
            }
            let (name, rest) = bytes.split_at(key_run(bytes));
            Ok((Bytes::from_slice(alloc, name)?, rest))
        }
    }
}

pub(crate) fn number_of(digits: &[u8]) -> u64
    requires len { length digits.now ≤ integer_digits }
    requires all { list_all is_digit digits.now ≡ true }
    ensures value { result ≡ number digits.now }
    ensures bound { result < 10 ^ length digits.now }
    ensures most { (k : ℕ) → length digits.now ≤ k → result < 10 ^ k }
{
    let mut n: u64 = 0;
    for d in digits {
        n = 10 * n + u64::from(*d - b'0');
    }
    n
}

pub(crate) fn with_sign(negative: bool, n: u64) -> i64
    requires { n ≤ number_limit }
    ensures { result ≡ signed negative n }
{
    if negative { -(n as i64) } else { n as i64 }
}

fn part_of(digits: &[u8]) -> u64
    requires len { length digits.now ≤ fraction_digits }
    requires all { list_all is_digit digits.now ≡ true }
    ensures value { result ≡ number digits.now * 10 ^ (fraction_digits - length digits.now) }
    ensures bound { result ≤ 1000 }
{
    let n = number_of(digits);
    match digits.len() {
        0 => n * 1000,
        1 => n * 100,
        2 => n * 10,
        _ => n,
    }
}

#[tactic(auto, unfolding(crate::specs::Reading::decimal_at))]
fn decimal_of<'a>(
    negative: bool,
    whole: &[u8],
    bytes: &'a [u8],
) -> Result<(Bare, &'a [u8]), FieldFault>
    requires { list_all is_digit whole.now ≡ true }
    ensures { Gives (λ x. (x.0, x.1.now)) result (decimal_at negative whole.now bytes.now) }
{
    let (part, rest) = digits_in(bytes);
    if whole.is_empty()
        || whole.len() > WHOLE_DIGITS
        || part.is_empty()
        || part.len() > FRACTION_DIGITS
    {
        return Err(FieldFault::NotInGrammar);
    }
    let n = number_of(whole) * 1000 + part_of(part);
    Ok((Bare::Decimal(with_sign(negative, n)), rest))
}

#[tactic(auto, unfolding(crate::specs::Reading::unsigned_at))]
fn unsigned_of(negative: bool, bytes: &[u8]) -> Result<(Bare, &[u8]), FieldFault>
    ensures { Gives (λ x. (x.0, x.1.now)) result (unsigned_at negative bytes.now) }
{
    let (digits, rest) = digits_in(bytes);
    match rest {
        [b'.', after @ ..] => decimal_of(negative, digits, after),
        _ => {
            if digits.is_empty() || digits.len() > INTEGER_DIGITS {
                return Err(FieldFault::NotInGrammar);
            }
            Ok((Bare::Integer(with_sign(negative, number_of(digits))), rest))
        }
    }
}

#[tactic(auto, unfolding(crate::specs::Reading::number_at))]
fn number_in(bytes: &[u8]) -> Result<(Bare, &[u8]), FieldFault>
    ensures { Gives (λ x. (x.0, x.1.now)) result (number_at bytes.now) }
{
    match bytes {
        [b'-', after @ ..] => unsigned_of(true, after),
        _ => unsigned_of(false, bytes),
    }
}

// A text without padding. It stands apart because a constant's tables are written out in the function that uses it, at its beginning: most texts have their
// padding, and need no second tables.
#[tactic(auto, unfolding(base64::specs::GeneralPurpose::decoded_of))]
fn decode_unpadded(alloc: Global, text: &[u8]) -> Result<Bytes, FieldFault>
    ensures { Gives (λ b. b) result (only_bytes (decoded_of standard_no_pad text.now)) }
{
    match STANDARD_NO_PAD.decode(alloc, text) {
        Ok(v) => Ok(Bytes::from_vec(v)),
        Err(DecodeAllocError::OutOfMemory) => Err(FieldFault::OutOfMemory),
        Err(DecodeAllocError::DecodeError(_)) => Err(FieldFault::NotInGrammar),
    }
}

#[tactic(auto, unfolding(crate::specs::Reading::decoded, base64::specs::GeneralPurpose::decoded_of))]
pub(crate) fn decode(alloc: Global, text: &[u8]) -> Result<Bytes, FieldFault>
    ensures { Gives (λ b. b) result (decoded text.now) }
{
    match STANDARD.decode(alloc, text) {
        Ok(v) => Ok(Bytes::from_vec(v)),
        Err(DecodeAllocError::OutOfMemory) => Err(FieldFault::OutOfMemory),
        Err(DecodeAllocError::DecodeError(_)) => decode_unpadded(alloc, text),
    }
}

#[tactic(auto, unfolding(crate::specs::Reading::binary_rest))]
fn binary_of(alloc: Global, bytes: &[u8]) -> Result<(Bare, &[u8]), FieldFault>
    ensures { Gives (λ x. (x.0, x.1.now)) result (binary_rest bytes.now) }
{
    let (text, rest) = bytes.split_at(run(Class::NotColon, bytes));
    match rest {
        [b':', after @ ..] => Ok((Bare::Binary(decode(alloc, text)?), after)),
        _ => Err(FieldFault::NotInGrammar),
    }
}

#[tactic(auto, unfolding(crate::specs::Reading::boolean_rest))]
fn boolean_of(bytes: &[u8]) -> Result<(Bare, &[u8]), FieldFault>
    ensures { Gives (λ x. (x.0, x.1.now)) result (boolean_rest bytes.now) }
{
    match bytes {
        [b'0', after @ ..] => Ok((Bare::Boolean(false), after)),
        [b'1', after @ ..] => Ok((Bare::Boolean(true), after)),
        _ => Err(FieldFault::NotInGrammar),
    }
}

// A Decimal is no date.
#[tactic(auto, unfolding(crate::specs::Reading::date_at))]
fn date_of(bytes: &[u8]) -> Result<(Bare, &[u8]), FieldFault>
    ensures { Gives (λ x. (x.0, x.1.now)) result (date_at bytes.now) }
{
    match number_in(bytes)? {
        (Bare::Integer(seconds), rest) => Ok((Bare::Date(seconds), rest)),
        _ => Err(FieldFault::NotInGrammar),
    }
}

// What stands before the first escape is copied at once.
#[tactic(auto, using(crate::proofs::Runs::string_steps))]
fn string_of(alloc: Global, bytes: &[u8]) -> Result<(Bytes, &[u8]), FieldFault>
    ensures { Gives (λ x. (x.0, x.1.now)) result (string_rest false bytes.now) }
{
    let (plain, rest) = bytes.split_at(plain_run(bytes));
    let mut held = Bytes::from_slice(alloc, plain)?;
    let mut escaped = false;
    for (i, c) in rest.iter().enumerate() {
        let c = *c;
        if escaped {
            if !is_quoted(c) {
                return Err(FieldFault::NotInGrammar);
            }
            held.push(c)?;
            escaped = false;
        } else if c == b'"' {
            return Ok((held, &rest[i + 1..]));
        } else if c == b'\\' {
            escaped = true;
        } else {
            if !is_string_byte(c) {
                return Err(FieldFault::NotInGrammar);
            }
            held.push(c)?;
        }
    }
    Err(FieldFault::NotInGrammar)
}

#[tactic(auto, unfolding(crate::specs::Reading::bare_at))]
pub fn bare_of(alloc: Global, bytes: &[u8]) -> Result<(Bare, &[u8]), FieldFault>
    ensures { Gives (λ x. (x.0, x.1.now)) result (bare_at bytes.now) }
{
    match bytes {
        [] => Err(FieldFault::NotInGrammar),
        [b'"', after @ ..] => {
            let (s, rest) = string_of(alloc, after)?;
            Ok((Bare::Str(s), rest))
        }
        [b':', after @ ..] => binary_of(alloc, after),
        [b'?', after @ ..] => boolean_of(after),
        [b'@', after @ ..] => date_of(after),
        [b'%', after @ ..] => display_of(alloc, after),
        [c, ..] => {
            if !is_token_start(*c) {
                return number_in(bytes);
            }
            let (token, rest) = bytes.split_at(token_run(bytes));
            Ok((Bare::Token(Bytes::from_slice(alloc, token)?), rest))
        }
    }
}
