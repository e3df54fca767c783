//! Reading display strings from the front of a text.
ghost use Rattle.std.specs.Prelude.{◌≡◌};
ghost use Rattle.std.specs.Str.{is_utf8};
ghost use Rattle.structured_fields.specs.declared.display_reading.Awaits.TheVariants.{Character};
ghost use Rattle.structured_fields.specs.Reading.{Gives, hex_value, byte_of, display_bytes, display_text, display_at};

use crate::bare::Bare;
use crate::fault::FieldFault;
use crate::letters::{Class, is_shown, run, strip};
use bytes_and_lists::bytes::Bytes;
use std::alloc::Global;

/// What a reader between the quotes of a display string awaits.
#[derive(Clone, Copy)]
pub enum Awaits {
    /// A character or `%`.
    Character,
    /// The first digit behind `%`.
    FirstDigit,
    /// The second one, behind this first one.
    SecondDigit(u8),
}

fn hex_value(digit: u8) -> Option<u8>
    ensures { result ≡ hex_value digit }
{
    match digit {
        b'0'..=b'9' => Some(digit - b'0'),
        b'a'..=b'f' => Some(digit - b'a' + 10),
        _ => None,
    }
}

fn byte_of(first: u8, second: u8) -> Option<u8>
    ensures { result ≡ byte_of first second }
{
    Some(16 * hex_value(first)? + hex_value(second)?)
}

fn bytes_of(alloc: Global, text: &[u8]) -> Result<Bytes, FieldFault>
    ensures { Gives (λ s. s) result (display_bytes Character text.now) }
{
    let mut held = Bytes::new(alloc);
    let mut awaits = Awaits::Character;
    for c in text {
        match awaits {
            Awaits::Character => {
                if *c == b'%' {
                    awaits = Awaits::FirstDigit;
                } else if is_shown(*c) {
                    held.push(*c)?;
                } else {
                    return Err(FieldFault::NotInGrammar);
                }
            }
            Awaits::FirstDigit => {
                awaits = Awaits::SecondDigit(*c);
            }
            Awaits::SecondDigit(first) => {
                let Some(byte) = byte_of(first, *c) else {
                    return Err(FieldFault::NotInGrammar);
                };
                held.push(byte)?;
                awaits = Awaits::Character;
            }
        }
    }
    match awaits {
        Awaits::Character => Ok(held),
        _ => Err(FieldFault::NotInGrammar),
    }
}

#[tactic(auto, using(crate::proofs::Displays::valid_utf8))]
fn is_utf8(bytes: &[u8]) -> bool
    ensures { result ≡ is_utf8 bytes.now }
{
    match str::from_utf8(bytes) {
        Ok(_) => true,
        Err(_) => false,
    }
}

// UTF-8 is asked of the whole, so that a character may be spread over escapes.
#[tactic(auto, unfolding(crate::specs::Reading::display_text))]
fn text_of(alloc: Global, text: &[u8]) -> Result<Bytes, FieldFault>
    ensures { Gives (λ s. s) result (display_text text.now) }
{
    let bytes = bytes_of(alloc, text)?;
    if !is_utf8(bytes.as_slice()) {
        return Err(FieldFault::NotInGrammar);
    }
    Ok(bytes)
}

// What stands behind the `%`.
#[tactic(auto, unfolding(crate::specs::Reading::display_at))]
pub(crate) fn display_of(alloc: Global, bytes: &[u8]) -> Result<(Bare, &[u8]), FieldFault>
    ensures { Gives (λ x. (x.0, x.1.now)) result (display_at bytes.now) }
{
    let Some(body) = strip(b'"', bytes) else {
        return Err(FieldFault::NotInGrammar);
    };
    let (text, rest) = body.split_at(run(Class::NotQuote, body));
    let Some(after) = strip(b'"', rest) else {
        return Err(FieldFault::NotInGrammar);
    };
    Ok((Bare::Display(text_of(alloc, text)?), after))
}
