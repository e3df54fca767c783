//! The number that a user code is, by which it is listed (RFC 9635, section 3.3.3).
ghost use Rattle.std.specs.Prelude.{◌≡◌, ◌<◌, get_or};
ghost use Rattle.grant_states.specs.CodeNumbers.{digit_of, number_in, number_of};

use drawn_texts::{CODE_COUNT, code_text};

// The letters from A to Z as digits of user codes, and 0 for those that no code has.
const DIGITS: [u8; 26] = [
    0, 0, 1, 2, 0, 3, 4, 5, 0, 6, 7, 8, 9, 10, 0, 11, 12, 13, 14, 15, 0, 16, 17, 18, 0, 19,
];

// The digit that a letter is.
fn digit(letter: u8) -> u64
    ensures value { result ≡ digit_of letter }
    ensures low { result < 256 }
{
    let place = letter.saturating_sub(b'A') as usize;
    if place < DIGITS.len() {
        DIGITS[place] as u64
    } else {
        0
    }
}

// The number that eight letters are, the most significant first.
fn number_in_code(code: &[u8; 8]) -> u64
    ensures { result ≡ number_in code.now }
{
    let most = ((digit(code[0]) * 20 + digit(code[1])) * 20 + digit(code[2])) * 20 + digit(code[3]);
    (((most * 20 + digit(code[4])) * 20 + digit(code[5])) * 20 + digit(code[6])) * 20
        + digit(code[7])
}

/// The number whose user code this is.
pub(crate) fn code_number(code: &[u8; 8]) -> Option<u64>
    ensures { result ≡ number_of code.now }
{
    let number = number_in_code(code);
    if number < CODE_COUNT && code_text(number) == *code {
        Some(number)
    } else {
        None
    }
}
