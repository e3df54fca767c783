//! Numbers on a command line.
ghost use Rattle.std.specs.Prelude.{◌≡◌, ◌≤◌, IfSome};
ghost use Rattle.std.specs.Char.{is_ascii_digit};
ghost use Rattle.std.specs.List.{list_all};
ghost use Rattle.command_words.specs.Numbers.{has_no_needless_zero, is_number, number_within};

fn has_no_needless_zero(digits: &[u8]) -> bool
    ensures { result ≡ has_no_needless_zero digits.now }
{
    match digits {
        [] => false,
        [_] => true,
        [first, _, ..] => *first != b'0',
    }
}

fn are_digits(bytes: &[u8]) -> bool
    ensures { result ≡ list_all is_ascii_digit bytes.now }
{
    bytes.iter().all(|byte| byte.is_ascii_digit())
}

fn is_number(word: &str) -> bool
    ensures { result ≡ is_number word.now }
{
    has_no_needless_zero(word.as_bytes()) && are_digits(word.as_bytes())
}

/// The number that the word is, in decimal digits without a needless zero before them, where it is within this range.
pub(crate) fn number_within(word: &str, least: u64, most: u64) -> Option<u64>
    ensures value { result ≡ number_within least most word.now }
    ensures within { IfSome result (λ number. (least ≤ number) × (number ≤ most)) }
{
    if !is_number(word) {
        return None;
    }
    let Ok(number) = word.parse::<u64>() else {
        return None;
    };
    if least <= number && number <= most {
        Some(number)
    } else {
        None
    }
}
