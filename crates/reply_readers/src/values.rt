//! Values of tokens and of continuations.
ghost use Rattle.std.specs.Prelude.{◌≡◌};
ghost use Rattle.std.specs.List.{list_all};
ghost use Rattle.reply_readers.specs.Members.{is_value_byte, is_value};

fn is_value_byte(b: u8) -> bool
    ensures { result ≡ is_value_byte b }
{
    33 <= b && b <= 126
}

pub(crate) fn all_value_bytes(text: &[u8]) -> bool
    ensures { result ≡ list_all is_value_byte text.now }
{
    text.iter().all(|b| is_value_byte(*b))
}

/// Whether the text may be presented as a token's or a continuation's value: it has at least one byte, and all of them are visible characters of ASCII.
pub fn is_value(text: &[u8]) -> bool
    ensures { result ≡ is_value text.now }
{
    0 < text.len() && all_value_bytes(text)
}
