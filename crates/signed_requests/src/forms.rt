//! Methods and targets of requests.
ghost use Rattle.std.specs.Prelude.{◌≡◌};
ghost use Rattle.std.specs.List.{list_all};
ghost use Rattle.signed_requests.specs.Forms.{is_capital, is_method, is_visible, begins_with_slash, is_target};

fn all_capital(text: &[u8]) -> bool
    ensures { result ≡ list_all is_capital text.now }
{
    text.iter().all(|b| b'A' <= *b && *b <= b'Z')
}

fn all_visible(text: &[u8]) -> bool
    ensures { result ≡ list_all is_visible text.now }
{
    text.iter().all(|b| 33 <= *b && *b <= 126)
}

fn begins_with_slash(text: &[u8]) -> bool
    ensures { result ≡ begins_with_slash text.now }
{
    match text {
        [] => false,
        [b, ..] => *b == b'/',
    }
}

/// Whether the text is a method of 1 to 15 upper-case letters.
pub fn is_method(text: &[u8]) -> bool
    ensures { result ≡ is_method text.now }
{
    0 < text.len() && text.len() <= 15 && all_capital(text)
}

/// Whether the text begins with `/` and has at most 2,048 bytes, all of them visible characters of ASCII.
pub fn is_target(text: &[u8]) -> bool
    ensures { result ≡ is_target text.now }
{
    begins_with_slash(text) && text.len() <= 2048 && all_visible(text)
}
