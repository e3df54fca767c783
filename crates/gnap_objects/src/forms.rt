//! The forms of ids and of the addresses of servers.
ghost use Rattle.std.specs.Prelude.{◌≡◌, ◌<◌, ◌==◌, IfSome, length, option_map, position};
ghost use Rattle.std.specs.List.{list_all};
ghost use Rattle.gnap_objects.specs.Forms.{is_sized, is_id_byte, is_id, is_host_byte, is_host, is_digit, is_port, after, is_authority, is_base};

fn is_id_byte(b: u8) -> bool
    ensures { result ≡ is_id_byte b }
{
    (b'a' <= b && b <= b'z')
        || (b'A' <= b && b <= b'Z')
        || (b'0' <= b && b <= b'9')
        || b == b'.'
        || b == b'_'
        || b == b'-'
}

// The text has at least one byte and at most so many.
fn is_sized(text: &[u8], most: usize) -> bool
    ensures { result ≡ is_sized most text.now }
{
    0 < text.len() && text.len() <= most
}

fn all_id_bytes(text: &[u8]) -> bool
    ensures { result ≡ list_all is_id_byte text.now }
{
    text.iter().all(|b| is_id_byte(*b))
}

/// The text is an id: 1 to 64 letters, digits, `.`, `_` and `-`.
#[tactic(auto, unfolding(crate::specs::Forms::is_id))]
pub fn is_id(text: &[u8]) -> bool
    ensures { result ≡ is_id text.now }
{
    is_sized(text, 64) && all_id_bytes(text)
}

fn is_host_byte(b: u8) -> bool
    ensures { result ≡ is_host_byte b }
{
    (b'a' <= b && b <= b'z') || (b'0' <= b && b <= b'9') || b == b'.' || b == b'-'
}

fn all_host_bytes(text: &[u8]) -> bool
    ensures { result ≡ list_all is_host_byte text.now }
{
    text.iter().all(|b| is_host_byte(*b))
}

fn is_host(text: &[u8]) -> bool
    ensures { result ≡ is_host text.now }
{
    is_sized(text, 253) && all_host_bytes(text)
}

fn is_digit(b: u8) -> bool
    ensures { result ≡ is_digit b }
{
    b'0' <= b && b <= b'9'
}

fn all_digits(text: &[u8]) -> bool
    ensures { result ≡ list_all is_digit text.now }
{
    text.iter().all(|b| is_digit(*b))
}

fn is_port(text: &[u8], default: &[u8]) -> bool
    ensures { result ≡ is_port default.now text.now }
{
    is_sized(text, 5) && all_digits(text) && text != default
}

fn colon(text: &[u8]) -> Option<usize>
    ensures value { result ≡ position (λ b. b == 58) text.now }
    ensures within { IfSome result (λ i. i < length text.now) }
{
    text.iter().position(|b| *b == b':')
}

#[tactic(auto, unfolding(crate::specs::Forms::is_authority))]
fn is_authority(text: &[u8], default: &[u8]) -> bool
    ensures { result ≡ is_authority default.now text.now }
{
    match colon(text) {
        None => is_host(text),
        Some(i) => is_host(&text[..i]) && is_port(&text[i + 1..], default),
    }
}

fn after<'t>(text: &'t [u8], prefix: &[u8]) -> Option<&'t [u8]>
    ensures { option_map (λ t. t.now) result ≡ after prefix.now text.now }
{
    if text.starts_with(prefix) {
        Some(&text[prefix.len()..])
    } else {
        None
    }
}

/// The text is the address of a server: `http://` or `https://`, then a host of 1 to 253 lower-case letters, digits, `.` and `-`, then optionally
/// `:` and a port of 1 to 5 digits that isn't written as the scheme's default one (80, 443).
#[tactic(auto, unfolding(crate::specs::Forms::is_base))]
pub fn is_base(text: &[u8]) -> bool
    ensures { result ≡ is_base text.now }
{
    match after(text, b"http://") {
        Some(rest) => is_authority(rest, b"80"),
        None => match after(text, b"https://") {
            Some(rest) => is_authority(rest, b"443"),
            None => false,
        },
    }
}
