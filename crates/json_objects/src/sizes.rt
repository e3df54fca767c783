//! How many bytes compact JSON texts have, counted without writing them. Each count is 2^64 - 1 where it is greater.
ghost use Rattle.std.specs.Prelude.{◌≡◌, length, sum, option_map, Some};
ghost use Rattle.json.specs.Print.{escape_byte, quoted};
ghost use Rattle.serde_json.specs.Data.{string};
ghost use Rattle.serde_json.specs.Written.{compact_text};
ghost use Rattle.json_objects.specs.Objects.{texts_data};
ghost use Rattle.json_objects.specs.Sizes.{capped, enclosed_size, field_size};

use bytes_and_lists::bytes::Bytes;
use bytes_and_lists::seq::Seq;

#[tactic(auto, unfolding(json::specs::Print::escape_byte))]
fn escape_size(byte: u8) -> usize
    ensures { result ≡ length (escape_byte byte) }
{
    match byte {
        b'"' | b'\\' | 8 | 9 | 10 | 12 | 13 => 2,
        0..=31 => 6,
        _ => 1,
    }
}

/// The size of the text as a JSON string.
pub fn text_size(text: &[u8]) -> usize
    ensures { result ≡ capped (length (quoted text.now)) }
{
    let mut size = 2usize;
    for byte in text {
        size = size.saturating_add(escape_size(*byte));
    }
    size
}

/// The size of an array or an object, from that of its parts, each with a byte for the comma or bracket after it.
pub fn enclosed_size(parts: usize) -> usize
    ensures { result ≡ capped (enclosed_size parts) }
{
    if parts == 0 {
        2
    } else {
        parts.saturating_add(1)
    }
}

/// The size of the texts as a JSON array.
pub fn texts_size(texts: &Seq<Bytes>) -> usize
    ensures { result ≡ capped (length (compact_text (texts_data texts.now))) }
{
    let mut items = 0usize;
    for text in texts.as_slice() {
        items = items
            .saturating_add(text_size(text.as_slice()))
            .saturating_add(1);
    }
    enclosed_size(items)
}

/// The sum of the sizes.
pub fn total_size(sizes: &[usize]) -> usize
    ensures { result ≡ capped (sum sizes.now) }
{
    let mut total = 0usize;
    for size in sizes {
        total = total.saturating_add(*size);
    }
    total
}

/// The size of the text as a member of that name, with its colon and the comma or brace after it.
pub fn text_member_size(name: &str, text: &[u8]) -> usize
    ensures { result ≡ capped (field_size name.now (Some (string text.now))) }
{
    total_size(&[text_size(name.as_bytes()), 1, text_size(text), 1])
}

/// The size of the texts as a member of that name, with its colon and the comma or brace after it; 0 where there are none.
pub fn texts_member_size(name: &str, texts: &Option<Seq<Bytes>>) -> usize
    ensures { result ≡ capped (field_size name.now (option_map texts_data texts.now)) }
{
    match texts {
        None => 0,
        Some(texts) => total_size(&[text_size(name.as_bytes()), 1, texts_size(texts), 1]),
    }
}
