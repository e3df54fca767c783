//! Nonces and the ids of keys, as the trees keep them.
ghost use Rattle.std.specs.Prelude.{◌≡◌, IfSome, is_some};
ghost use Rattle.nonce_store.specs.Texts.{head_of, is_short};

use arrayvec::ArrayVec;

// The nonce of a mark and the id of a key have no more bytes.
const LONGEST: usize = 64;

/// A nonce, or the id of a key. Two are compared field by field, so by their heads first.
#[derive(PartialEq, Eq, PartialOrd, Ord, Drop)]
pub struct Text {
    head: u64,
    bytes: ArrayVec<u8, LONGEST>,
    ghost headed: { head ≡ head_of bytes.items },
}

// The first eight bytes as a number, with zeros behind a shorter text. The first byte weighs most: texts that a client counts up lie side by side in a tree
// then, and the next one's place is in the processor's caches.
fn head_of(text: &[u8]) -> u64
    ensures { result ≡ head_of text.now }
{
    let mut head = [0; 8];
    let len = text.len().min(8);
    head[..len].copy_from_slice(&text[..len]);
    u64::from_be_bytes(head)
}

/// The text, where it is short enough. It takes no memory.
pub fn text_of(text: &[u8]) -> Option<Text>
    ensures short { is_some result ≡ is_short text.now }
    ensures same { IfSome result (λ t. t.bytes.items ≡ text.now) }
{
    let bytes = ArrayVec::try_from(text).ok()?;
    Some(Text {
        head: head_of(text),
        bytes,
    })
}
