//! The nonces of numbered lines.
ghost use Rattle.std.specs.Prelude.{◌≡◌, true, IfOk};
ghost use Rattle.message_signature.specs.Marks.{is_nonce};
ghost use Rattle.signed_requests.specs.Nonces.{line_nonce};

use bytes_and_lists::bytes::Bytes;
use bytes_and_lists::memory::Mem;
use itoa::Buffer;
use std::alloc::Global;

/// The nonce that the line of this number has where it names none: its moment `at` (in seconds since 1970) in decimal, `-`, and the number in decimal.
/// It has 3 to 41 bytes.
pub fn line_nonce(alloc: Global, at: u64, number: u64) -> Result<Bytes, Mem>
    ensures value { IfOk result (λ b. b ≡ line_nonce at number) }
    ensures nonce { IfOk result (λ b. is_nonce b ≡ true) }
{
    let mut buffer = Buffer::new();
    let mut nonce = Bytes::from_slice(alloc, buffer.format(at).as_bytes())?;
    nonce.push(b'-')?;
    nonce.extend(buffer.format(number).as_bytes())?;
    Ok(nonce)
}
