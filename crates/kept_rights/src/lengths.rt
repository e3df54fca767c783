//! Bytes and lengths, at the front of bytes.
ghost use Rattle.std.specs.Prelude.{◌≡◌, ◌≤◌, ◌++◌, length, OnOk};
ghost use Rattle.kept_rights.specs.Written.{written_length};
ghost use Rattle.kept_rights.specs.Reading.{byte_at, length_at};

use bytes_and_lists::bytes::Bytes;
use bytes_and_lists::memory::Mem;

/// Writes a length at the end.
pub(crate) fn put_length(bytes: &mut Bytes, n: usize) -> Result<(), Mem>
    ensures { OnOk result (bytes.new ≡ bytes.old ++ written_length n) }
{
    for _ in 0..n / 255 {
        bytes.push(255)?;
    }
    bytes.push((n % 255) as u8)
}

/// The byte at the front, and those after it.
pub(crate) fn byte_of(bytes: &[u8]) -> (u8, &[u8])
    ensures { (result.0, result.1.now) ≡ byte_at bytes.now }
{
    match bytes {
        [byte, rest @ ..] => (*byte, rest),
        [] => (0, bytes),
    }
}

/// The length at the front, and the bytes after it, which are as many or more.
pub(crate) fn length_of(bytes: &[u8]) -> (usize, &[u8])
    ensures value { (result.0, result.1.now) ≡ length_at bytes.now }
    ensures room { result.0 ≤ length result.1.now }
{
    let mut n = 0;
    for (i, byte) in bytes.iter().enumerate() {
        let rest = &bytes[i + 1..];
        let byte = *byte as usize;
        if rest.len() < n || rest.len() - n < byte {
            return (0, &bytes[bytes.len()..]);
        }
        n += byte;
        if byte < 255 {
            return (n, rest);
        }
    }
    (0, &bytes[bytes.len()..])
}
