//! The interaction hash (RFC 9635, section 4.2.3).
ghost use Rattle.std.specs.Prelude.{◌≡◌, ◌++◌, IfOk, IsUtf8};
ghost use Rattle.sha2.specs.Sha256.{sha256};
ghost use Rattle.sha2.specs.Sha512.{sha512};
ghost use Rattle.base64.specs.Engines.{url_safe_no_pad};
ghost use Rattle.base64.specs.GeneralPurpose.{encode_of};
ghost use Rattle.interaction.specs.Hashes.{hash_text, digest_of, interaction_hash};

use base64::engine::general_purpose::URL_SAFE_NO_PAD;
use bytes_and_lists::bytes::Bytes;
use bytes_and_lists::memory::Mem;
use sha2::{Digest, Sha256, Sha512};
use std::alloc::Global;

// The four texts, joined by LF.
fn hash_text(
    alloc: Global,
    client_nonce: &[u8],
    server_nonce: &[u8],
    reference: &[u8],
    endpoint: &[u8],
) -> Result<Bytes, Mem>
    ensures { IfOk result (λ b. b ≡ hash_text client_nonce.now server_nonce.now reference.now endpoint.now) }
{
    let mut text = Bytes::from_slice(alloc, client_nonce)?;
    text.push(b'\n')?;
    text.extend(server_nonce)?;
    text.push(b'\n')?;
    text.extend(reference)?;
    text.push(b'\n')?;
    text.extend(endpoint)?;
    Ok(text)
}

fn sha256(text: &[u8]) -> [u8; 32]
    ensures { result ≡ sha256 text.now }
{
    let mut hasher = Sha256::new();
    hasher.update(text);
    hasher.finalize()
}

fn sha512(text: &[u8]) -> [u8; 64]
    ensures { result ≡ sha512 text.now }
{
    let mut hasher = Sha512::new();
    hasher.update(text);
    hasher.finalize()
}

fn encoded(alloc: Global, bytes: &[u8]) -> Result<Bytes, Mem>
    ensures text { IfOk result (λ b. b ≡ encode_of url_safe_no_pad bytes.now) }
    ensures utf8 { IfOk result (λ b. IsUtf8 b) }
{
    let text = URL_SAFE_NO_PAD.encode(alloc, bytes)?;
    Ok(Bytes::from_vec(text.into_bytes()))
}

/// The interaction hash: the SHA-256 digest, or with `long` the SHA-512 digest, of the client's nonce, the server's nonce, the interaction reference and
/// the URI of the grant endpoint, joined by LF with none at the end; in base64url without padding, so 43 or 86 characters.
#[tactic(auto, unfolding(crate::specs::Hashes::interaction_hash))]
pub fn interaction_hash(
    alloc: Global,
    long: bool,
    client_nonce: &[u8],
    server_nonce: &[u8],
    reference: &[u8],
    endpoint: &[u8],
) -> Result<Bytes, Mem>
    ensures hash { IfOk result (λ b. b ≡ interaction_hash long client_nonce.now server_nonce.now reference.now endpoint.now) }
    ensures utf8 { IfOk result (λ b. IsUtf8 b) }
{
    let text = hash_text(alloc, client_nonce, server_nonce, reference, endpoint)?;
    if long {
        encoded(alloc, &sha512(text.as_slice()))
    } else {
        encoded(alloc, &sha256(text.as_slice()))
    }
}
