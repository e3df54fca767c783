//! HMAC-SHA-256 (RFC 2104, section 2).
ghost use Rattle.std.specs.Prelude.{◌≡◌, ◌↔◌, ℕ, List, ◌++◌, length, IsTrue};
ghost use Rattle.sha2.specs.Sha256.{sha256};
ghost use Rattle.sha2.specs.Hashers.{Holds256};
ghost use Rattle.hmac_key.specs.Hmac.{block_key, xor_each, ipad, opad, hmac_sha256};

use bytes_and_lists::bytes::Bytes;
use sha2::{Digest, Sha256};
use std::marker::Model;

// How many bytes a block of SHA-256 has (B in the RFC).
const BLOCK_LEN: usize = 64;

// The byte that the inner pad repeats.
const IPAD: u8 = 0x36;

// The byte that the outer pad repeats.
const OPAD: u8 = 0x5c;

fn block_of(key: &[u8]) -> [u8; BLOCK_LEN]
    ensures { result ≡ block_key key.now }
{
    let mut block = [0; BLOCK_LEN];
    if key.len() > BLOCK_LEN {
        let digest = Sha256::digest(key);
        block[..digest.len()].copy_from_slice(&digest);
    } else {
        block[..key.len()].copy_from_slice(key);
    }
    block
}

fn xored(block: [u8; BLOCK_LEN], pad: u8) -> [u8; BLOCK_LEN]
    ensures { result ≡ xor_each pad block }
{
    block.map(|b| b ^ pad)
}

// The state of SHA-256 behind a block with a pad.
fn padded(block: [u8; BLOCK_LEN], pad: u8) -> Sha256
    ensures { Holds256 result (xor_each pad block) }
{
    let mut state = Sha256::new();
    state.update(&xored(block, pad));
    state
}

// What the two states that the key begins with make of a message.
fn finished(inner: Sha256, outer: Sha256, message: &[u8]) -> [u8; 32]
    ensures { (front back : List ℕ) → Holds256 inner front → Holds256 outer back → result ≡ sha256 (back ++ sha256 (front ++ message.now)) }
{
    let mut inner = inner;
    inner.update(message);
    let mut outer = outer;
    outer.update(&inner.finalize());
    outer.finalize()
}

/// The HMAC-SHA-256 of a message under a key of any length: 32 bytes (RFC 2104, section 2). Takes no memory.
#[tactic(auto, unfolding(crate::specs::Hmac::hmac_sha256))]
pub fn hmac(key: &[u8], message: &[u8]) -> [u8; 32]
    ensures { result ≡ hmac_sha256 key.now message.now }
{
    let block = block_of(key);
    finished(padded(block, IPAD), padded(block, OPAD), message)
}

// The same state once more.
fn again(state: &Sha256) -> Sha256
    ensures { result ≡ state.now }
{
    match state.clone() {
        Ok(same) => same,
        Err(_) => unreachable!(),
    }
}

/// A key of HMAC-SHA-256, with the two states that it begins with (RFC 2104, section 4). Contracts see its bytes.
#[derive(Drop)]
pub struct HmacKey {
    secret: Bytes,
    inner: Sha256,
    outer: Sha256,
}

impl Model for HmacKey {
    ghost use Rattle.std.specs.Prelude.{ℕ, List};

    ghost Value = { List ℕ };

    ghost use Rattle.sha2.specs.Hashers.{Holds256};
    ghost use Rattle.hmac_key.specs.Hmac.{block_key, xor_each, ipad, opad};

    ghost view = { λ k. k.secret };

    ghost invariant = { λ k. Holds256 k.inner (xor_each ipad (block_key k.secret)) × Holds256 k.outer (xor_each opad (block_key k.secret)) };
}

impl HmacKey {
    /// The key of these bytes. Takes no memory.
    pub fn new(secret: Bytes) -> HmacKey
        ensures { result ≡ secret }
    {
        let block = block_of(secret.as_slice());
        HmacKey {
            inner: padded(block, IPAD),
            outer: padded(block, OPAD),
            secret,
        }
    }

    /// Its bytes.
    pub fn as_slice(&self) -> &[u8]
        ensures { result.now ≡ self.now }
    {
        self.secret.as_slice()
    }

    /// What `hmac` gives of its bytes and the message, in two blocks less. Takes no memory.
    #[tactic(auto, unfolding(crate::specs::Hmac::hmac_sha256))]
    pub fn hmac(&self, message: &[u8]) -> [u8; 32]
        ensures { result ≡ hmac_sha256 self.now message.now }
    {
        finished(again(&self.inner), again(&self.outer), message)
    }
}

// The XORs of the bytes at each place, or-ed together.
fn differences(a: &[u8], b: &[u8]) -> u8
    requires { length a.now ≡ length b.now }
    ensures { (result ≡ 0) ↔ (a.now ≡ b.now) }
{
    let mut seen = 0;
    for (i, x) in a.iter().enumerate() {
        seen |= x ^ b[i];
    }
    seen
}

/// Whether two lists of bytes are equal. Lists of one length are gone through to the end, whatever is found on the way. Takes no memory.
pub fn same(a: &[u8], b: &[u8]) -> bool
    ensures { IsTrue result ↔ (a.now ≡ b.now) }
{
    a.len() == b.len() && differences(a, b) == 0
}
