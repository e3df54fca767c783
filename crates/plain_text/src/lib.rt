//! Plain text: ASCII that stands in a string of JSON as it is (RFC 8259, section 7), as most texts do.
//!
//! `plain_len` says how many bytes at the front are plain, and `is_plain_text` whether all are. They look at sixteen bytes at a time, and their code is short.
#![tactic(auto)]

ghost use Rattle.std.specs.Prelude.{◌≡◌, ◌≤◌, length, take, map, IsTrue};
ghost use Rattle.std.specs.Simd.Lanes.{mask_l};
ghost use Rattle.plain_text.specs.PlainText.{IsPlainByte, is_stop, IsPlain};

use std::simd::prelude::*;

// So many bytes are looked at together.
const CHUNK: usize = 16;

/// How many bytes at the front stand for themselves in a string.
#[inline(always)]
pub fn plain_len(bytes: &[u8]) -> usize
    ensures within { result ≤ length bytes.now }
    ensures plain { IsPlain (take result bytes.now) }
{
    let mut len = 0;
    'chunks: while bytes.len() - len >= CHUNK {
        let found = stops(u8x16::from_slice(&bytes[len..]));
        if found != 0 {
            return len + found.trailing_zeros() as usize;
        }
        len += CHUNK;
    }
    plain_len_from(bytes, len)
}

/// Whether all bytes stand for themselves in a string. Only `true` promises something.
#[inline(always)]
pub fn is_plain_text(bytes: &[u8]) -> bool
    ensures { IsTrue result → IsPlain bytes.now }
{
    if bytes.len() < CHUNK {
        return plain_len_from(bytes, 0) == bytes.len();
    }
    let mut len = 0;
    'chunks: while bytes.len() - len > CHUNK {
        if stops(u8x16::from_slice(&bytes[len..])) != 0 {
            return false;
        }
        len += CHUNK;
    }
    // The last sixteen bytes, of which some may have been looked at.
    stops(u8x16::from_slice(&bytes[bytes.len() - CHUNK..])) == 0
}

/// How many bytes at the front are plain, where the first `start` are.
#[inline(always)]
fn plain_len_from(bytes: &[u8], start: usize) -> usize
    requires within { start ≤ length bytes.now }
    requires plain { IsPlain (take start bytes.now) }
    ensures within { result ≤ length bytes.now }
    ensures plain { IsPlain (take result bytes.now) }
{
    let mut len = start;
    'plain: while len < bytes.len() && is_plain_byte(bytes[len]) {
        len += 1;
    }
    len
}

/// Those that don't stand for themselves, one bit for each.
#[inline(always)]
fn stops(bytes: u8x16) -> u64
    ensures { result ≡ mask_l (map is_stop bytes) }
{
    (bytes.simd_eq(u8x16::splat(b'"'))
        | bytes.simd_eq(u8x16::splat(b'\\'))
        | bytes.simd_lt(u8x16::splat(b' '))
        | bytes.simd_gt(u8x16::splat(b'~'))).to_bitmask()
}

/// The byte stands for itself in a string, and is ASCII.
#[tactic(auto, using(crate::proofs::PlainText::plain_byte))]
#[inline(always)]
fn is_plain_byte(byte: u8) -> bool
    ensures { IsTrue result → IsPlainByte byte }
{
    byte >= b' ' && byte <= b'~' && byte != b'"' && byte != b'\\'
}
