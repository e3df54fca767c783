//! Finish URIs (RFC 9635, section 4.2.1).
ghost use Rattle.std.specs.Prelude.{◌≡◌, Some, None, Ok, Err, false, ◌↔◌, IfOk, OnOk, OnErr, IfErr, IsUtf8, MatchResult, MatchOption};
ghost use Rattle.url.specs.Parser.{parse_url};
ghost use Rattle.url.specs.Parts.{serialize};
ghost use Rattle.interaction.specs.Uris as spec;
ghost use Rattle.interaction.specs.Uris.{web_of, web_url, GivesUri};
ghost use Rattle.interaction.specs.declared.uris.UriFault.TheVariants.{NotAUri};

use bytes_and_lists::bytes::Bytes;
use bytes_and_lists::memory::Mem;
use std::alloc::Global;
use thiserror::Error;
use url::{ParseError, Url};

/// Why there is no finish URI.
#[derive(Clone, Copy, Debug, PartialEq, Eq, Error)]
pub enum UriFault {
    /// The text isn't UTF-8, is no URL, has another scheme than `http` and `https`, or has a fragment.
    #[error("it is no `http` or `https` URI without a fragment")]
    NotAUri,
    #[error("memory ran out")]
    OutOfMemory,
}

impl From<Mem> for UriFault {
    ghost use Rattle.std.specs.Prelude.{◌≡◌};
    ghost use Rattle.interaction.specs.declared.uris.UriFault.TheVariants.{OutOfMemory};

    ghost from_gives = { λ _ e. e ≡ OutOfMemory };

    fn from(_e: Mem) -> UriFault {
        UriFault::OutOfMemory
    }
}

// The URL of a finish URI, or none where the text is none.
#[tactic(auto, using(crate::proofs::WebUrls::valid_text, crate::proofs::WebUrls::invalid_text))]
fn read(alloc: Global, text: &[u8]) -> Result<Option<Url>, Mem>
    ensures { IfOk result (λ o. o ≡ web_url text.now) }
{
    let Ok(text) = str::from_utf8(text) else {
        return Ok(None);
    };
    parse(alloc, text)
}

// The URL that a text is, where it is one of the web.
#[tactic(auto, unfolding(crate::specs::Uris::web_of))]
fn parse(alloc: Global, text: &str) -> Result<Option<Url>, Mem>
    ensures { IfOk result (λ o. o ≡ web_of (parse_url None text.now)) }
{
    match Url::parse(alloc, text) {
        Ok(url) => if is_web(&url) {
            Ok(Some(url))
        } else {
            Ok(None)
        },
        Err(ParseError::OutOfMemory | ParseError::Overflow) => Err(Mem),
        Err(_) => Ok(None),
    }
}

#[tactic(auto, unfolding(crate::specs::Uris::is_web))]
fn is_web(url: &Url) -> bool
    ensures { result ≡ spec.is_web url.now }
{
    (url.scheme() == "http" || url.scheme() == "https") && !url.fragment().is_some()
}

/// Whether the text is a finish URI: UTF-8, a URL by the URL Standard, with the scheme `http` or `https` and no fragment. The standard's parser passes
/// over blanks at the ends, tabs and line ends, so a text that fits isn't always a URI letter by letter.
pub fn uri_fits(alloc: Global, uri: &[u8]) -> Result<bool, Mem>
    ensures { IfOk result (λ b. b ≡ spec.uri_fits uri.now) }
{
    Ok(read(alloc, uri)?.is_some())
}

// Adds the two pairs to the query.
fn add_pairs(url: &mut Url, hash: &str, reference: &str) -> Result<(), Mem>
    ensures { OnOk result (spec.with_pairs hash.now reference.now url.old ≡ serialize url.new) }
{
    match url.append_query_pairs(&[("hash", hash), ("interact_ref", reference)]) {
        Ok(()) => Ok(()),
        Err(_) => Err(Mem),
    }
}

/// The URI that the resource owner is sent back to: the finish URI as the URL Standard writes it, with the pairs `hash` and `interact_ref` behind its query.
/// NotAUri comes exactly where `uri_fits` is false.
pub fn finish_uri(
    alloc: Global,
    uri: &[u8],
    hash: &[u8],
    reference: &[u8],
) -> Result<Bytes, UriFault>
    requires hash { IsUtf8 hash.now }
    requires reference { IsUtf8 reference.now }
    ensures uri { GivesUri result (spec.finish_uri uri.now hash.now reference.now) }
    ensures utf8 { IfOk result (λ text. IsUtf8 text) }
{
    let Some(mut url) = read(alloc, uri)? else {
        return Err(UriFault::NotAUri);
    };
    let hash = unsafe { str::from_utf8_unchecked(hash) };
    let reference = unsafe { str::from_utf8_unchecked(reference) };
    add_pairs(&mut url, hash, reference)?;
    Ok(Bytes::from_slice(alloc, url.as_str().as_bytes())?)
}
