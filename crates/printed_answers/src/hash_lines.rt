//! The interaction hash of texts, printed.
ghost use Rattle.std.specs.Prelude.{◌≡◌, IfOk};
ghost use Rattle.command_inputs.specs.Ends.{CountsWrites};
ghost use Rattle.printed_answers.specs.HashLines.{hash_line, PrintsHash};

use bytes_and_lists::bytes::Bytes;
use bytes_and_lists::memory::Mem;
use command_inputs::{Ended, print_text};
use interaction::interaction_hash;
use outside::device::Sink;
use std::alloc::Global;

/// What an interaction hash is made of (RFC 9635, section 4.2.3).
#[derive(Drop)]
pub struct HashedTexts {
    /// The hash method is `sha-512` in place of `sha-256`.
    pub long: bool,
    /// The nonce of the client.
    pub client_nonce: Bytes,
    /// The nonce of the authorization server.
    pub server_nonce: Bytes,
    /// The interaction reference.
    pub reference: Bytes,
    /// The URI of the grant endpoint.
    pub endpoint: Bytes,
}

fn hash_line(alloc: Global, texts: &HashedTexts) -> Result<Bytes, Mem>
    ensures { IfOk result (λ line. line ≡ hash_line texts.now) }
{
    let mut line = interaction_hash(
        alloc,
        texts.long,
        texts.client_nonce.as_slice(),
        texts.server_nonce.as_slice(),
        texts.reference.as_slice(),
        texts.endpoint.as_slice(),
    )?;
    line.push(b'\n')?;
    Ok(line)
}

/// Prints the interaction hash of the texts, and LF.
pub fn print_hash<O: Sink>(alloc: Global, texts: &HashedTexts, out: &mut O) -> Ended
    ensures prints { PrintsHash texts.now (O.told out.old) (O.told out.new) result }
    ensures writes { CountsWrites result (O.faults out.old) (O.faults out.new) }
{
    match hash_line(alloc, texts) {
        Ok(line) => print_text(&line, out),
        Err(Mem) => Ended::Memory,
    }
}
