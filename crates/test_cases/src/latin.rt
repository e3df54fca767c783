//! Bytes as texts with a character for each.
use crate::case::{Case, number, pair, text};
use crate::fault::Fault;
use bytes_and_lists::bytes::Bytes;
use serde_json::Value;
use sha2::{Digest, Sha256};
use std::alloc::Global;

// Longer texts are printed as their length and digest.
const LONGEST: usize = 8_192;

// Adds the bytes of a text without runs.
fn add_text(bytes: &mut Bytes, text: &str) -> Result<(), Fault> {
    for symbol in text.chars() {
        let Ok(byte) = u8::try_from(symbol as u32) else {
            return Err(Fault::NotACase);
        };
        bytes.push(byte)?;
    }
    Ok(())
}

// Adds the bytes of the run for which a character stands.
fn add_run(bytes: &mut Bytes, runs: &[Value], symbol: char) -> Result<(), Fault> {
    let run = (symbol as usize)
        .checked_sub(256)
        .and_then(|place| runs.get(place));
    let (part, times) = pair(run.ok_or(Fault::NotACase)?)?;
    for _ in 0..number(times)? {
        add_text(bytes, text(part)?)?;
    }
    Ok(())
}

/// The bytes for which a text of the case stands.
pub fn bytes_of(alloc: Global, case: &Case<'_>, value: &Value) -> Result<Bytes, Fault> {
    let mut bytes = Bytes::new(alloc);
    for symbol in text(value)?.chars() {
        match u8::try_from(symbol as u32) {
            Ok(byte) => bytes.push(byte)?,
            Err(_) => add_run(&mut bytes, case.runs, symbol)?,
        }
    }
    Ok(bytes)
}

/// A text for the bytes. Of more than 8,192 it is their number and their SHA-256 in hexadecimal digits.
pub fn text_of(alloc: Global, bytes: &[u8]) -> Result<String, Fault> {
    if bytes.len() > LONGEST {
        let digest = hex::encode(alloc, &Sha256::digest(bytes))?;
        return Ok(format!(in alloc; "{} bytes, SHA-256 {digest}", bytes.len())?);
    }
    let mut text = String::new(alloc);
    for byte in bytes {
        text.push(char::from(*byte))?;
    }
    Ok(text)
}
