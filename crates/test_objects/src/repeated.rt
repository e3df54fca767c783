//! Pieces of a text that are written once and stand in it many times.

use std::alloc::{AllocError, Global};

// Appends the piece, with the place in place of each `#`.
fn push_piece(alloc: Global, out: &mut String, piece: &str, place: u32) -> Result<(), AllocError> {
    let place = format!(in alloc; "{place}")?;
    let piece = piece.replace(alloc, '#', place.as_str())?;
    out.push_str(piece.as_str())
}

fn push_run(alloc: Global, out: &mut String, run: &str) -> Result<(), AllocError> {
    let (count, piece) = run.split_once('|').unwrap_or(("1", run));
    for place in 0..count.parse::<u32>().unwrap_or(0) {
        push_piece(alloc, out, piece, place)?;
    }
    Ok(())
}

/// The text with each `<N|piece>` written out.
pub fn written_out(alloc: Global, text: &str) -> Result<String, AllocError> {
    let mut out = String::new(alloc);
    for part in text.split('<') {
        match part.split_once('>') {
            Some((run, after)) => {
                push_run(alloc, &mut out, run)?;
                out.push_str(after)?;
            }
            None => out.push_str(part)?,
        }
    }
    Ok(out)
}
