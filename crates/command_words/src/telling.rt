//! How a person is told something, on standard error: piece by piece, as far as the pieces can be written.
ghost use Rattle.std.specs.Prelude.{◌≡◌, ◌<◌, ◌++◌, flat_map, get_or, length, map, take};
ghost use Rattle.std.specs.Fmt.{decimal};
ghost use Rattle.outside.specs.Outside.{HasSent, HasCause};
ghost use Rattle.command_words.specs.Telling.{HasTold, shown_byte, shown_text};

use outside::device::{Failed, Sink, write_all};

/// Writes the pieces, one behind another.
pub(crate) fn write_pieces<E: Sink>(err: &mut E, pieces: &[&[u8]]) -> Result<(), Failed>
    ensures sent { HasSent (flat_map (λ piece. piece.now) pieces.now) (E.told err.old) (E.told err.new) result }
    ensures cause { HasCause (E.faults err.old) (E.faults err.new) result }
{
    for piece in pieces {
        write_all(err, piece)?;
    }
    Ok(())
}

/// Writes these pieces, as far as they can be written.
#[tactic(auto, using(crate::proofs::ToldTexts::told_sent))]
pub fn tell<E: Sink>(err: &mut E, pieces: &[&[u8]])
    ensures { HasTold (flat_map (λ piece. piece.now) pieces.now) (E.told err.old) (E.told err.new) (E.faults err.old) (E.faults err.new) }
{
    let _ = write_pieces(err, pieces);
}

/// Writes a number in decimal digits.
pub fn tell_number<E: Sink>(err: &mut E, number: usize)
    ensures { HasTold (decimal number) (E.told err.old) (E.told err.new) (E.faults err.old) (E.faults err.new) }
{
    let mut digits = itoa::Buffer::new();
    tell(err, &[digits.format(number).as_bytes()]);
}

// How many bytes of a word or a name are shown.
const SHOWN: usize = 64;

// The byte as it is shown: `?` where a terminal may act on it.
fn shown_byte(byte: u8) -> u8
    ensures { result ≡ shown_byte byte }
{
    if byte.is_ascii_control() { b'?' } else { byte }
}

// The byte at this place of the text as it is shown, and anything where there is none.
fn shown_at(text: &[u8], place: usize) -> u8
    ensures { place < length text.now → result ≡ shown_byte (get_or text.now place 0) }
{
    match text.get(place) {
        Some(byte) => shown_byte(*byte),
        None => b'?',
    }
}

/// The first bytes of the text as they are shown, and anything where it has fewer.
pub(crate) fn shown_front(text: &[u8]) -> [u8; SHOWN]
    ensures { take (length text.now) result ≡ map shown_byte (take 64 text.now) }
{
    let mut shown = [b'?'; SHOWN];
    for place in 0..SHOWN {
        shown[place] = shown_at(text, place);
    }
    shown
}

/// The pieces of the text as it is shown, of which the first bytes are these.
pub(crate) fn shown_pieces<'a>(front: &'a [u8; SHOWN], text: &[u8]) -> (&'a [u8], &'a [u8])
    requires { take (length text.now) front.now ≡ map shown_byte (take 64 text.now) }
    ensures { result.0.now ++ result.1.now ≡ shown_text text.now }
{
    if text.len() <= SHOWN {
        (&front[..text.len()], b"")
    } else {
        (front, b"..")
    }
}

/// Writes the beginning of a text that somebody else wrote, with `?` for bytes that a terminal may act on.
pub fn tell_shown<E: Sink>(err: &mut E, text: &[u8])
    ensures { HasTold (shown_text text.now) (E.told err.old) (E.told err.new) (E.faults err.old) (E.faults err.new) }
{
    let front = shown_front(text);
    let (shown, more) = shown_pieces(&front, text);
    tell(err, &[shown, more]);
}
