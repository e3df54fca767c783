//! What a person is told, on standard error, of words that are no command.
ghost use Rattle.std.specs.Prelude.{◌≡◌, ◌++◌, flat_map, map, string_bytes, option_copied};
ghost use Rattle.command_words.specs.Telling.{HasTold};
ghost use Rattle.command_words.specs.Hints.{is_usage_of, line_for, usage_for, usage_of, asks_for_usage, name_hint, last_count, words_text, count_line, miscount, count_hint, form_text, word_hint};

use crate::command::counts_of;
use crate::telling::{shown_front, shown_pieces, write_pieces};
use crate::usage::USAGE;
use crate::wrong_words::WordForm;
use itoa::Buffer;
use outside::device::{Failed, Sink, write_all};

// Whether a line of the usage is of the command of this name.
fn is_usage_of(name: &[u8], line: &[u8]) -> bool
    ensures { result ≡ is_usage_of name.now line.now }
{
    match line.strip_prefix(b"  gnap ") {
        Some(words) => match words.strip_prefix(name) {
            Some([next, ..]) => *next == b' ',
            Some([]) | None => false,
        },
        None => false,
    }
}

// The line of the usage where it is of the command of this name, or where there is no name.
fn line_for<'a>(name: Option<&str>, line: &'a str) -> &'a [u8]
    ensures { result.now ≡ line_for (option_copied name.entry) line.now }
{
    match name {
        Some(name) => {
            if is_usage_of(name.as_bytes(), line.as_bytes()) {
                line.as_bytes()
            } else {
                b""
            }
        }
        None => line.as_bytes(),
    }
}

// Tells these pieces, and behind them those of the lines that are of the command of this name, and without a name all.
fn tell_with_lines<E: Sink>(err: &mut E, pieces: &[&[u8]], lines: &[&str], name: Option<&str>)
    ensures { HasTold (flat_map (λ piece. piece.now) pieces.now ++ flat_map (λ line. line_for (option_copied name.entry) line.now) lines.now)
        (E.told err.old) (E.told err.new) (E.faults err.old) (E.faults err.new) }
{
    if let Err(Failed) = write_pieces(err, pieces) {
        return;
    }
    for line in lines {
        if let Err(Failed) = write_all(err, line_for(name, line)) {
            return;
        }
    }
}

// Tells these pieces, and behind them the lines of the usage: those of the command of this name, and without a name all.
fn tell_with_usage<E: Sink>(err: &mut E, pieces: &[&[u8]], name: Option<&str>)
    ensures { HasTold (flat_map (λ piece. piece.now) pieces.now ++ usage_for (option_copied name.entry))
        (E.told err.old) (E.told err.new) (E.faults err.old) (E.faults err.new) }
{
    tell_with_lines(err, pieces, &USAGE, name);
}

// Whether the word asks which commands there are.
fn asks_for_usage(word: &str) -> bool
    ensures { result ≡ asks_for_usage word.now }
{
    word == "-h" || word == "--help"
}

/// Tells which commands there are, and before that which word is none.
pub fn explain_name<E: Sink>(err: &mut E, words: &[String])
    ensures { HasTold (name_hint (map string_bytes words.now)) (E.told err.old) (E.told err.new) (E.faults err.old) (E.faults err.new) }
{
    let Some((name, _)) = words.split_first() else {
        return tell_with_usage(err, &[], None);
    };
    if asks_for_usage(name.as_str()) {
        return tell_with_usage(err, &[], None);
    }
    let front = shown_front(name.as_bytes());
    let (shown, more) = shown_pieces(&front, name.as_bytes());
    tell_with_usage(err, &[b"gnap: `", shown, more, b"` is no command\n"], None);
}

// What follows the first of two counts: nothing where they are the same, and else the last one, in these digits.
fn last_count<'a>(least: usize, most: usize, digits: &'a str) -> (&'a str, &'a str)
    ensures { result.0.now ++ result.1.now ≡ last_count least most digits.now }
{
    if least < most {
        (" or ", digits)
    } else {
        ("", "")
    }
}

// One word, or several.
fn words_text(most: usize) -> &'static str
    ensures { result.now ≡ words_text most }
{
    if most == 1 { " word" } else { " words" }
}

// Tells in these words how many the command of this name takes, in these digits how many there are, and how it is used.
fn tell_count_line<'a, E: Sink>(
    err: &mut E,
    name: &'a str,
    first: &'a str,
    or: &'a str,
    last: &'a str,
    words: &'a str,
    given: &'a str,
)
    ensures { HasTold (count_line name.now (first.now ++ (or.now ++ last.now)) words.now given.now ++ usage_of name.now)
        (E.told err.old) (E.told err.new) (E.faults err.old) (E.faults err.new) }
{
    tell_with_usage(
        err,
        &[
            b"gnap: `",
            name.as_bytes(),
            b"` takes ",
            first.as_bytes(),
            or.as_bytes(),
            last.as_bytes(),
            words.as_bytes(),
            b" after it, and there are ",
            given.as_bytes(),
            b"\nusage:\n",
        ],
        Some(name),
    );
}

// Tells how many words the command of this name takes, how many there are, and how it is used.
fn tell_miscount<E: Sink>(err: &mut E, name: &str, given: usize, least: usize, most: usize)
    ensures { HasTold (miscount name.now given least most ++ usage_of name.now)
        (E.told err.old) (E.told err.new) (E.faults err.old) (E.faults err.new) }
{
    let (mut first, mut last, mut number) = (Buffer::new(), Buffer::new(), Buffer::new());
    let (or, last) = last_count(least, most, last.format(most));
    let words = words_text(most);
    let given = number.format(given);
    tell_count_line(err, name, first.format(least), or, last, words, given);
}

/// Tells how many words the command takes, how many there are, and how it is used.
pub fn explain_count<E: Sink>(err: &mut E, words: &[String])
    ensures { HasTold (count_hint (map string_bytes words.now)) (E.told err.old) (E.told err.new) (E.faults err.old) (E.faults err.new) }
{
    let Some((name, arguments)) = words.split_first() else {
        return;
    };
    match counts_of(name.as_str()) {
        Some((least, most)) => tell_miscount(err, name.as_str(), arguments.len(), least, most),
        None => tell_with_usage(err, &[b"usage:\n"], Some(name.as_str())),
    }
}

// What a word that isn't of the form is none of.
fn form_text(form: WordForm) -> &'static str
    ensures { result.now ≡ form_text form }
{
    match form {
        WordForm::Argument => "argument: an argument isn't empty, and doesn't begin with `-`",
        WordForm::FieldKind => "kind of field (item, list or dictionary)",
        WordForm::HashMethod => "hash method (sha-256 or sha-512)",
        WordForm::Moment => "moment (0 to 253402300799, in seconds since 1970)",
        WordForm::Nonce =>
            "nonce (1 to 64 letters, digits, `.`, `_` or `-`, the first of them no `-`)",
        WordForm::Workers => "number of workers (1 to 64)",
        WordForm::Connections => "number of connections (0 to 1000000)",
        WordForm::Replies => "number of replies to keep (1 to 16384)",
        WordForm::Grants => "number of grants (1 to 100000)",
        WordForm::Start => "start (0 to 18446744073709551615)",
    }
}

/// Tells which word isn't of its form, what the form is, and how the command is used. The place is that after the command's name, counted from 0.
pub fn explain_word<E: Sink>(err: &mut E, words: &[String], place: usize, form: WordForm)
    ensures { HasTold (word_hint place form (map string_bytes words.now)) (E.told err.old) (E.told err.new) (E.faults err.old) (E.faults err.new) }
{
    let Some((name, arguments)) = words.split_first() else {
        return;
    };
    let Some(word) = arguments.get(place) else {
        return tell_with_usage(err, &[b"usage:\n"], Some(name.as_str()));
    };
    let front = shown_front(word.as_bytes());
    let (shown, more) = shown_pieces(&front, word.as_bytes());
    let form = form_text(form).as_bytes();
    tell_with_usage(
        err,
        &[b"gnap: `", shown, more, b"` is no ", form, b"\nusage:\n"],
        Some(name.as_str()),
    );
}
