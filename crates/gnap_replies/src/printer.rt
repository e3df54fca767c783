//! JSON that is printed straight into its bytes, without a tree.
ghost use Rattle.std.specs.Prelude.{◌≡◌, ◌++◌, [], ◌∷◌, ℕ, List, IfOk, IsTrue, IsUtf8, false, true, decimal};
ghost use Rattle.json.specs.Print.{quoted, token_text, IsPrintable};
ghost use Rattle.json.specs.Reads.{token_of};
ghost use Rattle.serde_json.specs.Written.{comma_if};
ghost use Rattle.plain_text.specs.PlainText.{IsPlain};
ghost use Rattle.gnap_replies.specs.Printing.{Printed, then_value, then_begin, then_end, then_name, HasPrinted};

use bytes_and_lists::bytes::Bytes;
use bytes_and_lists::memory::Mem;
use itoa::Buffer;
use json::{Token, Writer};
use plain_text::is_plain_text;
use std::alloc::Global;
use std::mem::replace;

// Most replies have fewer bytes.
const ROOM: usize = 512;

/// The compact text so far, or that memory ran out. It places the commas and the colons, and leaves the nesting to its caller.
#[derive(Drop)]
pub struct Printer {
    text: Result<Vec<u8>, Mem>,
    after_value: bool,
}

// Appends a comma, where a value has just ended, and the piece.
fn put_piece(text: &mut Vec<u8>, after_value: bool, piece: &[u8]) -> Result<(), Mem>
    ensures { IfOk result (λ done. text.new.items ≡ text.old.items ++ (comma_if after_value ++ piece.now)) }
{
    if after_value {
        text.push(b',')?;
    }
    text.extend_from_slice(piece)?;
    Ok(())
}

// Whether the text stands in a string as it is. Its code stands once, for names, strings and places.
#[inline(never)]
pub fn is_plain(text: &[u8]) -> bool
    ensures { IsTrue result → IsPlain text.now }
{
    is_plain_text(text)
}

// Appends a comma, where a value has just ended, and texts that stand in a string as they are, between quotes.
fn put_plain(text: &mut Vec<u8>, after_value: bool, front: &[u8], end: &[u8]) -> Result<(), Mem>
    ensures { IfOk result (λ done. text.new.items ≡ text.old.items ++ (comma_if after_value ++ 34 ∷ (front.now ++ (end.now ++ 34 ∷ [])))) }
{
    if after_value {
        text.push(b',')?;
    }
    text.push(b'"')?;
    text.extend_from_slice(front)?;
    text.extend_from_slice(end)?;
    text.push(b'"')?;
    Ok(())
}

// A comma behind it, where a value has just ended.
fn with_comma(text: Result<Vec<u8>, Mem>, after_value: bool) -> Result<Vec<u8>, Mem>
    ensures { (p : Printed) → IfOk text (λ t. ◌≡◌ {A = Printed} (t.items, after_value) p) → IfOk result (λ t. t.items ≡ p.0 ++ comma_if p.1) }
{
    let mut text = text?;
    if after_value {
        text.push(b',')?;
    }
    Ok(text)
}

// A string, or the name of a member with its colon, by the writer of `json`. It fills room ahead for each.
fn with_token(
    text: Result<Vec<u8>, Mem>,
    after_value: bool,
    token: Token<'_>,
) -> Result<Vec<u8>, Mem>
    requires { IsPrintable (token_of token) }
    ensures { (p : Printed) → IfOk text (λ t. ◌≡◌ {A = Printed} (t.items, after_value) p)
        → IfOk result (λ t. t.items ≡ p.0 ++ (comma_if p.1 ++ token_text (token_of token.entry))) }
{
    let mut out = Writer::new(with_comma(text, after_value)?);
    out.token(token)?;
    Ok(out.into_inner())
}

fn with_room(alloc: Global) -> Result<Vec<u8>, Mem>
    ensures { IfOk result (λ text. text.items ≡ []) }
{
    Ok(Vec::with_capacity(alloc, ROOM)?)
}

impl Printer {
    /// Nothing yet.
    pub fn new(alloc: Global) -> Printer
        ensures { HasPrinted result ([], false) }
    {
        Printer {
            text: with_room(alloc),
            after_value: false,
        }
    }

    /// Memory ran out.
    pub fn starve(&mut self)
        ensures { (p : Printed) → HasPrinted self.new p }
    {
        self.text = Err(Mem);
    }

    fn put(&mut self, piece: &[u8])
        ensures { (p : Printed) → HasPrinted self.old p → IfOk self.new.text (λ t. t.items ≡ p.0 ++ (comma_if p.1 ++ piece.now)) }
    {
        let done = match &mut self.text {
            Ok(text) => put_piece(text, self.after_value, piece),
            Err(Mem) => return,
        };
        if done.is_err() {
            self.text = Err(Mem);
        }
    }

    fn put_token(&mut self, token: Token<'_>)
        requires { IsPrintable (token_of token) }
        ensures { (p : Printed) → HasPrinted self.old p → IfOk self.new.text (λ t. t.items ≡ p.0 ++ (comma_if p.1 ++ token_text (token_of token.entry))) }
    {
        let text = replace(&mut self.text, Err(Mem));
        self.text = with_token(text, self.after_value, token);
    }

    /// A value, by its compact text.
    pub fn value(&mut self, text: &[u8])
        ensures { (p : Printed) → HasPrinted self.old p → HasPrinted self.new (then_value p text.now) }
    {
        self.put(text);
        self.after_value = true;
    }

    /// A value, by its compact text, if there was memory for that.
    pub fn made_value(&mut self, text: Result<Bytes, Mem>)
        ensures { (p : Printed) (s : List ℕ) → IfOk text (λ t. t ≡ s) → HasPrinted self.old p → HasPrinted self.new (then_value p s) }
    {
        match text {
            Ok(text) => self.value(text.as_slice()),
            Err(Mem) => self.starve(),
        }
    }

    /// A string.
    pub fn word(&mut self, value: &str)
        ensures { (p : Printed) → HasPrinted self.old p → HasPrinted self.new (then_value p (quoted value.now)) }
    {
        if is_plain(value.as_bytes()) {
            self.plain_pair(value.as_bytes(), b"");
            return;
        }
        self.put_token(Token::String(value));
        self.after_value = true;
    }

    /// A string, by its bytes.
    pub fn string(&mut self, value: &[u8])
        requires { IsUtf8 value.now }
        ensures { (p : Printed) → HasPrinted self.old p → HasPrinted self.new (then_value p (quoted value.now)) }
    {
        self.word(unsafe { str::from_utf8_unchecked(value) });
    }

    /// A string, by two parts that stand in it as they are.
    pub fn plain_pair(&mut self, front: &[u8], end: &[u8])
        requires front { IsPlain front.now }
        requires end { IsPlain end.now }
        ensures { (p : Printed) → HasPrinted self.old p → HasPrinted self.new (then_value p (quoted (front.now ++ end.now))) }
    {
        let done = match &mut self.text {
            Ok(text) => put_plain(text, self.after_value, front, end),
            Err(Mem) => return,
        };
        if done.is_err() {
            self.text = Err(Mem);
        }
        self.after_value = true;
    }

    /// A string, by its bytes.
    pub fn text(&mut self, value: &Bytes)
        requires { IsUtf8 value.now }
        ensures { (p : Printed) → HasPrinted self.old p → HasPrinted self.new (then_value p (quoted value.now)) }
    {
        self.string(value.as_slice());
    }

    /// A whole number.
    pub fn number(&mut self, value: u64)
        ensures { (p : Printed) → HasPrinted self.old p → HasPrinted self.new (then_value p (decimal value)) }
    {
        let mut buffer = Buffer::new();
        self.value(buffer.format(value).as_bytes());
    }

    /// What stands before a value, by its compact text: brackets that open, values before it and names of members.
    pub fn begin(&mut self, text: &[u8])
        ensures { (p : Printed) → HasPrinted self.old p → HasPrinted self.new (then_begin p text.now) }
    {
        self.put(text);
        self.after_value = false;
    }

    /// The bracket that closes it.
    pub fn end(&mut self, bracket: u8)
        ensures { (p : Printed) → HasPrinted self.old p → HasPrinted self.new (then_end p (bracket ∷ [])) }
    {
        self.after_value = false;
        self.put(&[bracket]);
        self.after_value = true;
    }

    /// The name of a member, whose value comes next.
    pub fn name(&mut self, name: &str)
        ensures { (p : Printed) → HasPrinted self.old p → HasPrinted self.new (then_name p name.now) }
    {
        if is_plain(name.as_bytes()) {
            self.plain_pair(name.as_bytes(), b"");
            self.after_value = false;
            self.begin(b":");
            return;
        }
        self.put_token(Token::Key(name));
        self.after_value = false;
    }

    /// All that was printed.
    pub fn into_bytes(self) -> Result<Bytes, Mem>
        ensures { (p : Printed) → HasPrinted self p → IfOk result (λ text. text ≡ p.0) }
    {
        Ok(Bytes::from_vec(self.text?))
    }
}
