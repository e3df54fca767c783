//! Short lists of bytes that take no memory of their own.
ghost use Rattle.std.specs.Prelude.{◌≡◌, ◌++◌, ◌+◌, ◌≤◌, nat_le, nat_lt, true, false, [], ◌∷◌, length, map, is_some, IfSome};
ghost use Rattle.std.specs.Char.{to_ascii_lowercase};

use std::marker::Model;

/// So many bytes have room. With their number and a mark behind them they take 32.
pub(crate) const ROOM: usize = 30;

/// Up to 30 bytes. Contracts see the list of their values.
#[derive(Drop)]
pub(crate) struct InlineBytes {
    len: u8,
    bytes: [u8; ROOM],
}

impl Model for InlineBytes {
    ghost use Rattle.std.specs.Prelude.{ℕ, List, ◌≤◌, take};

    ghost Value = { List ℕ };

    ghost view = { λ b. take b.len b.bytes };

    ghost invariant = { λ b. b.len ≤ 30 };
}

impl InlineBytes {
    pub(crate) fn new() -> InlineBytes
        ensures { result ≡ [] }
    {
        InlineBytes {
            len: 0,
            bytes: [0; ROOM],
        }
    }

    /// The same bytes, where they have room.
    pub(crate) fn of(items: &[u8]) -> Option<InlineBytes>
        ensures room { is_some result ≡ nat_le (length items.now) 30 }
        ensures same { IfSome result (λ b. b ≡ items.now) }
    {
        let mut out = InlineBytes::new();
        if out.extend(items) { Some(out) } else { None }
    }

    pub(crate) fn as_slice(&self) -> &[u8]
        ensures { result.now ≡ self.now }
    {
        &self.bytes[..self.len as usize]
    }

    /// Adds the bytes at the end, where they have room, and says whether they have.
    pub(crate) fn extend(&mut self, more: &[u8]) -> bool
        ensures room { result ≡ nat_le (length self.old + length more.now) 30 }
        ensures added { result ≡ true → self.new ≡ self.old ++ more.now }
        ensures stays { result ≡ false → self.new ≡ self.old }
    {
        let len = self.len as usize;
        if more.len() > ROOM - len {
            return false;
        }
        self.bytes[len..len + more.len()].copy_from_slice(more);
        self.len = (len + more.len()) as u8;
        true
    }

    /// Adds the byte at the end, where it has room, and says whether it has.
    pub(crate) fn push(&mut self, item: u8) -> bool
        ensures room { result ≡ nat_lt (length self.old) 30 }
        ensures added { result ≡ true → self.new ≡ self.old ++ item ∷ [] }
        ensures stays { result ≡ false → self.new ≡ self.old }
    {
        let len = self.len as usize;
        if len >= ROOM {
            return false;
        }
        self.bytes[len] = item;
        self.len = (len + 1) as u8;
        true
    }

    #[tactic(auto, using(crate::proofs::Fronts::front_mapped))]
    pub(crate) fn make_ascii_lowercase(&mut self)
        ensures { self.new ≡ map to_ascii_lowercase self.old }
    {
        // Of the bytes that are used, and behind them to a multiple of 8, which go together: what is left over goes one by one.
        self.bytes[..(self.len as usize).next_multiple_of(8).min(ROOM)].make_ascii_lowercase();
    }
}
