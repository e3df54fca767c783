//! What has a written form: texts, options and lists of what has one.
ghost use Rattle.std.specs.Prelude.{◌≡◌, ℕ, List, ◌++◌, IfOk, OnOk};
ghost use Rattle.kept_rights.specs.Reading.{items_at};

use crate::lengths::{byte_of, length_of, put_length};
use bytes_and_lists::bytes::Bytes;
use bytes_and_lists::memory::Mem;
use bytes_and_lists::seq::Seq;
use std::alloc::Global;

/// A value that is written as bytes, and read from the front of bytes.
pub(crate) trait Form: Drop {
    /// The bytes that stand for it.
    ghost written: { Self → List ℕ };

    /// What is read from the front of bytes, and the bytes after it.
    ghost read_at: { List ℕ → Self × List ℕ };

    /// Writes it at the end.
    fn put(&self, bytes: &mut Bytes) -> Result<(), Mem>
        ensures { OnOk result (bytes.new ≡ bytes.old ++ written self.now) };

    /// Reads one from the front.
    fn read(alloc: Global, bytes: &[u8]) -> Result<(Self, &[u8]), Mem>
        ensures { IfOk result (λ x. (x.0, x.1.now) ≡ read_at bytes.now) };
}

impl Form for Bytes {
    ghost use Rattle.kept_rights.specs.Written.{written_text};
    ghost use Rattle.kept_rights.specs.Reading.{text_at};

    ghost written = { written_text };

    ghost read_at = { text_at };

    fn put(&self, bytes: &mut Bytes) -> Result<(), Mem> {
        put_length(bytes, self.len())?;
        bytes.extend(self.as_slice())
    }

    #[tactic(auto, unfolding(crate::specs::Reading::text_at))]
    fn read(alloc: Global, bytes: &[u8]) -> Result<(Bytes, &[u8]), Mem> {
        let (n, rest) = length_of(bytes);
        let (text, rest) = rest.split_at(n);
        Ok((Bytes::from_slice(alloc, text)?, rest))
    }
}

impl<T: Form> Form for Option<T> {
    ghost use Rattle.kept_rights.specs.Written.{written_option};
    ghost use Rattle.kept_rights.specs.Reading.{option_at};

    ghost written = { written_option T.written };

    ghost read_at = { option_at T.read_at };

    fn put(&self, bytes: &mut Bytes) -> Result<(), Mem> {
        match self {
            None => bytes.push(0),
            Some(value) => {
                bytes.push(1)?;
                value.put(bytes)
            }
        }
    }

    #[tactic(auto, unfolding(crate::specs::Reading::option_at))]
    fn read(alloc: Global, bytes: &[u8]) -> Result<(Option<T>, &[u8]), Mem> {
        let (flag, rest) = byte_of(bytes);
        if flag == 0 {
            return Ok((None, rest));
        }
        let (value, rest) = T::read(alloc, rest)?;
        Ok((Some(value), rest))
    }
}

impl<T: Form> Form for Seq<T> {
    ghost use Rattle.kept_rights.specs.Written.{written_list};
    ghost use Rattle.kept_rights.specs.Reading.{list_at};

    ghost written = { written_list T.written };

    ghost read_at = { list_at T.read_at };

    fn put(&self, bytes: &mut Bytes) -> Result<(), Mem> {
        put_length(bytes, self.len())?;
        for item in self.as_slice() {
            item.put(bytes)?;
        }
        Ok(())
    }

    #[tactic(auto, unfolding(crate::specs::Reading::list_at))]
    fn read(alloc: Global, bytes: &[u8]) -> Result<(Seq<T>, &[u8]), Mem> {
        let (n, rest) = length_of(bytes);
        items_of(alloc, n, rest)
    }
}

// Two, one after the other.
impl<A: Form, B: Form> Form for (A, B) {
    ghost use Rattle.kept_rights.specs.Written.{written_two};
    ghost use Rattle.kept_rights.specs.Reading.{two_at};

    ghost written = { written_two A.written B.written };

    ghost read_at = { two_at A.read_at B.read_at };

    fn put(&self, bytes: &mut Bytes) -> Result<(), Mem> {
        self.0.put(bytes)?;
        self.1.put(bytes)
    }

    fn read(alloc: Global, bytes: &[u8]) -> Result<((A, B), &[u8]), Mem> {
        let (one, rest) = A::read(alloc, bytes)?;
        let (other, rest) = B::read(alloc, rest)?;
        Ok(((one, other), rest))
    }
}

// This many items.
fn items_of<T: Form>(alloc: Global, n: usize, bytes: &[u8]) -> Result<(Seq<T>, &[u8]), Mem>
    ensures { IfOk result (λ x. (x.0, x.1.now) ≡ items_at T.read_at n bytes.now) }
{
    let mut items = Seq::from_vec(Vec::with_capacity(alloc, n)?);
    let mut left = bytes;
    for _ in 0..n {
        let (item, rest) = T::read(alloc, left)?;
        items.push(item)?;
        left = rest;
    }
    Ok((items, left))
}
