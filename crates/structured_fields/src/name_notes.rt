//! Notes on which names are there: a tree in one list of numbers, which no choice of names makes deep or slow.
ghost use Rattle.std.specs.Prelude.{◌≡◌, ℕ, List, [], ◌∷◌, ◌/◌, ◌%◌, ◌<◌, ◌≤◌, ◌^◌, Some, None, IfOk, OnOk, IsSome, slice_index, vec_len};
ghost use Rattle.std.specs.Option.{unwrap_or};
ghost use Rattle.structured_fields.specs.NameNotes.{noted_at, cell_of, digits, steps, noted, Extends};

use bytes_and_lists::memory::Mem;

/// Cells, five of each node: four for its children by the two bits that go on, and one for the name that ends there. 0 is none.
pub type Notes = Vec<u32>;

// So many cells has a node.
const CELLS: usize = 5;

// That of the name that ends there.
const ENDS: u8 = 4;

fn cell_of(node: u32, digit: u8) -> usize
    ensures cell { result ≡ cell_of node digit }
    ensures bound { result < 2 ^ 36 }
{
    node as usize * CELLS + usize::from(digit)
}

fn number_at(cells: &[u32], at: usize) -> u32
    ensures { result ≡ slice_index cells.now at }
{
    if at < cells.len() { cells[at] } else { 0 }
}

fn noted_at(cells: &[u32], at: usize) -> Option<u32>
    ensures { result ≡ noted_at cells.now at }
{
    match number_at(cells, at) {
        0 => None,
        number => Some(number),
    }
}

fn further(cells: &[u32], node: u32, digit: u8) -> Option<u32>
    ensures { result ≡ noted_at cells.now (cell_of node digit) }
{
    noted_at(cells, cell_of(node, digit))
}

// The node behind a byte.
#[tactic(auto, unfolding(crate::specs::NameNotes::steps))]
fn below(cells: &[u32], node: u32, byte: u8) -> Option<u32>
    ensures { result ≡ steps cells.now node (digits byte) }
{
    let first = further(cells, node, byte / 64)?;
    let second = further(cells, first, byte / 16 % 4)?;
    let third = further(cells, second, byte / 4 % 4)?;
    further(cells, third, byte % 4)
}

/// What is noted of a name.
pub(crate) fn noted(cells: &[u32], name: &[u8]) -> Option<u32>
    ensures { result ≡ noted cells.now name.now }
{
    let mut node = 0;
    for byte in name {
        node = below(cells, node, *byte)?;
    }
    further(cells, node, ENDS)
}

// Empty cells up to so many. Nothing else changes.
fn grow(notes: &mut Notes, count: usize) -> Result<(), Mem>
    ensures count { OnOk result (count ≤ vec_len notes.new) }
    ensures same { (i : ℕ) → slice_index notes.new.items i ≡ slice_index notes.old.items i }
{
    if notes.len() < count {
        notes.resize(count, 0)?;
    }
    Ok(())
}

// Puts a number into an empty cell.
fn put(notes: &mut Notes, at: usize, number: u32) -> Result<(), Mem>
    requires bound { at < 2 ^ 36 }
    requires positive { 0 < number }
    requires empty { noted_at notes.old.items at ≡ None }
    ensures ok { OnOk result (noted_at notes.new.items at ≡ Some number) }
    ensures extends { Extends notes.old.items notes.new.items }
{
    grow(notes, at + 1)?;
    notes[at] = number;
    Ok(())
}

// A count as the number of a cell.
fn number_of(count: usize) -> Result<u32, Mem>
    ensures { IfOk result (λ number. 0 < number) }
{
    match u32::try_from(count) {
        Ok(number) if number > 0 => Ok(number),
        _ => Err(Mem),
    }
}

// One step further, with a new node where there is none.
fn further_noting(notes: &mut Notes, node: u32, digit: u8) -> Result<u32, Mem>
    ensures ok { IfOk result (λ n. (more : List ℕ) → Extends notes.new.items more → noted_at more (cell_of node digit) ≡ Some n) }
    ensures extends { Extends notes.old.items notes.new.items }
{
    let at = cell_of(node, digit);
    if let Some(next) = noted_at(notes.as_slice(), at) {
        return Ok(next);
    }
    let count = notes.len();
    let next = number_of(count / CELLS)?;
    grow(notes, count.saturating_add(CELLS))?;
    put(notes, at, next)?;
    Ok(next)
}

// The node behind the last two digits of a byte, with new nodes where there are none.
fn from_third(notes: &mut Notes, node: u32, byte: u8) -> Result<u32, Mem>
    ensures ok { IfOk result (λ n. (more : List ℕ) → Extends notes.new.items more
        → steps more node (byte / 4 % 4 ∷ byte % 4 ∷ []) ≡ Some n) }
    ensures extends { Extends notes.old.items notes.new.items }
{
    let third = further_noting(notes, node, byte / 4 % 4)?;
    let fourth = further_noting(notes, third, byte % 4)?;
    Ok(fourth)
}

// That behind the last three digits.
fn from_second(notes: &mut Notes, node: u32, byte: u8) -> Result<u32, Mem>
    ensures ok { IfOk result (λ n. (more : List ℕ) → Extends notes.new.items more
        → steps more node (byte / 16 % 4 ∷ byte / 4 % 4 ∷ byte % 4 ∷ []) ≡ Some n) }
    ensures extends { Extends notes.old.items notes.new.items }
{
    let second = further_noting(notes, node, byte / 16 % 4)?;
    let fourth = from_third(notes, second, byte)?;
    Ok(fourth)
}

// That behind all four.
fn from_first(notes: &mut Notes, node: u32, byte: u8) -> Result<u32, Mem>
    ensures ok { IfOk result (λ n. (more : List ℕ) → Extends notes.new.items more → steps more node (digits byte) ≡ Some n) }
    ensures extends { Extends notes.old.items notes.new.items }
{
    let first = further_noting(notes, node, byte / 64)?;
    let fourth = from_second(notes, first, byte)?;
    Ok(fourth)
}

// The same. Nodes that are there are passed first: most names share all digits but the last one or two with others.
fn below_noting(notes: &mut Notes, node: u32, byte: u8) -> Result<u32, Mem>
    ensures ok { IfOk result (λ n. (more : List ℕ) → Extends notes.new.items more → steps more node (digits byte) ≡ Some n) }
    ensures extends { Extends notes.old.items notes.new.items }
{
    let Some(first) = further(notes.as_slice(), node, byte / 64) else {
        return from_first(notes, node, byte);
    };
    let Some(second) = further(notes.as_slice(), first, byte / 16 % 4) else {
        return from_second(notes, first, byte);
    };
    let Some(third) = further(notes.as_slice(), second, byte / 4 % 4) else {
        return from_third(notes, second, byte);
    };
    let fourth = further_noting(notes, third, byte % 4)?;
    Ok(fourth)
}

// Puts the number into the cell, unless one is there: the one that was.
fn note_at(notes: &mut Notes, at: usize, number: u32) -> Result<Option<u32>, Mem>
    requires bound { at < 2 ^ 36 }
    requires positive { 0 < number }
    ensures before { IfOk result (λ before. before ≡ noted_at notes.old.items at) }
    ensures after { IfOk result (λ before. noted_at notes.new.items at ≡ Some (unwrap_or before number)) }
    ensures extends { Extends notes.old.items notes.new.items }
{
    if let Some(found) = noted_at(notes.as_slice(), at) {
        return Ok(Some(found));
    }
    put(notes, at, number)?;
    Ok(None)
}

/// Notes a name with its place and one more, unless something is noted of it: what was. What was noted stays, also at an `Err`.
pub(crate) fn note(notes: &mut Notes, name: &[u8], place: usize) -> Result<Option<u32>, Mem>
    ensures before { IfOk result (λ before. before ≡ None → noted notes.old.items name.now ≡ None) }
    ensures ok { OnOk result (IsSome (noted notes.new.items name.now)) }
    ensures extends { Extends notes.old.items notes.new.items }
{
    let number = number_of(place.saturating_add(1))?;
    // The first node.
    grow(notes, CELLS)?;
    let mut node = 0;
    for byte in name {
        node = below_noting(notes, node, *byte)?;
    }
    let before = note_at(notes, cell_of(node, ENDS), number)?;
    Ok(before)
}
