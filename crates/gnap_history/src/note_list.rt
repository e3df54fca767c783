//! The notes so far, with the counts that answers need.
ghost use Rattle.std.specs.Prelude.{◌≡◌, ℕ, ◌+◌, ◌<◌, ◌^◌, List, [], ◌++◌, ◌≤◌, length, reverse, option_map, IfSome, OnOk, OnErr};
ghost use Rattle.std.specs.List.{count_by};
ghost use Rattle.gnap_model.specs.Notes.{first_serial};
ghost use Rattle.gnap_model.specs.Standing.{is_opening, next_grant, terms_of};
ghost use Rattle.gnap_history.specs.Counts.{is_issue, value_count};
ghost use Rattle.gnap_history.specs.Terms.{AskForFew};

use bytes_and_lists::memory::Mem;
use bytes_and_lists::seq::Seq;
use gnap_model::notes::{Note, TermsNote};
use std::alloc::Global;
use std::marker::Model;

/// The notes of a history, the oldest first. It counts the grants, the tokens and the drawn values, so that an answer needn't.
#[derive(Drop)]
pub struct NoteList {
    notes: Seq<Note>,
    grants: usize,
    tokens: usize,
    values: u64,
}

impl Model for NoteList {
    ghost use Rattle.std.specs.Prelude.{◌≡◌, List};
    ghost use Rattle.std.specs.List.{count_by};
    ghost use Rattle.gnap_model.specs.declared.notes.Note.{Note};
    ghost use Rattle.gnap_model.specs.Standing.{is_opening};
    ghost use Rattle.gnap_history.specs.Counts.{is_issue, value_count};
    ghost use Rattle.gnap_history.specs.Terms.{AskForFew};

    ghost Value = { List Note };

    ghost view = { λ s. s.notes };

    ghost invariant = { λ s. (s.grants ≡ count_by is_opening s.notes) × (s.tokens ≡ count_by is_issue s.notes) × (s.values ≡ value_count s.notes)
        × AskForFew s.notes };
}

/// The terms of a grant.
fn last_terms<'a>(notes: &'a [Note], grant: u64) -> Option<&'a TermsNote>
    requires { AskForFew notes.now }
    ensures terms { option_map (λ t. t.now) result ≡ terms_of (reverse notes.now) grant }
    ensures few { IfSome result (λ t. length t.now.asks ≤ 8) }
{
    let mut found = None;
    for note in notes {
        if let Note::Terms(terms) = note {
            if terms.grant == grant {
                found = Some(terms);
            }
        }
    }
    found
}

// How many notes there are, which take memory each.
fn length_in_memory(notes: &[Note]) -> usize
    ensures length { result ≡ length notes.now }
    ensures few { length notes.now < 2 ^ 57 }
{
    notes.len()
}

/// How many grants were opened.
fn openings(notes: &[Note]) -> usize
    ensures { result ≡ count_by is_opening notes.now }
{
    let mut count = 0;
    for note in notes {
        if let Note::Opened(_) = note {
            count += 1;
        }
    }
    count
}

/// How many tokens were issued.
fn issues(notes: &[Note]) -> usize
    ensures { result ≡ count_by is_issue notes.now }
{
    let mut count = 0;
    for note in notes {
        if let Note::Issued(_) = note {
            count += 1;
        }
    }
    count
}

/// How many values were drawn.
fn drawn_values(notes: &[Note]) -> u64
    ensures { result ≡ value_count notes.now }
{
    let mut count = 0;
    for note in notes {
        count += match note {
            Note::Issued(_) => 2,
            Note::Door { .. } => 1,
            Note::Pended(round) => { if round.nonce.is_some() { 2 } else { 1 } }
            Note::DecidedAs(decision) => { if decision.reference.is_some() { 1 } else { 0 } }
            _ => 0,
        };
    }
    count
}

impl NoteList {
    pub fn new(alloc: Global) -> NoteList
        ensures { result ≡ [] }
    {
        NoteList {
            notes: Seq::new(alloc),
            grants: 0,
            tokens: 0,
            values: 0,
        }
    }

    pub fn as_slice(&self) -> &[Note]
        ensures { result.now ≡ self.now }
    {
        self.notes.as_slice()
    }

    /// How many grants were opened.
    pub fn grants(&self) -> usize
        ensures { result ≡ count_by is_opening self.now }
    {
        self.grants
    }

    /// How many tokens were issued.
    pub fn tokens(&self) -> usize
        ensures count { result ≡ count_by is_issue self.now }
        ensures few { result < 2 ^ 57 }
    {
        let _length = length_in_memory(self.notes.as_slice());
        self.tokens
    }

    /// The number of the next grant. Grants are numbered from 1 on.
    pub fn next_grant(&self) -> u64
        ensures { result ≡ next_grant (reverse self.now) }
    {
        let _length = length_in_memory(self.notes.as_slice());
        self.grants as u64 + 1
    }

    /// The serial of the next drawn value. Serials go from 1 on.
    pub fn first_serial(&self) -> u64
        ensures serial { result ≡ first_serial (reverse self.now) }
        ensures few { result < 2 ^ 59 }
    {
        let _length = length_in_memory(self.notes.as_slice());
        self.values + 1
    }

    /// The terms of a grant, which ask for at most 8 tokens.
    pub fn terms_of(&self, grant: u64) -> Option<&TermsNote>
        ensures terms { option_map (λ t. t.now) result ≡ terms_of (reverse self.now) grant }
        ensures few { IfSome result (λ t. length t.now.asks ≤ 8) }
    {
        last_terms(self.notes.as_slice(), grant)
    }

    /// Adds the notes at the end, all or none. An `Err` changes nothing.
    pub fn append(&mut self, more: Seq<Note>) -> Result<(), Mem>
        requires { AskForFew more }
        ensures ok { OnOk result (self.new ≡ self.old ++ more) }
        ensures err { OnErr result (self.new ≡ self.old) }
    {
        let grants = openings(more.as_slice());
        let tokens = issues(more.as_slice());
        let values = drawn_values(more.as_slice());
        self.notes.append(more)?;
        // The list lies in memory, so the counts of all its notes fit.
        let _length = length_in_memory(self.notes.as_slice());
        self.grants += grants;
        self.tokens += tokens;
        self.values += values;
        Ok(())
    }
}
