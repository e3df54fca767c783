//! What the entry of a call draws on, and what comes of the call.
ghost use Rattle.std.specs.Prelude.{◌≡◌, ◌≤◌, ◌<◌, ◌+◌, [], ◌∷◌, IfOk};
ghost use Rattle.histories.specs.History.{last_moment};
ghost use Rattle.gnap_model.specs.declared.notes.Note.TheVariants.{Door};
ghost use Rattle.gnap_model.specs.declared.calls.Reply.TheVariants.{Error};

use crate::note_list::NoteList;
use bytes_and_lists::memory::Mem;
use bytes_and_lists::seq::Seq;
use gnap_model::calls::Reply;
use gnap_model::notes::{Note, OpeningNote};
use gnap_model::objects::ErrorCode;
use grant_rules::drawing::Supply;
use grant_rules::limits::WAIT;
use random_words::RandomWords;
use std::alloc::Global;

/// What an entry draws on: the notes so far, the greatest moment, and its random words.
#[derive(Clone, Copy)]
pub struct Drawing<'a> {
    /// The notes of the entries before.
    pub notes: &'a NoteList,
    /// The greatest moment so far.
    pub moment: u64,
    /// The words of the entry.
    pub words: &'a RandomWords,
    pub ghost in_time: { moment ≤ last_moment },
}

impl<'a> Drawing<'a> {
    ghost use Rattle.gnap_model.specs.Actions.{drawn_value};
    ghost use Rattle.gnap_history.specs.Drawings.{trail, supply};
    ghost use Rattle.gnap_model.specs.Notes.{first_serial};

    /// What the entry draws on, without the notes.
    pub fn supply(&self) -> Supply<'a>
        ensures moment { result.moment ≡ self.now.moment }
        ensures first { result.first ≡ first_serial (trail self.now) }
        ensures words { result.words.now ≡ self.now.words.now }
    {
        Supply {
            moment: self.moment,
            first: self.notes.first_serial(),
            words: self.words,
        }
    }

    /// The value with this index among those of the entry, counted from 0. Its serial is so many after the entry's first one, and two of the
    /// words belong to it.
    pub fn value(&self, index: usize) -> [u8; 32]
        requires { index < 24 }
        ensures { result ≡ drawn_value (supply self.now) index }
    {
        self.supply().value(index)
    }

    /// The note that the grant has a new continuation value (RFC 9635, section 3.1).
    pub fn door(&self, opening: &OpeningNote, value: [u8; 32]) -> Note
        ensures { result ≡ Door opening.now.grant value (self.now.moment + WAIT) }
    {
        Note::Door {
            grant: opening.grant,
            value,
            earliest: self.moment + WAIT,
        }
    }
}

/// What comes of a call: its reply, and the notes that its entry leaves.
#[derive(Drop)]
pub struct NotedReply {
    /// The reply.
    pub reply: Reply,
    /// The notes.
    pub notes: Seq<Note>,
}

/// A reply without notes.
pub fn silent(alloc: Global, reply: Reply) -> NotedReply
    ensures reply { result.reply ≡ reply }
    ensures notes { result.notes ≡ [] }
{
    NotedReply {
        reply,
        notes: Seq::new(alloc),
    }
}

/// An error reply that changes nothing (RFC 9635, section 3.6).
pub fn refuse(alloc: Global, code: ErrorCode) -> NotedReply
    ensures reply { result.reply ≡ Error code }
    ensures notes { result.notes ≡ [] }
{
    silent(alloc, Reply::Error { code })
}

/// A reply with one note.
pub fn noted(alloc: Global, reply: Reply, note: Note) -> Result<NotedReply, Mem>
    ensures { IfOk result (λ answered. (answered.reply ≡ reply) × (answered.notes ≡ note ∷ [])) }
{
    let mut notes = Seq::new(alloc);
    notes.push(note)?;
    Ok(NotedReply { reply, notes })
}
