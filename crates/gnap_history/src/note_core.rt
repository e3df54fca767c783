//! A core that keeps the notes and the greatest moment.
ghost use Rattle.std.specs.Prelude.{◌≡◌, ◌≢◌, ◌≤◌, ℕ, [], List, ◌++◌, IfOk, OnErr};
ghost use Rattle.histories.specs.ByNotes.{stands-nil, stands-renumbered};
ghost use Rattle.histories.specs.History.{last_moment};
ghost use Rattle.gnap_model.specs.Answer.{gnap_answer};
ghost use Rattle.gnap_model.specs.declared.calls.Call.TheVariants.{Lapse};
ghost use Rattle.grant_machine.specs.Gnap.{GnapFits, StandsFor};
ghost use Rattle.gnap_history.specs.Drawings.{IsAnswer};

use crate::changing::{cancel, modify};
use crate::consent_front::{decide, find_code, look};
use crate::continuing::continue_grant;
use crate::drawing::{Drawing, NotedReply};
use crate::introspecting::introspect;
use crate::managing::{revoke, rotate};
use crate::note_list::NoteList;
use crate::opening::begin;
use bytes_and_lists::memory::Mem;
use gnap_model::calls::{Call, Reply};
use gnap_model::objects::Setup;
use grant_machine::{Grants, Passes};
use histories::machine::Core;
use random_words::RandomWords;
use std::alloc::Global;

/// Keeps the notes of the history in a list, and its greatest moment. No answer needs more of a history.
#[derive(Drop)]
pub struct NoteCore {
    alloc: Global,
    rules: Setup,
    latest: u64,
    notes: NoteList,
    ghost in_time: { latest ≤ last_moment },
}

impl NoteCore {
    /// Stands for the empty history, under the rules of this setup.
    pub fn new(alloc: Global, setup: Setup) -> NoteCore
        ensures rules { ⟦<NoteCore as Core>⟧.rules result ≡ setup }
        ensures empty { ⟦<NoteCore as Core>⟧.stands result [] }
    {
        NoteCore {
            alloc,
            rules: setup,
            latest: 0,
            notes: NoteList::new(alloc),
        }
    }
}

/// Answers a call.
fn answer_call(
    alloc: Global,
    rules: &Setup,
    drawing: &Drawing,
    call: &Call,
) -> Result<NotedReply, Mem>
    requires fits { GnapFits call.now }
    requires no_lapse { call.now ≢ Lapse }
    ensures { IfOk result (IsAnswer (gnap_answer rules.now drawing.now.notes.now drawing.now.moment drawing.now.words.now call.now)) }
{
    match call {
        Call::Begin {
            key,
            request,
            not_after,
        } => begin(alloc, rules, drawing, key, request.get(), *not_after),
        Call::Continue {
            key,
            value,
            reference,
        } => continue_grant(alloc, drawing, key, value, reference),
        Call::Modify {
            key,
            value,
            request,
        } => modify(alloc, rules, drawing, key, value, request.get()),
        Call::Cancel { key, value } => cancel(alloc, drawing, key, value),
        Call::Rotate {
            key,
            value,
            new_key,
        } => rotate(alloc, rules, drawing, key, value, new_key),
        Call::Revoke { key, value } => revoke(alloc, drawing, key, value),
        Call::Introspect {
            server,
            value,
            binding,
            wanted,
        } => introspect(alloc, rules, drawing, server, value, *binding, wanted),
        Call::Look { front: _, handle } => look(alloc, drawing, handle),
        Call::FindCode { front: _, code } => Ok(find_code(alloc, drawing, code)),
        Call::Decide { front: _, request } => decide(alloc, drawing, request.get()),
        Call::Lapse => unreachable!(),
    }
}

/// Answers a call at the greatest moment so far, and adds its notes. An `Err` changes nothing.
fn enter_call(
    alloc: Global,
    rules: &Setup,
    notes: &mut NoteList,
    now: u64,
    draw: &RandomWords,
    call: &Call,
) -> Result<Reply, Mem>
    requires fits { GnapFits call.now }
    requires no_lapse { call.now ≢ Lapse }
    requires in_time { now ≤ last_moment }
    ensures ok { IfOk result (λ reply. (reply ≡ (gnap_answer rules.now notes.old now draw.now call.now).reply)
        × (notes.new ≡ notes.old ++ (gnap_answer rules.now notes.old now draw.now call.now).notes)) }
    ensures err { OnErr result (notes.new ≡ notes.old) }
{
    let drawing = Drawing {
        notes: &*notes,
        moment: now,
        words: draw,
    };
    let answered = answer_call(alloc, rules, &drawing, call)?;
    notes.append(answered.notes)?;
    Ok(answered.reply)
}

impl Core for NoteCore {
    type M = Grants;

    ghost rules = { λ core. core.rules };

    ghost stands = { λ core h. StandsFor core.rules core.notes core.latest h };

    ghost frugal = { λ _. ⊥ };

    fn words_to_make(_call: &Call) -> usize {
        48
    }

    fn step(&mut self, moment: u64, draw: &RandomWords, call: &Call) -> Result<Reply, Mem> {
        self.latest = self.latest.max(moment);
        enter_call(
            self.alloc,
            &self.rules,
            &mut self.notes,
            self.latest,
            draw,
            call,
        )
    }

    ghost legal = { λ core h stands. stands.is_legal };

    ghost renumbers = { λ core h k same stands. stands-renumbered gnap_answer GnapFits Lapse core.rules core.notes core.latest h k same stands };
}

impl Passes for NoteCore {
    fn pass(&mut self, moment: u64) {
        self.latest = self.latest.max(moment);
    }
}
