//! The core that keeps a list of notes and the nonces that are remembered.
ghost use Rattle.std.specs.Prelude.{◌≡◌, []};
ghost use Rattle.histories.specs.ByNotes.{stands-renumbered};
ghost use Rattle.gnap_model.specs.Answer.{gnap_answer};
ghost use Rattle.gnap_model.specs.declared.calls.Call.TheVariants.{Lapse};
ghost use Rattle.signed_calls.proofs.RememberingSteps.{signed-renumbered};
ghost use Rattle.grant_machine.specs.Gnap.{GnapFits, SignedFits};

use crate::note_core::NoteCore;
use bytes_and_lists::memory::Mem;
use gnap_model::calls::Reply;
use gnap_model::objects::Setup;
use grant_machine::Gnap;
use histories::lone::Lone;
use histories::machine::{Core, Desk};
use nonce_store::NonceStore;
use random_words::RandomWords;
use remembering_core::Remembering;
use signed_calls::signed::Signed;
use std::alloc::Global;

/// Keeps the notes of the history in a list, the nonces that are remembered, and the greatest moment.
#[derive(Drop)]
pub struct ListCore {
    core: Remembering<NoteCore, NonceStore>,
}

/// One worker over a list.
pub type ListDesk = Lone<ListCore>;

impl ListCore {
    /// Stands for the empty history, under the rules of this setup.
    pub fn new(alloc: Global, setup: Setup) -> ListCore
        ensures rules { ⟦<ListCore as Core>⟧.rules result ≡ setup }
        ensures empty { ⟦<ListCore as Core>⟧.stands result [] }
    {
        ListCore {
            core: Remembering::new(NoteCore::new(alloc, setup), NonceStore::new(alloc)),
        }
    }
}

/// A desk that has seen nothing, under the rules of this setup.
pub fn list_desk(alloc: Global, setup: Setup) -> ListDesk
    ensures rules { ⟦<ListDesk as Desk>⟧.rules result ≡ setup }
    ensures seen { ⟦<ListDesk as Desk>⟧.seen result [] }
{
    Lone::new(ListCore::new(alloc, setup))
}

impl Core for ListCore {
    type M = Gnap;

    ghost rules = { λ list. ⟦<Remembering<NoteCore, NonceStore> as Core>⟧.rules list.core };

    ghost stands = { λ list h. ⟦<Remembering<NoteCore, NonceStore> as Core>⟧.stands list.core h };

    ghost frugal = { ⟦<Remembering<NoteCore, NonceStore> as Core>⟧.frugal };

    fn words_to_make(signed: &Signed) -> usize {
        NoteCore::words_to_make(&signed.call)
    }

    fn step(&mut self, moment: u64, draw: &RandomWords, signed: &Signed) -> Result<Reply, Mem> {
        self.core.step(moment, draw, signed)
    }

    ghost legal = { λ list h stands. stands.legal };

    ghost renumbers = { λ list h k same stands.
        signed-renumbered SignedFits _ _ _ _ _ h k (λ a b. stands-renumbered gnap_answer GnapFits Lapse _ _ _ a b) same stands };
}
