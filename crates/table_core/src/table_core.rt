//! The core that keeps tables and the nonces that are remembered.
ghost use Rattle.std.specs.Prelude.{◌≡◌, List, [], count_by};
ghost use Rattle.histories.specs.History.{now, notes_of};
ghost use Rattle.signed_calls.specs.Remembering.{is_kept};
ghost use Rattle.signed_calls.proofs.RememberingSteps.{signed-renumbered};
ghost use Rattle.grant_machine.specs.Gnap.{GnapEntry, SignedFits};
ghost use Rattle.table_core.specs.Renumbered.{stands-renumbered};
ghost use Rattle.table_core.specs.Frugal.{IsFrugal};

use crate::row_core::RowCore;
use bytes_and_lists::memory::Mem;
use gnap_model::calls::Reply;
use gnap_model::objects::Setup;
use grant_machine::Gnap;
use histories::lone::Lone;
use histories::machine::{Core, Desk};
use nonce_store::NonceStore;
use random_words::RandomWords;
use remembering_core::Remembering;
use signed_calls::signed::Signed;
use std::alloc::Global;

/// Keeps the rows that stand for a history, the nonces that are remembered, and the greatest moment.
#[derive(Drop)]
pub struct TableCore {
    core: Remembering<RowCore, NonceStore>,
}

/// One worker over tables.
pub type TableDesk = Lone<TableCore>;

impl TableCore {
    /// Stands for the empty history, under the rules of this setup.
    pub fn new(alloc: Global, setup: Setup) -> TableCore
        ensures rules { ⟦<TableCore as Core>⟧.rules result ≡ setup }
        ensures empty { ⟦<TableCore as Core>⟧.stands result [] }
    {
        TableCore {
            core: Remembering::new(RowCore::new(alloc, setup), NonceStore::new(alloc)),
        }
    }

    /// How many nonces are remembered at the greatest moment so far. Takes no memory.
    pub fn marks(&self) -> usize
        requires { (h : List GnapEntry) × ⟦<TableCore as Core>⟧.stands self.now h }
        ensures { (h : List GnapEntry) → ⟦<TableCore as Core>⟧.stands self.now h → result ≡ count_by (is_kept (now h 0)) (notes_of h) }
    {
        self.core.marks()
    }
}

/// A desk that has seen nothing, under the rules of this setup.
pub fn table_desk(alloc: Global, setup: Setup) -> TableDesk
    ensures rules { ⟦<TableDesk as Desk>⟧.rules result ≡ setup }
    ensures seen { ⟦<TableDesk as Desk>⟧.seen result [] }
{
    Lone::new(TableCore::new(alloc, setup))
}

impl Core for TableCore {
    type M = Gnap;

    ghost rules = { λ tables. ⟦<Remembering<RowCore, NonceStore> as Core>⟧.rules tables.core };

    ghost stands = { λ tables h. ⟦<Remembering<RowCore, NonceStore> as Core>⟧.stands tables.core h };

    ghost frugal = { λ signed. IsFrugal signed.call };

    fn words_to_make(signed: &Signed) -> usize {
        RowCore::words_to_make(&signed.call)
    }

    fn step(&mut self, moment: u64, draw: &RandomWords, signed: &Signed) -> Result<Reply, Mem> {
        self.core.step(moment, draw, signed)
    }

    ghost legal = { λ tables h stands. stands.legal };

    ghost renumbers = { λ tables h k same stands.
        signed-renumbered SignedFits _ _ _ _ _ h k (λ a b. stands-renumbered _ _ _ _ _ _ a b) same stands };
}
