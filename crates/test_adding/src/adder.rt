//! A core that adds.
ghost use Rattle.std.specs.Prelude.{◌≡◌, ◌≢◌, ◌⊎◌, ◌+◌, ◌<◌, ◌≤◌, ◌^◌, [], ◌∷◌, ◌++◌, length, vec_len, vec_capacity, OnOk, OnErr, IfOk, IsOk, IsErr};
ghost use Rattle.test_adding.specs.Adding.{capped, added, adding, IsFrugal};
ghost use Rattle.test_adding.specs.declared.adding.Call.TheVariants.{Lapse};
ghost use Rattle.histories.specs.History.{notes_of, last_moment};
ghost use Rattle.histories.specs.Steps.{Answers, Lapses};

use crate::adding::{Adding, Call, Reply};
use bytes_and_lists::memory::Mem;
use histories::machine::Core;
use random_words::RandomWords;
use std::alloc::Global;

/// Keeps the list of amounts, their sum and the greatest moment.
#[derive(Drop)]
pub struct Adder {
    start: u64,
    amounts: Vec<u64>,
    total: u64,
    latest: u64,
    adds: u64,
    refuses_each: u64,
}

impl Adder {
    ghost use Rattle.test_adding.specs.Refusals.{refusals_of};

    /// A core with no amounts. It answers that memory ran out at each add whose number, from 1, `refuses_each` divides; at 0 never so.
    pub fn new(alloc: Global, start: u64, refuses_each: u64) -> Adder
        ensures rules { ⟦<Adder as Core>⟧.rules result ≡ start }
        ensures empty { ⟦<Adder as Core>⟧.stands result [] }
        ensures refusals { refusals_of result ≡ record { adds = 0; each = refuses_each } }
    {
        Adder {
            start,
            amounts: Vec::new(alloc),
            total: start,
            latest: 0,
            adds: 0,
            refuses_each,
        }
    }

    /// The start and all amounts of the history that it stands for, summed up to the end of the type.
    pub fn total(&self) -> u64
        ensures { (h : _) → ⟦<Adder as Core>⟧.stands self.now h → result ≡ capped (⟦<Adder as Core>⟧.rules self.now + added (notes_of h)) }
    {
        self.total
    }
}

/// Adds an amount. An `Err` changes nothing, and comes only where the list has to grow.
fn add(amounts: &mut Vec<u64>, total: &mut u64, amount: u64) -> Result<(), Mem>
    ensures amounts { OnOk result (amounts.new.items ≡ amounts.old.items ++ amount ∷ []) }
    ensures total { OnOk result (total.new ≡ capped (total.old + amount)) }
    ensures err { OnErr result ((amounts.new.items ≡ amounts.old.items) × (total.new ≡ total.old)) }
    ensures full { OnErr result (vec_len amounts.old ≡ vec_capacity amounts.old) }
{
    amounts.push(amount)?;
    *total = total.saturating_add(amount);
    Ok(())
}

impl Core for Adder {
    ghost use Rattle.test_adding.specs.Adding.{StandsFor};
    ghost use Rattle.test_adding.specs.Standing.{stands-renumbered};
    ghost use Rattle.test_adding.specs.Refusals.{refusals_of, IsRefused, IsFull, with_call};

    type M = Adding;

    ghost rules = { λ core. core.start };

    ghost stands = { λ core h. StandsFor core.start core.amounts.items core.total core.latest h };

    ghost frugal = { IsFrugal };

    fn words_to_make(_call: &Call) -> usize {
        0
    }

    /// It refuses each add that it was told to refuse, and else none for which its list has room.
    fn step(&mut self, moment: u64, _draw: &RandomWords, call: &Call) -> Result<Reply, Mem>
        requires no_lapse { call.now ≢ Lapse }
        requires in_time { moment ≤ last_moment }
        ensures rules { ⟦<Adder as Core>⟧.rules self.new ≡ ⟦<Adder as Core>⟧.rules self.old }
        ensures ok { IfOk result (λ reply. (h : _) → ⟦<Adder as Core>⟧.stands self.old h
            → Answers adding (⟦<Adder as Core>⟧.rules self.old) h moment _draw.now call.now reply (⟦<Adder as Core>⟧.stands self.new)) }
        ensures err { OnErr result ((h : _) → ⟦<Adder as Core>⟧.stands self.old h
            → Lapses adding (⟦<Adder as Core>⟧.rules self.old) h moment _draw.now (⟦<Adder as Core>⟧.stands self.new)) }
        ensures frugal { IsFrugal call.now → IsOk result }
        ensures refused { IsRefused (refusals_of self.old) call.now → IsErr result }
        ensures refused_only { OnErr result (IsRefused (refusals_of self.old) call.now ⊎ IsFull self.old) }
        ensures counted { refusals_of self.new ≡ with_call call.now (refusals_of self.old) }
    {
        self.latest = self.latest.max(moment);
        match *call {
            Call::Add(amount) => {
                self.adds = self.adds.saturating_add(1);
                if self.refuses_each > 0 && self.adds % self.refuses_each == 0 {
                    return Err(Mem);
                }
                add(&mut self.amounts, &mut self.total, amount)?;
                Ok(Reply::Sum(self.total))
            }
            Call::Total => Ok(Reply::Sum(self.total)),
            Call::Lapse => Ok(Reply::Lapsed),
        }
    }

    ghost legal = { λ core h stands. stands.by_notes.is_legal };

    ghost renumbers = { λ core h k same stands. stands-renumbered core.start core.amounts.items core.total core.latest h k same stands };
}
