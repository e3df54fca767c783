//! A core that keeps tables, of the machine that looks at no marks.
ghost use Rattle.std.specs.Prelude.{◌≡◌, ◌≢◌, ◌≤◌, ◌+◌, ℕ, [], List, IfOk, OnErr, IsOk};
ghost use Rattle.histories.specs.History.{last_moment};
ghost use Rattle.gnap_model.specs.declared.calls.Call.TheVariants.{Lapse};
ghost use Rattle.grant_machine.specs.Gnap.{GnapFits};
ghost use Rattle.table_core.specs.CallEffects.{tables_in, kept_in, moved, HasRoom, AnswersCall};
ghost use Rattle.table_core.specs.Frugal.{IsFrugal};
ghost use Rattle.table_core.specs.Planned.{IsPlanned};
ghost use Rattle.table_core.specs.OtherCalls.{IsNoIntrospection, LeadsTo};
ghost use Rattle.table_core.specs.StandsInTables.{StandsInTables};
ghost use Rattle.table_core.specs.Renumbered.{stands-renumbered};

use crate::answered::Answered;
use crate::cancelling::cancel;
use crate::carrying::carry_out;
use crate::entering::Entering;
use crate::introspecting::introspect;
use crate::planning::plan_call;
use crate::revoking::revoke;
use crate::rotating::rotate;
use bytes_and_lists::memory::Mem;
use gnap_model::calls::{Call, Reply};
use gnap_model::objects::Setup;
use grant_machine::{Grants, Passes};
use grant_rules::drawing::Supply;
use grant_states::GrantTable;
use histories::machine::Core;
use random_words::{MOST_MADE, RandomWords};
use std::alloc::Global;
use token_manager::TokenTable;

/// Keeps the rows that stand for a history, with the numbers of the next grant and value, and its greatest moment.
#[derive(Drop)]
pub struct RowCore {
    alloc: Global,
    rules: Setup,
    latest: u64,
    next: u64,
    first: u64,
    grants: GrantTable,
    tokens: TokenTable,
    ghost in_time: { latest ≤ last_moment },
}

// Sweeps both tables where time went on.
fn advance(grants: &mut GrantTable, tokens: &mut TokenTable, latest: u64, moment: u64)
    ensures rows { tables_in grants.new.rows tokens.new.rows ≡ moved latest moment (tables_in grants.old.rows tokens.old.rows) }
    ensures doors { grants.new.doors_below ≡ grants.old.doors_below }
{
    if latest < moment {
        grants.sweep(moment);
        tokens.sweep(grants, moment);
    }
}

// Answers a call that comes to a plan. An `Err` changes no row.
fn answer_by_plan(
    alloc: Global,
    rules: &Setup,
    supply: &Supply,
    next: u64,
    grants: &mut GrantTable,
    tokens: &mut TokenTable,
    call: &Call,
) -> Result<Answered, Mem>
    requires fits { GnapFits call.now }
    requires planned { IsPlanned call.now }
    requires room { HasRoom next supply.now.first grants.old tokens.old }
    ensures ok { IfOk result (AnswersCall rules.now next supply.now call.now (tables_in grants.old.rows tokens.old.rows)
        (tables_in grants.new.rows tokens.new.rows)) }
    ensures doors { IfOk result (λ answered. grants.new.doors_below ≤ supply.now.first + answered.drawn) }
    ensures few { IfOk result (λ answered. (answered.opened ≤ 1) × (answered.drawn ≤ 17)) }
    ensures err { OnErr result (tables_in grants.new.rows tokens.new.rows ≡ tables_in grants.old.rows tokens.old.rows) }
    ensures err_doors { OnErr result (grants.new.doors_below ≡ grants.old.doors_below) }
{
    let entering = Entering {
        grants: &*grants,
        tokens: &*tokens,
        next,
        supply: *supply,
    };
    let plan = plan_call(alloc, rules, &entering, call)?;
    carry_out(grants, tokens, next, supply.first, plan)
}

// Answers a call other than an introspection, at the greatest moment so far. An `Err` changes no row.
fn answer_call(
    alloc: Global,
    rules: &Setup,
    supply: &Supply,
    next: u64,
    grants: &mut GrantTable,
    tokens: &mut TokenTable,
    call: &Call,
) -> Result<Answered, Mem>
    requires fits { GnapFits call.now }
    requires no_lapse { call.now ≢ Lapse }
    requires no_introspection { IsNoIntrospection call.now }
    requires room { HasRoom next supply.now.first grants.old tokens.old }
    ensures ok { IfOk result (AnswersCall rules.now next supply.now call.now (tables_in grants.old.rows tokens.old.rows)
        (tables_in grants.new.rows tokens.new.rows)) }
    ensures doors { IfOk result (λ answered. grants.new.doors_below ≤ supply.now.first + answered.drawn) }
    ensures few { IfOk result (λ answered. (answered.opened ≤ 1) × (answered.drawn ≤ 17)) }
    ensures err { OnErr result (tables_in grants.new.rows tokens.new.rows ≡ tables_in grants.old.rows tokens.old.rows) }
    ensures err_doors { OnErr result (grants.new.doors_below ≡ grants.old.doors_below) }
    ensures frugal { IsFrugal call.now → IsOk result }
{
    match call {
        Call::Cancel { key, value } => Ok(cancel(grants, tokens, key, value)),
        Call::Revoke { key, value } => Ok(revoke(grants, tokens, key, value)),
        Call::Rotate {
            key,
            value,
            new_key,
        } => rotate(alloc, rules, grants, tokens, supply, key, value, new_key),
        _ => answer_by_plan(alloc, rules, supply, next, grants, tokens, call),
    }
}

impl RowCore {
    /// Stands for the empty history, under the rules of this setup.
    pub fn new(alloc: Global, setup: Setup) -> RowCore
        ensures rules { ⟦<RowCore as Core>⟧.rules result ≡ setup }
        ensures empty { ⟦<RowCore as Core>⟧.stands result [] }
    {
        RowCore {
            alloc,
            rules: setup,
            latest: 0,
            next: 1,
            first: 1,
            grants: GrantTable::new(alloc),
            tokens: TokenTable::new(alloc),
        }
    }

    // Answers a call other than an introspection, at the greatest moment so far, and counts what it opens and draws. An `Err` changes nothing.
    fn act(&mut self, draw: &RandomWords, call: &Call) -> Result<Reply, Mem>
        requires fits { GnapFits call.now }
        requires no_lapse { call.now ≢ Lapse }
        requires no_introspection { IsNoIntrospection call.now }
        requires room { HasRoom self.old.next self.old.first self.old.grants self.old.tokens }
        ensures rules { self.new.rules ≡ self.old.rules }
        ensures latest { self.new.latest ≡ self.old.latest }
        ensures ok { IfOk result (λ reply. LeadsTo self.old.rules draw.now call.now reply
            (kept_in self.old.grants.rows self.old.tokens.rows self.old.next self.old.first self.old.latest)
            (kept_in self.new.grants.rows self.new.tokens.rows self.new.next self.new.first self.old.latest)
            × (self.new.grants.doors_below ≤ self.new.first)) }
        ensures err { OnErr result ((kept_in self.new.grants.rows self.new.tokens.rows self.new.next self.new.first self.old.latest
            ≡ kept_in self.old.grants.rows self.old.tokens.rows self.old.next self.old.first self.old.latest)
            × (self.new.grants.doors_below ≡ self.old.grants.doors_below)) }
        ensures frugal { IsFrugal call.now → IsOk result }
    {
        let supply = Supply {
            moment: self.latest,
            first: self.first,
            words: draw,
        };
        let answered = answer_call(
            self.alloc,
            &self.rules,
            &supply,
            self.next,
            &mut self.grants,
            &mut self.tokens,
            call,
        )?;
        self.next += answered.opened;
        self.first += answered.drawn;
        Ok(answered.reply)
    }
}

impl Core for RowCore {
    type M = Grants;

    ghost rules = { λ core. core.rules };

    ghost stands = { λ core h. StandsInTables core.rules core.grants core.tokens core.next core.first core.latest h };

    ghost frugal = { IsFrugal };

    /// A value takes two words. A token has two values, and a grant has one more (RFC 9635, section 3). How many tokens a continuation issues isn't told before
    /// its row is found: it gets as many as can be made.
    fn words_to_make(call: &Call) -> usize {
        match call {
            Call::Begin { request, .. } => 4 * request.get().asks.len().min(8) + 2,
            Call::Continue { .. } | Call::Modify { .. } => MOST_MADE,
            Call::Rotate { .. } => 4,
            Call::Decide { .. } => 2,
            _ => 0,
        }
    }

    fn step(&mut self, moment: u64, draw: &RandomWords, call: &Call) -> Result<Reply, Mem> {
        advance(&mut self.grants, &mut self.tokens, self.latest, moment);
        self.latest = self.latest.max(moment);
        // An introspection is answered here, since its reply would else be copied with those of the other calls.
        if let Call::Introspect {
            server,
            value,
            binding,
            wanted,
        } = call
        {
            return introspect(
                self.alloc,
                &self.rules,
                &self.grants,
                &self.tokens,
                self.latest,
                server,
                value,
                *binding,
                wanted,
            );
        }
        self.act(draw, call)
    }

    ghost legal = { λ core h stands. stands.rows.is_legal };

    ghost renumbers = { λ core h k same stands. stands-renumbered core.rules core.grants core.tokens core.next core.first core.latest h k same stands };
}

impl Passes for RowCore {
    fn pass(&mut self, moment: u64) {
        advance(&mut self.grants, &mut self.tokens, self.latest, moment);
        self.latest = self.latest.max(moment);
    }
}
