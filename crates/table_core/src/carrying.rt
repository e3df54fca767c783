//! A plan is carried out. All memory is taken before the tables change.
ghost use Rattle.std.specs.Prelude.{◌≡◌, ◌≤◌, ◌<◌, ◌+◌, ◌-◌, ◌^◌, ◌++◌, length, IfOk, OnOk, OnErr};
ghost use Rattle.std.specs.List.{All};
ghost use Rattle.gnap_tables.specs.declared.rows.TokenRow.{TokenRow};
ghost use Rattle.grant_states.specs.Grants.{BeginsWith};
ghost use Rattle.table_core.specs.CallEffects.{HasRoom, tables_in};
ghost use Rattle.table_core.specs.Plans.{rows_in, RiseFrom, retermed, approved, unretired, carried, opened_by, renewed, pended, CanCarry};
ghost use Rattle.table_core.specs.Rooms.{issued_by, HasRoomFor};

use crate::answered::Answered;
use crate::entering::{NewTokens, Plan, Renewal, TableChange};
use crate::kept_terms::KeptTerms;
use bytes_and_lists::memory::Mem;
use gnap_tables::rows::KeptRound;
use grant_states::{Change, GrantTable};
use kept_rights::KeptRights;
use token_manager::TokenTable;

// Appends rows of tokens, whose serials rise from `first` on.
fn issue_all(tokens: &mut TokenTable, rows: NewTokens, first: u64)
    requires room { length rows ≤ tokens.old.spare }
    requires rise { RiseFrom first (rows_in rows) }
    requires below { All (λ (row : TokenRow). row.serial < first) tokens.old.rows }
    ensures { tokens.new.rows ≡ tokens.old.rows ++ rows_in rows }
{
    let _first = first;
    for row in rows.into_vec() {
        tokens.issue(row);
    }
}

// The grant has new terms, where there are some.
fn put_terms(grants: &mut GrantTable, number: u64, terms: Option<KeptTerms>)
    ensures rows { grants.new.rows ≡ retermed number terms grants.old.rows }
    ensures spare { grants.new.spare ≡ grants.old.spare }
    ensures doors { grants.new.doors_below ≡ grants.old.doors_below }
{
    if let Some(terms) = terms {
        grants.change(
            number,
            Change::Terms {
                asks: terms.asks,
                single: terms.single,
                subject: terms.subject,
            },
        );
    }
}

// The grant is approved, where there is a consent.
fn approve(grants: &mut GrantTable, number: u64, consent: Option<KeptRights>)
    ensures rows { grants.new.rows ≡ approved number consent grants.old.rows }
    ensures spare { grants.new.spare ≡ grants.old.spare }
    ensures doors { grants.new.doors_below ≡ grants.old.doors_below }
{
    if let Some(consent) = consent {
        grants.change(number, Change::Approve(consent));
    }
}

// The tokens that the grant had are retired, where they are to be.
fn retire_old(tokens: &mut TokenTable, retires: bool, number: u64)
    ensures rows { tokens.new.rows ≡ unretired retires number tokens.old.rows }
    ensures spare { tokens.old.spare ≤ tokens.new.spare }
{
    if retires {
        tokens.retire_all(number);
    }
}

// A grant goes on with a new continuation value.
fn renew(grants: &mut GrantTable, tokens: &mut TokenTable, first: u64, renewal: Renewal)
    requires room { 0 < grants.old.spare }
    requires token_room { length renewal.tokens ≤ tokens.old.spare }
    requires door { BeginsWith renewal.serial renewal.door }
    requires fresh { grants.old.doors_below ≤ renewal.serial }
    requires small { renewal.serial < 2 ^ 64 - 1 }
    requires rise { RiseFrom first (rows_in renewal.tokens) }
    requires below { All (λ (row : TokenRow). row.serial < first) tokens.old.rows }
    ensures tables { tables_in grants.new.rows tokens.new.rows ≡ renewed renewal (tables_in grants.old.rows tokens.old.rows) }
    ensures doors { grants.new.doors_below ≡ renewal.serial + 1 }
{
    let Renewal {
        number,
        retires,
        terms,
        consent,
        door,
        serial,
        earliest,
        tokens: rows,
    } = renewal;
    put_terms(grants, number, terms);
    approve(grants, number, consent);
    grants.renew_door(number, door, serial, earliest);
    retire_old(tokens, retires, number);
    issue_all(tokens, rows, first);
}

// A grant has new terms, and is pending in a new round.
fn pend(
    grants: &mut GrantTable,
    terms: KeptTerms,
    round: KeptRound,
    door: [u8; 32],
    serial: u64,
    earliest: u64,
)
    requires room { 2 ≤ grants.old.spare }
    requires door { BeginsWith serial door }
    requires fresh { grants.old.doors_below ≤ serial }
    requires small { serial < 2 ^ 64 - 1 }
    ensures rows { grants.new.rows ≡ pended terms round door earliest grants.old.rows }
    ensures doors { grants.new.doors_below ≡ serial + 1 }
{
    let number = terms.grant;
    put_terms(grants, number, Some(terms));
    grants.renew_door(number, door, serial, earliest);
    grants.pend(number, round);
}

// How many rows of tokens the change issues, where it gives a continuation value.
fn rows_wanted(change: &TableChange) -> Option<usize>
    ensures { result ≡ issued_by change.now }
{
    match change {
        TableChange::Open { tokens, .. } => Some(tokens.len()),
        TableChange::Renew(renewal) => Some(renewal.tokens.len()),
        TableChange::Pend { .. } => Some(0),
        TableChange::Nothing | TableChange::End { .. } | TableChange::Alter { .. } => None,
    }
}

// Takes the memory for the change: for a continuation value and a row or a round of a grant, and for rows of tokens.
fn take_room(
    grants: &mut GrantTable,
    tokens: &mut TokenTable,
    change: &TableChange,
) -> Result<(), Mem>
    ensures grants { grants.new.rows ≡ grants.old.rows }
    ensures doors { grants.new.doors_below ≡ grants.old.doors_below }
    ensures tokens { tokens.new.rows ≡ tokens.old.rows }
    ensures room { OnOk result (HasRoomFor change.now grants.new.spare tokens.new.spare) }
{
    match rows_wanted(change) {
        Some(more) => {
            tokens.reserve(more)?;
            grants.reserve()
        }
        None => Ok(()),
    }
}

// The change is made. It answers how many grants were opened.
fn carry(
    grants: &mut GrantTable,
    tokens: &mut TokenTable,
    next: u64,
    first: u64,
    drawn: u64,
    change: TableChange,
) -> u64
    requires numbers { HasRoom next first grants.old tokens.old }
    requires few { drawn ≤ 17 }
    requires can { CanCarry next first drawn change }
    requires room { HasRoomFor change grants.old.spare tokens.old.spare }
    ensures opened { result ≡ opened_by change }
    ensures tables { tables_in grants.new.rows tokens.new.rows ≡ carried change (tables_in grants.old.rows tokens.old.rows) }
    ensures doors { grants.new.doors_below ≤ first + drawn }
{
    let _numbers = (next, drawn);
    match change {
        TableChange::Nothing => 0,
        TableChange::Open {
            row,
            serial,
            tokens: rows,
        } => {
            grants.insert(row, serial);
            issue_all(tokens, rows, first);
            1
        }
        TableChange::End { number } => {
            grants.finalize(number);
            tokens.retire_all(number);
            0
        }
        TableChange::Alter { number, change } => {
            grants.change(number, change);
            0
        }
        TableChange::Renew(renewal) => {
            renew(grants, tokens, first, renewal);
            0
        }
        TableChange::Pend {
            terms,
            round,
            door,
            serial,
            earliest,
        } => {
            tokens.retire_all(terms.grant);
            pend(grants, terms, round, door, serial, earliest);
            0
        }
    }
}

/// Carries out a plan. An `Err` changes no row.
pub fn carry_out(
    grants: &mut GrantTable,
    tokens: &mut TokenTable,
    next: u64,
    first: u64,
    plan: Plan,
) -> Result<Answered, Mem>
    requires room { HasRoom next first grants.old tokens.old }
    requires few { plan.drawn ≤ 17 }
    requires can { CanCarry next first plan.drawn plan.change }
    ensures answered { IfOk result (λ answered. answered ≡ record { reply = plan.reply; opened = opened_by plan.change; drawn = plan.drawn }) }
    ensures tables { OnOk result (tables_in grants.new.rows tokens.new.rows ≡ carried plan.change (tables_in grants.old.rows tokens.old.rows)) }
    ensures doors { OnOk result (grants.new.doors_below ≤ first + plan.drawn) }
    ensures grants { OnErr result (grants.new.rows ≡ grants.old.rows) }
    ensures tokens { OnErr result (tokens.new.rows ≡ tokens.old.rows) }
    ensures same_doors { OnErr result (grants.new.doors_below ≡ grants.old.doors_below) }
{
    if take_room(grants, tokens, &plan.change).is_err() {
        // By a call, since else the drop of each kind of reply and change is written out here.
        drop(plan);
        return Err(Mem);
    }
    let Plan {
        reply,
        drawn,
        change,
    } = plan;
    Ok(Answered {
        reply,
        opened: carry(grants, tokens, next, first, drawn, change),
        drawn,
    })
}
