//! The user is asked: a grant is pending in a new round of interaction (RFC 9635, section 3.3).
ghost use Rattle.std.specs.Prelude.{◌≡◌, ◌<◌, ◌+◌, ℕ, IfOk};
ghost use Rattle.std.specs.List.{list_any};
ghost use Rattle.std.specs.declared.option.Option.TheVariants.{None};
ghost use Rattle.gnap_model.specs.Common.{same_text, some_if};
ghost use Rattle.gnap_model.specs.Asked.{wants_code};
ghost use Rattle.gnap_model.specs.Values.{code_count, free_code};
ghost use Rattle.gnap_tables.specs.Rows.{round_row};
ghost use Rattle.grant_rules.specs.UserCodes.{code_for};
ghost use Rattle.table_core.specs.Entries.{supply};
ghost use Rattle.table_core.specs.Askings.{begun_round, asking_reply, asking_values};

use crate::entering::Entering;
use crate::stored::stored_round;
use bytes_and_lists::bytes::Bytes;
use bytes_and_lists::memory::Mem;
use drawn_texts::{CODE_COUNT, code_text};
use gnap_model::calls::Reply;
use gnap_model::notes::RoundNote;
use gnap_model::objects::Modes;
use gnap_tables::rows::KeptRound;
use grant_rules::drawing::pending_reply;
use grant_states::InteractionName;
use std::alloc::Global;

/// The user is asked in a new round.
#[derive(Drop)]
pub struct Asking {
    /// The reply.
    pub reply: Reply,
    /// How many values are drawn.
    pub drawn: u64,
    /// The round.
    pub round: KeptRound,
}

// A live interaction has this user code.
fn is_taken(entering: &Entering, code: &[u8; 8]) -> bool
    ensures { result ≡ list_any (same_text code.now) (supply entering.now).taken }
{
    entering
        .grants
        .by_interaction(entering.supply.moment, InteractionName::Code(code))
        .is_some()
}

// The number behind a run of codes of live interactions that begins with this number. The search for a free code goes on there.
fn passed(entering: &Entering, number: u64) -> u64
    requires { number < code_count }
    ensures within { result < code_count }
    ensures same { (run : ℕ) × ((tries : ℕ) → free_code (run + tries) number (supply entering.now).taken ≡ free_code tries result (supply entering.now).taken) }
{
    entering.grants.past_taken(entering.supply.moment, number) % CODE_COUNT
}

// The user code that the entry draws: that of no live interaction (RFC 9635, section 3.3.3). No memory holds so many grants that all codes could be taken.
// The table passes over a run of taken codes up to the next first letter at once, so two passes find its end, and few codes are tried one by one.
fn user_code(entering: &Entering) -> Result<[u8; 8], Mem>
    ensures { IfOk result (λ code. code ≡ code_for (supply entering.now)) }
{
    let grants = entering.grants.len();
    if CODE_COUNT <= grants as u64 {
        return Err(Mem);
    }
    let first = passed(entering, entering.supply.words.word(47) % CODE_COUNT);
    let mut tried = passed(entering, first);
    for _ in 0..grants {
        let code = code_text(tried);
        if !is_taken(entering, &code) {
            return Ok(code);
        }
        tried = (tried + 1) % CODE_COUNT;
    }
    Ok(code_text(tried))
}

// The user code, where the client can show one.
fn wanted_code(entering: &Entering, modes: &Modes) -> Result<Option<[u8; 8]>, Mem>
    ensures { IfOk result (λ code. code ≡ some_if (wants_code modes.now) (code_for (supply entering.now))) }
{
    if modes.user_code || modes.user_code_uri {
        Ok(Some(user_code(entering)?))
    } else {
        Ok(None)
    }
}

// How many values are drawn.
fn value_count(modes: &Modes) -> u64
    ensures { result ≡ asking_values modes.now }
{
    if modes.finish.is_some() { 3 } else { 2 }
}

// The round in which the user is asked.
fn begin_round(entering: &Entering, number: u64, end: u64, modes: &Modes) -> Result<RoundNote, Mem>
    ensures { IfOk result (λ round. round ≡ begun_round entering.now number end modes.now) }
{
    let code = wanted_code(entering, modes)?;
    entering.supply.round(number, end, modes, code)
}

/// The user is asked about the grant with this number and this end, which gets this continuation value.
pub fn ask(
    alloc: Global,
    entering: &Entering,
    number: u64,
    end: u64,
    modes: &Modes,
    door: [u8; 32],
    instance: Option<Bytes>,
) -> Result<Asking, Mem>
    ensures reply { IfOk result (λ asking. asking.reply ≡ asking_reply entering.now door (begun_round entering.now number end modes.now) instance) }
    ensures drawn { IfOk result (λ asking. asking.drawn ≡ asking_values modes.now) }
    ensures round { IfOk result (λ asking. asking.round ≡ round_row 0 None (begun_round entering.now number end modes.now)) }
{
    let round = begin_round(entering, number, end, modes)?;
    let reply = pending_reply(alloc, &round, entering.supply.moment, door, instance)?;
    match stored_round(alloc, round) {
        Ok(round) => Ok(Asking {
            reply,
            drawn: value_count(modes),
            round,
        }),
        Err(e) => {
            // By a call, since else the drop of each kind of reply is written out here.
            drop(reply);
            Err(e)
        }
    }
}
