//! One line's turn.
ghost use Rattle.std.specs.Prelude.{◌≡◌, ◌<◌, ◌^◌, ℕ, List, true, false, Ok, IfSome};
ghost use Rattle.message_signature.specs.Marks.{is_nonce};
ghost use Rattle.client_scripts.specs.declared.line_faults.BadLine.{BadLine};
ghost use Rattle.client_scripts.specs.declared.line_faults.LineFault.{LineFault};
ghost use Rattle.client_scripts.specs.Deeds.{DeedFits, said_line, is_fine, bad_line};
ghost use Rattle.client_scripts.specs.Lines.{line_step};
ghost use Rattle.client_scripts.specs.Starving.{is_memory};
ghost use Rattle.client_scripts.specs.Turns.{HasScriptTurn};

use crate::carrying::{carry_out, said_line};
use crate::deeds::{Deed, ScriptStep};
use crate::line_faults::LineFault;
use crate::lines::read_line;
use bytes_and_lists::bytes::Bytes;
use bytes_and_lists::memory::Mem;
use gnap_client::{Client, ClientFault, State, Took};
use outside::link::Link;
use std::alloc::Global;

/// What is printed for a line, and whether the line was ok.
#[derive(Drop)]
pub struct LineSaid {
    pub text: Bytes,
    pub fine: bool,
}

fn is_memory(answer: &Result<Took, ClientFault>) -> bool
    ensures { result ≡ is_memory answer.now }
{
    match answer {
        Ok(_) => false,
        Err(fault) => match fault {
            ClientFault::OutOfMemory => true,
            ClientFault::NotInGrammar => false,
            ClientFault::HashDiffers { .. } => false,
            ClientFault::WrongState { .. } => false,
            ClientFault::NoToken { .. } => false,
            ClientFault::Refused { .. } => false,
            ClientFault::LinkFault => false,
        },
    }
}

fn is_fine(answer: &Result<Took, ClientFault>) -> bool
    ensures { result ≡ is_fine answer.now }
{
    match answer {
        Ok(_) => true,
        Err(_) => false,
    }
}

// What is said of a line that can't be carried out.
fn unread_said(alloc: Global, fault: &LineFault) -> Option<LineSaid>
    ensures { IfSome result (λ said. (why : BadLine) × (fault.now ≡ LineFault.BadLine why) × (said ≡ record { text = bad_line; fine = false })) }
{
    match fault {
        LineFault::BadLine(_) => match Bytes::from_slice(alloc, b"bad line\n") {
            Ok(text) => Some(LineSaid { text, fine: false }),
            Err(Mem) => None,
        },
        LineFault::OutOfMemory => None,
    }
}

// What is said of a deed that was carried out.
fn answer_said(
    alloc: Global,
    deed: &Deed,
    state: State,
    answer: &Result<Took, ClientFault>,
) -> Option<LineSaid>
    ensures { IfSome result (λ said. (is_memory answer.now ≡ false)
        × (said ≡ record { text = said_line deed.now state answer.now; fine = is_fine answer.now })) }
{
    if is_memory(answer) {
        return None;
    }
    match said_line(alloc, deed, state, answer) {
        Ok(text) => Some(LineSaid {
            text,
            fine: is_fine(answer),
        }),
        Err(Mem) => None,
    }
}

// Has the client do what a line says.
fn step_said<L: Link>(
    alloc: Global,
    client: &mut Client,
    link: &mut L,
    step: &ScriptStep,
) -> Option<LineSaid>
    requires at { step.now.at < 10 ^ 15 }
    requires nonce { is_nonce step.now.nonce ≡ true }
    requires deed { DeedFits step.now.deed }
    ensures { (number : ℕ) (line : List ℕ) → line_step number line ≡ Ok step.now
        → HasScriptTurn number line client.old client.new (L.link link.old).asked (L.link link.new).asked result }
{
    let answer = carry_out(client, link, step);
    answer_said(alloc, &step.deed, client.state(), &answer)
}

/// Reads the line of this number, counted from 1, has the client do what it says, and answers what is printed. None where memory ran out.
pub fn script_line<L: Link>(
    alloc: Global,
    client: &mut Client,
    link: &mut L,
    number: u64,
    line: &[u8],
) -> Option<LineSaid>
    ensures { HasScriptTurn number line.now client.old client.new (L.link link.old).asked (L.link link.new).asked result }
{
    match read_line(alloc, number, line) {
        Ok(step) => {
            let said = step_said(alloc, client, link, &step);
            drop(step);
            said
        }
        Err(fault) => unread_said(alloc, &fault),
    }
}
