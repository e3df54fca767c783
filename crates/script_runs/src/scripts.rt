//! The lines of a client's script, carried out over a link, and what is printed for them.
ghost use Rattle.std.specs.Prelude.{◌≡◌, ◌≢◌, ◌≤◌, ◌&&◌, [], true, false, length};
ghost use Rattle.outside.specs.Outside.{IsAtEnd, IsRest, Leaves};
ghost use Rattle.script_runs.specs.Scripts.{SaysLine, ScriptHad, EndsScript, RunsScript, ended_script};
ghost use Rattle.command_inputs.specs.LineRuns.{CountsPrint, RunsLines, is_last};
ghost use Rattle.command_inputs.specs.Reading.{held_by};
ghost use Rattle.command_inputs.specs.Ends.{CountsReads, CountsWrites, EndsAt, Took};

use crate::line_hints::explain_line;
use bytes_and_lists::bytes::Bytes;
use client_scripts::script_line;
use command_inputs::{After, Ended, LineEnd, LineReader, emptied, say};
use gnap_client::Client;
use outside::device::{Sink, Source};
use outside::link::Link;
use std::alloc::Global;

// So many bytes of a line are looked at: all of them, since a source has no more.
const SCRIPT_LINE_LIMIT: usize = 1_073_741_824;

// Has the client do what the line of this number says, and prints what is said. `fine` tells whether all lines were ok so far, this one with them.
fn say_line<L: Link, O: Sink, E: Sink>(
    alloc: Global,
    client: &mut Client,
    link: &mut L,
    out: &mut O,
    err: &mut E,
    number: u64,
    line: &Bytes,
    fine: &mut bool,
) -> After
    ensures says { SaysLine number line.now client.old client.new (L.link link.old).asked (L.link link.new).asked (O.told out.old) (O.told out.new) result
        fine.old fine.new }
    ensures counts { CountsPrint result (O.faults out.old) (O.faults out.new) }
{
    match script_line(alloc, client, link, number, line.as_slice()) {
        None => {
            *fine = false;
            After::Starved
        }
        Some(said) => {
            *fine = both(*fine, said.fine);
            if !said.fine {
                explain_line(alloc, err, number, line.as_slice());
            }
            say(out, &said.text)
        }
    }
}

fn both(one: bool, other: bool) -> bool
    ensures { result ≡ (one && other) }
{
    one && other
}

// How a script ended whose lines all had their turns.
fn ended_script(fine: bool) -> Ended
    ensures { result ≡ ended_script fine }
{
    if fine { Ended::Done } else { Ended::Refused }
}

// Whether nothing stands behind the last LF.
fn is_behind_last(end: LineEnd, line: &Bytes) -> bool
    ensures nothing { result ≡ true → (is_last end ≡ true) × (length line.now ≡ 0) }
    ensures some { result ≡ false → is_last end ≡ true → length line.now ≢ 0 }
{
    end.is_last() && line.len() == 0
}

// Has the client carry out the lines that the source has left.
fn run_lines<L: Link, S: Source, O: Sink, E: Sink>(
    alloc: Global,
    client: &mut Client,
    link: &mut L,
    reader: &mut LineReader,
    source: &mut S,
    out: &mut O,
    err: &mut E,
) -> Ended
    requires held { length (held_by reader.old) ≤ reader.old.taken }
    ensures runs { RunsLines (ScriptHad client.old (L.link link.old).asked client.new (L.link link.new).asked) EndsScript (held_by reader.old)
        reader.old.taken reader.new.taken (S.told source.old) (S.told source.new) (O.told out.old) (O.told out.new) result }
    ensures reads { CountsReads result (S.faults source.old) (S.faults source.new) }
    ensures writes { CountsWrites result (O.faults out.old) (O.faults out.new) }
    ensures took { EndsAt result reader.new.taken (S.told source.new) }
{
    let mut line = Bytes::new(alloc);
    let mut fine = true;
    let mut number: u64 = 0;
    'lines: loop {
        let end = reader.next_line(source, &mut line, SCRIPT_LINE_LIMIT, true);
        if let Some(ended) = end.stopped() {
            return ended;
        }
        if is_behind_last(end, &line) {
            return ended_script(fine);
        }
        number += 1;
        match say_line(alloc, client, link, out, err, number, &line, &mut fine) {
            After::On => {
                if end.is_last() {
                    return ended_script(fine);
                }
                line = emptied(line);
            }
            After::Starved => return Ended::Memory,
            After::Cut => return Ended::WriteFault,
        }
    }
}

/// Has the client carry out the lines of a source of which nothing was read, over a link that nothing was asked through, and prints a line for each.
/// What stands behind the last LF is a line where it isn't empty. Why a line is none is told on `err`, with its number and the name of the member that
/// is at fault; whether that is written changes nothing else.
pub fn run_script<L: Link, S: Source, O: Sink, E: Sink>(
    alloc: Global,
    client: &mut Client,
    link: &mut L,
    source: &mut S,
    out: &mut O,
    err: &mut E,
) -> Ended
    requires fresh { (S.told source.old).taken ≡ [] }
    requires unasked { (L.link link.old).asked ≡ [] }
    ensures script { (rest : _) → IsRest (S.told source.new) rest
        → RunsScript client.old (S.told source.new).taken rest (L.link link.new).asked (O.told out.old) (O.told out.new) result }
    ensures leaves { Leaves (S.told source.new).taken (S.told source.old).left (S.told source.new).left }
    ensures reads { CountsReads result (S.faults source.old) (S.faults source.new) }
    ensures writes { CountsWrites result (O.faults out.old) (O.faults out.new) }
    ensures took { Took result (S.told source.new) }
    ensures end { result ≡ Ended.Done → IsAtEnd (S.told source.new) }
{
    let mut reader = LineReader::new(alloc);
    run_lines(alloc, client, link, &mut reader, source, out, err)
}
