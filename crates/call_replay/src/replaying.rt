//! The calls of a file's lines, made at a desk, and their replies printed.
ghost use Rattle.std.specs.Prelude.{◌≡◌, ◌≤◌, [], IsUtf8, length};
ghost use Rattle.command_inputs.specs.Reading.{held_by};
ghost use Rattle.call_replay.specs.Replaying.{Replays};
ghost use Rattle.command_inputs.specs.Ends.{CountsReads, CountsWrites, EndsAt};

use crate::answering::answer_line;
use crate::call_lines::LINE_LIMIT;
use bytes_and_lists::bytes::Bytes;
use command_inputs::{After, Ended, LineReader, emptied};
use gnap_model::objects::Setup;
use grant_machine::Gnap;
use histories::machine::Desk;
use outside::device::{Sink, Source};
use std::alloc::Global;

// The line of the setup is the first of a file.
const FIRST_CALL_LINE: u64 = 2;

/// Answers the lines that the source has left, at a desk that has seen nothing. The first of them is the second line of its file.
pub fn replay_lines<D: Desk<M = Gnap>, S: Source, O: Sink>(
    alloc: Global,
    setup: &Setup,
    desk: &mut D,
    reader: &mut LineReader,
    source: &mut S,
    out: &mut O,
) -> Ended
    requires rules { D.rules desk.old ≡ setup.now }
    requires base { IsUtf8 setup.now.base }
    requires front { IsUtf8 setup.now.front }
    requires fresh { D.seen desk.old [] }
    requires held { length (held_by reader.old) ≤ reader.old.taken }
    ensures rules { D.rules desk.new ≡ D.rules desk.old }
    ensures number { D.number desk.new ≡ D.number desk.old }
    ensures replays { Replays setup.now (D.number desk.old) (D.seen desk.new) (held_by reader.old) reader.old.taken reader.new.taken
        (S.told source.old) (S.told source.new) (O.told out.old) (O.told out.new) result }
    ensures reads { CountsReads result (S.faults source.old) (S.faults source.new) }
    ensures writes { CountsWrites result (O.faults out.old) (O.faults out.new) }
    ensures took { EndsAt result reader.new.taken (S.told source.new) }
{
    let mut line = Bytes::new(alloc);
    let mut number = FIRST_CALL_LINE;
    'lines: loop {
        let end = reader.next_line(source, &mut line, LINE_LIMIT, true);
        if let Some(ended) = end.stopped() {
            return ended;
        }
        match answer_line(alloc, setup, desk, out, number, &line) {
            After::On => {
                if end.is_last() {
                    return Ended::Done;
                }
                line = emptied(line);
                number += 1;
            }
            After::Starved => return Ended::Memory,
            After::Cut => return Ended::WriteFault,
        }
    }
}
