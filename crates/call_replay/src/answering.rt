//! One line at a desk.
ghost use Rattle.std.specs.Prelude.{◌≡◌, ◌<◌, ◌^◌, IsUtf8, length};
ghost use Rattle.histories.specs.History.{places};
ghost use Rattle.call_replay.specs.CallLines.{line_step};
ghost use Rattle.command_inputs.specs.LineRuns.{CountsPrint};
ghost use Rattle.call_replay.specs.Replaying.{AnswersLine};

use crate::call_lines::{LineStep, line_step};
use crate::reply_lines::reply_line;
use bytes_and_lists::bytes::Bytes;
use bytes_and_lists::memory::Mem;
use command_inputs::{After, say};
use gnap_model::objects::Setup;
use grant_machine::Gnap;
use histories::machine::Desk;
use outside::device::Sink;
use std::alloc::Global;

/// Answers the line of this number, of which at most one byte more than a call line may have is looked at.
pub fn answer_line<D: Desk<M = Gnap>, O: Sink>(
    alloc: Global,
    setup: &Setup,
    desk: &mut D,
    out: &mut O,
    number: u64,
    line: &Bytes,
) -> After
    requires rules { D.rules desk.old ≡ setup.now }
    requires base { IsUtf8 setup.now.base }
    requires front { IsUtf8 setup.now.front }
    requires room { (h : _) × D.seen desk.old h × (length (places (D.number desk.old) h) < 2 ^ 52) }
    ensures rules { D.rules desk.new ≡ D.rules desk.old }
    ensures number { D.number desk.new ≡ D.number desk.old }
    ensures turn { (h full : _) → D.seen desk.old h → line_step setup.now number full ≡ line_step setup.now number line.now
        → AnswersLine setup.now (D.number desk.old) number full (D.seen desk.new) h (O.told out.old) (O.told out.new) result }
    ensures counts { CountsPrint result (O.faults out.old) (O.faults out.new) }
{
    match line_step(alloc, setup, number, line.as_slice()) {
        Err(Mem) => After::Starved,
        Ok(LineStep::Say(text)) => say(out, &text),
        Ok(LineStep::Ask(moment, draw, signed)) => {
            let answer = desk.submit(moment, &draw, signed);
            drop(draw);
            match answer {
                Err(Mem) => After::Starved,
                Ok(reply) => {
                    let text = reply_line(alloc, setup, &reply);
                    drop(reply);
                    match text {
                        Err(Mem) => After::Starved,
                        Ok(text) => say(out, &text),
                    }
                }
            }
        }
    }
}
