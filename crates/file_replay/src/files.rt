//! A file whose first line is a setup, and each further line a call.
ghost use Rattle.std.specs.Prelude.{◌≡◌, ◌≤◌, [], Some, None, length};
ghost use Rattle.outside.specs.Outside.{Leaves, IsRest};
ghost use Rattle.command_inputs.specs.Configs.{setup_in};
ghost use Rattle.command_inputs.specs.Ends.{CountsReads, CountsWrites, EndsAt, Took};
ghost use Rattle.command_inputs.specs.Reading.{held_by, Came};
ghost use Rattle.call_replay.specs.Replaying.{Replays, IsSetupAlone, IsRefusal, IsLoneHistory};
ghost use Rattle.call_replay.specs.Replays.{ReplaysFile};

use bytes_and_lists::bytes::Bytes;
use bytes_and_lists::memory::Duplicate;
use call_replay::replay_lines;
use command_inputs::{
    ConfigKind, Ended, LineEnd, LineReader, SETUP_LIMIT, SetupReader, WrongSetup, config_in,
};
use grant_machine::laws::what_holds;
use outside::device::{Sink, Source};
use std::alloc::Global;
use table_core::table_desk;

// Carries out the lines after the first one, by the setup that this one is.
fn replay_after<S: Source, O: Sink>(
    alloc: Global,
    first: &Bytes,
    reader: &mut LineReader,
    source: &mut S,
    out: &mut O,
) -> Ended
    requires held { length (held_by reader.old) ≤ reader.old.taken }
    ensures replays { (setup : _) → setup_in first.now ≡ Some setup
        → Replays setup 0 (IsLoneHistory setup) (held_by reader.old) reader.old.taken reader.new.taken
        (S.told source.old) (S.told source.new) (O.told out.old) (O.told out.new) result }
    ensures no_setup { setup_in first.now ≡ None → IsRefusal result × (O.told out.new ≡ O.told out.old) }
    ensures came { (bytes : _) × Came bytes reader.old.taken reader.new.taken (S.told source.old) (S.told source.new) }
    ensures reads { CountsReads result (S.faults source.old) (S.faults source.new) }
    ensures writes { CountsWrites result (O.faults out.old) (O.faults out.new) }
    ensures took { EndsAt result reader.new.taken (S.told source.new) }
{
    let setup = match config_in(alloc, &SetupReader, first) {
        Ok(setup) => setup,
        Err(ended) => return ended,
    };
    let Ok(rules) = setup.copy() else {
        return Ended::Memory;
    };
    let mut desk = table_desk(alloc, rules);
    replay_lines(alloc, &setup, &mut desk, reader, source, out)
}

// A setup without further lines.
fn only_setup(alloc: Global, first: &Bytes) -> Ended
    ensures { IsSetupAlone result (setup_in first.now) }
{
    match config_in(alloc, &SetupReader, first) {
        Ok(_) => Ended::Done,
        Err(ended) => ended,
    }
}

/// Carries out a file of which nothing was read: its first line is the setup, and each further line a call.
pub fn replay<S: Source, O: Sink>(alloc: Global, source: &mut S, out: &mut O) -> Ended
    requires fresh { (S.told source.old).taken ≡ [] }
    ensures replays { (rest : _) → IsRest (S.told source.new) rest
        → ReplaysFile (S.told source.new).taken rest (O.told out.old) (O.told out.new) result }
    ensures leaves { Leaves (S.told source.new).taken (S.told source.old).left (S.told source.new).left }
    ensures reads { CountsReads result (S.faults source.old) (S.faults source.new) }
    ensures writes { CountsWrites result (O.faults out.old) (O.faults out.new) }
    ensures took { Took result (S.told source.new) }
{
    what_holds();
    let mut reader = LineReader::new(alloc);
    let mut first = Bytes::new(alloc);
    match reader.next_line(source, &mut first, SETUP_LIMIT, false) {
        LineEnd::Whole => replay_after(alloc, &first, &mut reader, source, out),
        LineEnd::Last => only_setup(alloc, &first),
        LineEnd::Long => Ended::NoSetup(WrongSetup::TooLong(ConfigKind::Setup)),
        LineEnd::Full => Ended::TooLong,
        LineEnd::Failed => Ended::Failed,
        LineEnd::Memory => Ended::Memory,
    }
}
