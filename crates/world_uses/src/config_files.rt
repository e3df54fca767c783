//! A file that should be a setup, a configuration or pairs.
ghost use Rattle.std.specs.Prelude.{◌≡◌, ◌∷◌, [], None, IfOk, IsOk};
ghost use Rattle.outside.specs.Outside.{IsAtEnd, IsRest, Leaves};
ghost use Rattle.command_inputs.specs.Configs.{config_in};
ghost use Rattle.command_inputs.specs.Ends.{CountsReads};
ghost use Rattle.world_uses.specs.ConfigFiles.{GivesConfig, GivesText, ended_by};
ghost use Rattle.world_uses.specs.Uses.{HasNoConfig, Over, UsesWorld};

use crate::unopened::ended_by_fault;
use bytes_and_lists::bytes::Bytes;
use command_inputs::{
    ConfigKind, ConfigReader, Ended, InputFault, SETUP_LIMIT, WrongSetup, config_in, read_input,
};
use outside::device::Source;
use outside::world::{Opening, World};
use std::alloc::Global;

// The whole text of a file that should be of this kind, of which nothing was read yet. Of a text that is too long for that not much more is read.
fn read_config<S: Source>(alloc: Global, kind: ConfigKind, source: &mut S) -> Result<Bytes, Ended>
    requires fresh { (S.told source.old).taken ≡ [] }
    ensures text { (rest : _) → IsRest (S.told source.new) rest → GivesText result (S.told source.new).taken rest }
    ensures leaves { Leaves (S.told source.new).taken (S.told source.old).left (S.told source.new).left }
    ensures end { IsOk result → IsAtEnd (S.told source.new) }
    ensures reads { CountsReads (ended_by result) (S.faults source.old) (S.faults source.new) }
{
    match read_input(alloc, source, SETUP_LIMIT) {
        Ok(text) => Ok(text),
        Err(InputFault::TooLong) => Err(Ended::NoSetup(WrongSetup::TooLong(kind))),
        Err(InputFault::Failed) => Err(Ended::Failed),
        Err(InputFault::OutOfMemory) => Err(Ended::Memory),
    }
}

// Opens the file that should be of this kind, reads its text, and gives it back.
fn open_text<W: World>(
    alloc: Global,
    kind: ConfigKind,
    file: &Bytes,
    world: &mut W,
) -> Result<Bytes, Ended>
    ensures config { Over (W.text world.old file.now) (W.state world.old) (W.state world.new) (HasNoConfig result) (GivesText result) }
    ensures world { UsesWorld (Opening.File file.now ∷ []) None (W.state world.old) (W.state world.new) (ended_by result) }
    ensures text { W.text world.new ≡ W.text world.old }
{
    match world.open_file(file) {
        Err(fault) => Err(ended_by_fault(fault)),
        Ok(mut config) => {
            let text = read_config(alloc, kind, &mut config);
            world.close_file(config);
            text
        }
    }
}

/// What a file is by its reader. Of a file that is too long for that not much more is read.
pub fn open_config<R: ConfigReader, W: World>(
    alloc: Global,
    reader: &R,
    file: &Bytes,
    world: &mut W,
) -> Result<R::Config, Ended>
    ensures config { Over (W.text world.old file.now) (W.state world.old) (W.state world.new) (HasNoConfig result)
        (GivesConfig R.view (config_in (R.reading reader.now)) result) }
    ensures sound { IfOk result (R.sound reader.now) }
    ensures world { UsesWorld (Opening.File file.now ∷ []) None (W.state world.old) (W.state world.new) (ended_by result) }
    ensures text { W.text world.new ≡ W.text world.old }
{
    match open_text(alloc, reader.kind(), file, world) {
        Ok(text) => config_in(alloc, reader, &text),
        Err(ended) => Err(ended),
    }
}
