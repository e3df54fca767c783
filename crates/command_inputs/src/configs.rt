//! The setup, the configuration or the pairs that a text is.
ghost use Rattle.std.specs.Prelude.{ℕ, List, Result, IfOk};
ghost use Rattle.json_objects.specs.Reading.{Gives};
ghost use Rattle.gnap_model.specs.declared.objects.Setup.{Setup};
ghost use Rattle.gnap_objects.specs.Setups.{IsSetup, setup_of};
ghost use Rattle.gnap_objects.specs.declared.setups.SetupFault.{SetupFault};
ghost use Rattle.gnap_objects.specs.declared.setups.SetupFault.TheVariants.{OutOfMemory};
ghost use Rattle.command_inputs.specs.Configs.{GivesRead, config_in};

use crate::ended::{ConfigKind, Ended, WrongSetup};
use bytes_and_lists::bytes::Bytes;
use gnap_model::objects::Setup;
use gnap_objects::{SetupFault, read_setup};
use std::alloc::Global;

/// The most bytes of a setup, of a configuration and of pairs.
pub const SETUP_LIMIT: usize = 1_048_576;

/// How a text is read that a command needs before all else.
pub trait ConfigReader {
    /// What is read.
    type Config: Drop;

    /// What contracts see of it.
    ghost View: { Type 0 };

    ghost view: { Self.Config → View };

    /// What a text reads as, or its first fault.
    ghost reading: { Self → List ℕ → Result View SetupFault };

    /// What holds of all that was read.
    ghost sound: { Self → Self.Config → Type 0 };

    /// What the text should be, as a person is told.
    fn kind(&self) -> ConfigKind;

    /// What the text reads as.
    fn read(&self, alloc: Global, text: &[u8]) -> Result<Self::Config, SetupFault>
        ensures value { Gives OutOfMemory view result (reading self.now text.now) }
        ensures sound { IfOk result (sound self.now) };
}

/// How the setup of an authorization server is read.
pub struct SetupReader;

impl ConfigReader for SetupReader {
    type Config = Setup;

    ghost View = { Setup };

    ghost view = { λ setup. setup };

    ghost reading = { λ _. setup_of };

    ghost sound = { λ _. IsSetup };

    fn kind(&self) -> ConfigKind {
        ConfigKind::Setup
    }

    fn read(&self, alloc: Global, text: &[u8]) -> Result<Setup, SetupFault> {
        read_setup(alloc, text)
    }
}

/// What the text is by its reader, or how a command ends that needs it.
pub fn config_in<R: ConfigReader>(
    alloc: Global,
    reader: &R,
    text: &Bytes,
) -> Result<R::Config, Ended>
    ensures value { GivesRead R.view result (config_in (R.reading reader.now) text.now) }
    ensures sound { IfOk result (R.sound reader.now) }
{
    if SETUP_LIMIT < text.len() {
        return Err(Ended::NoSetup(WrongSetup::TooLong(reader.kind())));
    }
    match reader.read(alloc, text.as_slice()) {
        Ok(config) => Ok(config),
        Err(SetupFault::OutOfMemory) => Err(Ended::Memory),
        Err(fault) => {
            let why = WrongSetup::faulty(alloc, reader.kind(), text.as_slice(), fault);
            Err(Ended::NoSetup(why))
        }
    }
}
