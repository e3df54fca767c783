//! How the configuration of a client, the setup of a resource server, and pairs of a setup are read.
ghost use Rattle.std.specs.Prelude.{List};
ghost use Rattle.derivation_requests.specs.Pairs.{ArePairs, Pair, pairs_of};
ghost use Rattle.gnap_client.specs.Configs.{Parts, client_config_of, parts_of};
ghost use Rattle.resource_server.specs.declared.setup.RsSetup.{RsSetup};
ghost use Rattle.resource_server.specs.Fits.{RsSetupFits};
ghost use Rattle.resource_server.specs.RsSetups.{rs_setup_of};

use command_inputs::{ConfigKind, ConfigReader};
use derived_tokens::{Pairs, read_pairs};
use gnap_client::{ClientConfig, read_client_config};
use gnap_model::objects::Setup;
use gnap_objects::SetupFault;
use resource_server::{RsSetup, read_rs_setup};
use std::alloc::Global;

/// How the configuration of a client is read.
pub struct ClientConfigReader;

impl ConfigReader for ClientConfigReader {
    type Config = ClientConfig;

    ghost View = { Parts };

    ghost view = { parts_of };

    ghost reading = { λ _. client_config_of };

    ghost sound = { λ _ _. Unit {0} };

    fn kind(&self) -> ConfigKind {
        ConfigKind::Configuration
    }

    fn read(&self, alloc: Global, text: &[u8]) -> Result<ClientConfig, SetupFault> {
        read_client_config(alloc, text)
    }
}

/// How the setup of a resource server is read.
pub struct RsSetupReader;

impl ConfigReader for RsSetupReader {
    type Config = RsSetup;

    ghost View = { RsSetup };

    ghost view = { λ setup. setup };

    ghost reading = { λ _. rs_setup_of };

    ghost sound = { λ _. RsSetupFits };

    fn kind(&self) -> ConfigKind {
        ConfigKind::Setup
    }

    fn read(&self, alloc: Global, text: &[u8]) -> Result<RsSetup, SetupFault> {
        read_rs_setup(alloc, text)
    }
}

/// How pairs of client keys and resource servers of this setup are read.
#[derive(Clone, Copy)]
pub struct PairsReader<'a> {
    pub setup: &'a Setup,
}

impl<'a> ConfigReader for PairsReader<'a> {
    type Config = Pairs;

    ghost View = { List Pair };

    ghost view = { λ pairs. pairs };

    ghost reading = { λ reader. pairs_of reader.setup.now };

    ghost sound = { λ reader. ArePairs reader.setup.now };

    fn kind(&self) -> ConfigKind {
        ConfigKind::Pairs
    }

    fn read(&self, alloc: Global, text: &[u8]) -> Result<Pairs, SetupFault> {
        read_pairs(alloc, text, self.setup)
    }
}
