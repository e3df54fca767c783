//! The servers of a setup: what is served of it, at an address.
ghost use Rattle.std.specs.Prelude.{◌≡◌, ℕ, ◌∷◌, None, true};
ghost use Rattle.outside.specs.Outside.{Told};
ghost use Rattle.serving.specs.ServiceEnds.{HaveServedJust};
ghost use Rattle.gnap_objects.specs.Setups.{IsSetup};
ghost use Rattle.command_inputs.specs.Ends.{CountsWrites};
ghost use Rattle.world_uses.specs.Uses.{UsesWorld, ended_service};
ghost use Rattle.command_words.specs.Commands.{AreFewWorkers};
ghost use Rattle.gnap_tool.specs.Openings.{service_openings};
ghost use Rattle.gnap_tool.specs.Runs.{CarriesOut, ServesBy};
ghost use Rattle.command_words.specs.declared.command.Service.TheVariants.{Derivations};

use crate::config::PairsReader;
use as_service::{serve_at, serve_deriving_at};
use bytes_and_lists::bytes::Bytes;
use command_inputs::{Ended, SetupReader};
use command_words::{Command, ServedSetup, Service};
use gnap_model::objects::Setup;
use outside::world::{Opening, World, WorldFault};
use rs_facing::serve_sets_at;
use std::alloc::Global;
use std::sync::Wait;
use std::thread::Threads;
use world_uses::{ended_by_fault, open_config};

/// How a command ends by what serving at an address answered.
pub(crate) fn ended_service(answer: Result<(), WorldFault>) -> Ended
    ensures { result ≡ ended_service answer }
{
    match answer {
        Ok(()) => Ended::Done,
        Err(fault) => ended_by_fault(fault),
    }
}

// Serves the authorization server of a setup, which derives tokens by the pairs in a file.
fn serve_deriving<R: Threads + Wait + Sync, W: World>(
    rt: &R,
    alloc: Global,
    setup: Setup,
    pairs: &Bytes,
    served: &ServedSetup,
    world: &mut W,
) -> Ended
    requires setup { IsSetup setup }
    requires few { AreFewWorkers served.now }
    ensures served { (out : Told) → ServesBy (Derivations pairs.now) setup served.now (W.text world.old) (W.state world.old) (W.state world.new) out out result }
    ensures world { UsesWorld (service_openings (Derivations pairs.now) served.now) None (W.state world.old) (W.state world.new) result }
    ensures writes { (faults : ℕ) → CountsWrites result faults faults }
    ensures quota { W.gives_quota ≡ true → result ≡ Ended.Done → HaveServedJust served.now.quota (W.state world.new).gears }
{
    let reader = PairsReader { setup: &setup };
    match open_config(alloc, &reader, pairs, world) {
        Ok(known) => ended_service(serve_deriving_at(
            rt,
            alloc,
            world,
            setup,
            known,
            &served.listen,
            served.workers,
            served.quota,
        )),
        Err(ended) => {
            drop(setup);
            ended
        }
    }
}

// Serves this of a setup.
fn serve_setup<R: Threads + Wait + Sync, W: World>(
    rt: &R,
    alloc: Global,
    service: &Service,
    setup: Setup,
    served: &ServedSetup,
    world: &mut W,
) -> Ended
    requires setup { IsSetup setup }
    requires few { AreFewWorkers served.now }
    ensures served { (out : Told) → ServesBy service.now setup served.now (W.text world.old) (W.state world.old) (W.state world.new) out out result }
    ensures world { UsesWorld (service_openings service.now served.now) None (W.state world.old) (W.state world.new) result }
    ensures writes { (faults : ℕ) → CountsWrites result faults faults }
    ensures quota { W.gives_quota ≡ true → result ≡ Ended.Done → HaveServedJust served.now.quota (W.state world.new).gears }
{
    let listen = &served.listen;
    let workers = served.workers;
    let quota = served.quota;
    match service {
        Service::Grants => {
            ended_service(serve_at(rt, alloc, world, setup, listen, workers, quota))
        }
        Service::Derivations(pairs) => serve_deriving(rt, alloc, setup, pairs, served, world),
        Service::Sets => {
            ended_service(serve_sets_at(rt, alloc, world, setup, listen, workers, quota))
        }
    }
}

/// Serves this of the setup in a file.
pub(crate) fn serve<R: Threads + Wait + Sync, W: World>(
    rt: &R,
    alloc: Global,
    service: &Service,
    served: &ServedSetup,
    world: &mut W,
) -> Ended
    requires few { AreFewWorkers served.now }
    ensures carried { (out : Told) → CarriesOut (Command.Serve service.now served.now) (W.text world.old) (W.state world.old) (W.state world.new) out out result }
    ensures world { UsesWorld (Opening.File served.now.config ∷ service_openings service.now served.now) None (W.state world.old) (W.state world.new) result }
    ensures writes { (faults : ℕ) → CountsWrites result faults faults }
    ensures quota { W.gives_quota ≡ true → result ≡ Ended.Done → HaveServedJust served.now.quota (W.state world.new).gears }
{
    match open_config(alloc, &SetupReader, &served.config, world) {
        Ok(setup) => serve_setup(rt, alloc, service, setup, served, world),
        Err(ended) => ended,
    }
}
