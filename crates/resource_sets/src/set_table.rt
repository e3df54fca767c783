//! A core that keeps the sets.
ghost use Rattle.std.specs.Prelude.{◌≡◌, ◌≢◌, ℕ, [], None, Some, IfOk, OnErr};
ghost use Rattle.std.specs.List.{AllByRecursion};
ghost use Rattle.gnap_model.specs.Keys.{key_of, server_names as names_of_server};
ghost use Rattle.gnap_model.specs.Judging.{serves_all};
ghost use Rattle.access_rights.specs.Fits.{Fits};
ghost use Rattle.resource_sets.specs.Fingerprints.{fingerprint};
ghost use Rattle.resource_sets.specs.KeptNotes.{AreKept, IsAnswered};
ghost use Rattle.resource_sets.specs.Sets.{SetFits, set_named, set_answer, registration, registered, resolved};
ghost use Rattle.resource_sets.specs.declared.sets.SetCall.TheVariants.{Lapse};

use crate::fingerprints::fingerprint;
use crate::registry::{RegisteredSet, Registry};
use crate::sets::{SetCall, SetReply, Sets};
use bytes_and_lists::bytes::Bytes;
use bytes_and_lists::memory::Mem;
use bytes_and_lists::seq::Seq;
use drawn_texts::value_text;
use gnap_model::objects::{ErrorCode, Setup};
use gnap_model::rights::Rights;
use grant_rules::keys::server_names;
use grant_rules::suiting::serves_each;
use histories::machine::Core;
use random_words::RandomWords;
use std::alloc::Global;

/// So many sets may be there.
pub const SET_LIMIT: usize = 65_536;

/// Keeps the sets of a history, with an index by their rights, and its greatest moment.
#[derive(Drop)]
pub struct SetTable {
    alloc: Global,
    rules: Setup,
    latest: u64,
    sets: Registry,
}

// The server serves each of the rights.
fn is_served(alloc: Global, rules: &Setup, server: &[u8], rights: &Rights) -> bool
    ensures { result ≡ serves_all (names_of_server (key_of rules.now server.now)) (Some rights.now) }
{
    let none = Seq::new(alloc);
    serves_each(server_names(rules, server, &none), rights.as_slice())
}

// Adds a set that isn't there, if there is room for one. An `Err` changes nothing.
fn add_set(
    alloc: Global,
    sets: &mut Registry,
    draw: &RandomWords,
    print: u64,
    server: &Bytes,
    rights: &Rights,
) -> Result<SetReply, Mem>
    requires { print ≡ fingerprint server.now rights.now }
    ensures ok { IfOk result (IsAnswered (registered None sets.old draw.now server.now rights.now) sets.old sets.new) }
    ensures err { OnErr result (sets.new ≡ sets.old) }
{
    if sets.len() >= SET_LIMIT {
        return Ok(SetReply::Error {
            code: ErrorCode::RequestDenied,
        });
    }
    let serial = sets.len() as u64 + 1;
    let reference = value_text(serial, draw.word(0), draw.word(1));
    let set = RegisteredSet::new(alloc, serial, server, rights, reference)?;
    sets.add(print, set)?;
    Ok(SetReply::Registered { reference })
}

// Answers a registration. An `Err` changes nothing.
fn register(
    alloc: Global,
    rules: &Setup,
    sets: &mut Registry,
    draw: &RandomWords,
    server: &Bytes,
    rights: &Rights,
) -> Result<SetReply, Mem>
    requires kept { AreKept sets.old }
    requires fits { AllByRecursion Fits rights.now }
    ensures ok { IfOk result (IsAnswered (registration rules.now sets.old draw.now server.now rights.now) sets.old sets.new) }
    ensures err { OnErr result (sets.new ≡ sets.old) }
{
    if !is_served(alloc, rules, server.as_slice(), rights) {
        return Ok(SetReply::Error {
            code: ErrorCode::InvalidAccess,
        });
    }
    let print = fingerprint(alloc, server.as_slice(), rights)?;
    match sets.known(alloc, print, server, rights)? {
        Some(set) => Ok(SetReply::Registered {
            reference: set.reference(),
        }),
        None => add_set(alloc, sets, draw, print, server, rights),
    }
}

// Says what a reference means.
fn resolve(alloc: Global, sets: &Registry, reference: &[u8]) -> Result<SetReply, Mem>
    requires { AreKept sets.now }
    ensures { IfOk result (IsAnswered (resolved (set_named reference.now sets.now)) sets.now sets.now) }
{
    match sets.named(reference) {
        Some(set) => set.meaning(alloc),
        None => Ok(SetReply::Error {
            code: ErrorCode::InvalidRequest,
        }),
    }
}

// Answers a call. An `Err` changes nothing.
fn answer_call(
    alloc: Global,
    rules: &Setup,
    sets: &mut Registry,
    draw: &RandomWords,
    call: &SetCall,
) -> Result<SetReply, Mem>
    requires kept { AreKept sets.old }
    requires fits { SetFits call.now }
    requires no_lapse { call.now ≢ Lapse }
    ensures ok { IfOk result (λ reply. (now : ℕ) → IsAnswered (set_answer rules.now sets.old now draw.now call.now) sets.old sets.new reply) }
    ensures err { OnErr result (sets.new ≡ sets.old) }
{
    match call {
        SetCall::Register { server, rights } => register(alloc, rules, sets, draw, server, rights),
        SetCall::Resolve {
            asker: _,
            reference,
        } => resolve(alloc, sets, reference.as_slice()),
        SetCall::Lapse => unreachable!(),
    }
}

impl SetTable {
    /// Stands for the empty history, under the rules of this setup. Takes no memory.
    pub fn new(alloc: Global, setup: Setup) -> SetTable
        ensures rules { ⟦<SetTable as Core>⟧.rules result ≡ setup }
        ensures empty { ⟦<SetTable as Core>⟧.stands result [] }
    {
        SetTable {
            alloc,
            rules: setup,
            latest: 0,
            sets: Registry::new(alloc),
        }
    }
}

impl Core for SetTable {
    ghost use Rattle.histories.specs.ByNotes.{StandsByNotes, stands-renumbered};
    ghost use Rattle.resource_sets.specs.Sets.{set_answer, SetFits};
    ghost use Rattle.resource_sets.specs.declared.sets.SetCall.TheVariants.{Lapse};

    type M = Sets;

    ghost rules = { λ core. core.rules };

    ghost stands = { λ core h. StandsByNotes set_answer SetFits Lapse core.rules core.sets core.latest h };

    ghost frugal = { λ _. ⊥ };

    /// A reference takes two words.
    fn words_to_make(call: &SetCall) -> usize {
        match call {
            SetCall::Register { .. } => 2,
            _ => 0,
        }
    }

    fn step(&mut self, moment: u64, draw: &RandomWords, call: &SetCall) -> Result<SetReply, Mem> {
        self.latest = self.latest.max(moment);
        answer_call(self.alloc, &self.rules, &mut self.sets, draw, call)
    }

    ghost legal = { λ core h stands. stands.is_legal };

    ghost renumbers = { λ core h k same stands. stands-renumbered set_answer SetFits Lapse core.rules core.sets core.latest h k same stands };
}
