//! Which client key belongs to which resource server.
ghost use Rattle.std.specs.Prelude.{◌≡◌, ◌++◌, ◌∷◌, [], length, None, OnOk, OnErr, option_map};
ghost use Rattle.structured_fields.specs.Named.{value_at};

use bytes_and_lists::bytes::Bytes;
use bytes_and_lists::memory::Mem;
use std::alloc::Global;
use std::marker::Model;
use structured_fields::Named;

/// The ids of client keys, each once, with the id of the resource server that uses the key. Contracts see the list of both ids, in the order in which they
/// came.
#[derive(Drop)]
pub struct Pairs {
    servers: Named<Bytes>,
}

impl Model for Pairs {
    ghost use Rattle.std.specs.Prelude.{List};
    ghost use Rattle.gnap_model.specs.Common.{Text};

    ghost Value = { List (Text × Text) };

    ghost view = { λ pairs. pairs.servers };
}

impl Pairs {
    /// No pairs. Takes no memory.
    pub fn new(alloc: Global) -> Pairs
        ensures { result ≡ [] }
    {
        Pairs {
            servers: Named::new(alloc),
        }
    }

    /// How many pairs there are.
    pub fn len(&self) -> usize
        ensures { result ≡ length self.now }
    {
        self.servers.len()
    }

    /// The id of the server that uses the client key with this id. None exactly where no pair has the client. Takes time that grows with the logarithm of
    /// the number of pairs.
    pub fn server_of(&self, client: &[u8]) -> Option<&Bytes>
        ensures { option_map (λ server. server.now) result ≡ value_at self.now client.now }
    {
        self.servers.get(client)
    }

    /// Adds a pair behind the others. An `Err` changes nothing.
    #[tactic(auto, using(structured_fields::proofs::Entries::goes_last))]
    pub fn add(&mut self, client: Bytes, server: Bytes) -> Result<(), Mem>
        requires { value_at self.old client ≡ None }
        ensures ok { OnOk result (self.new ≡ self.old ++ (client, server) ∷ []) }
        ensures err { OnErr result (self.new ≡ self.old) }
    {
        self.servers.set(client, server)
    }
}
