//! A setup with what its requests are verified by.
ghost use Rattle.std.specs.Prelude.{◌≡◌, IfOk, IfErr, codes};
ghost use Rattle.gnap_model.specs.declared.objects.Setup.{Setup};
ghost use Rattle.gnap_objects.specs.Setups.{IsSetup};
ghost use Rattle.as_requests.specs.Rings.{secrets_of};

use bytes_and_lists::bytes::Bytes;
use bytes_and_lists::memory::Mem;
use gnap_model::objects::Setup;
use hmac_key::Keyring;
use std::alloc::Global;
use std::marker::Model;

/// A setup, with a ring of its keys: the ring has the id and the secret of each key of the setup, and no others. Contracts see the setup alone.
#[derive(Drop)]
pub struct Edge {
    setup: Setup,
    ring: Keyring,
    // The tag of GNAP's signatures (RFC 9635, section 7.3.1), made once for all requests.
    tag: Bytes,
}

impl Model for Edge {
    ghost use Rattle.std.specs.Prelude.{◌≡◌, codes};
    ghost use Rattle.gnap_model.specs.declared.objects.Setup.{Setup};

    ghost Value = { Setup };

    ghost use Rattle.gnap_objects.specs.Setups.{IsSetup};
    ghost use Rattle.as_requests.specs.Rings.{secrets_of};

    ghost view = { λ e. e.setup };

    ghost invariant = { λ e. IsSetup e.setup × (e.ring ≡ secrets_of e.setup) × (e.tag ≡ codes "gnap") };
}

// The keys of the setup in a ring.
fn ring_of(alloc: Global, setup: &Setup) -> Result<Keyring, Mem>
    requires { IsSetup setup.now }
    ensures { IfOk result (λ ring. ring ≡ secrets_of setup.now) }
{
    let mut ring = Keyring::new(alloc);
    for key in setup.keys.as_slice() {
        ring.add(&key.id, &key.secret)?;
    }
    Ok(ring)
}

impl Edge {
    /// The setup with a ring of its keys. Where memory ran out, the setup is given back.
    pub fn new(alloc: Global, setup: Setup) -> Result<Edge, (Setup, Mem)>
        requires { IsSetup setup }
        ensures ok { IfOk result (λ edge. edge ≡ setup) }
        ensures err { IfErr result (λ e. e.0 ≡ setup) }
    {
        let ring = match ring_of(alloc, &setup) {
            Ok(ring) => ring,
            Err(Mem) => return Err((setup, Mem)),
        };
        let tag = match Bytes::from_slice(alloc, b"gnap") {
            Ok(tag) => tag,
            Err(Mem) => return Err((setup, Mem)),
        };
        Ok(Edge { setup, ring, tag })
    }

    /// The setup.
    pub fn setup(&self) -> &Setup
        ensures value { result.now ≡ self.now }
        ensures setup { IsSetup self.now }
    {
        &self.setup
    }

    // The secrets of the keys under their ids.
    pub(crate) fn ring(&self) -> &Keyring
        ensures { result.now ≡ secrets_of self.now }
    {
        &self.ring
    }

    pub(crate) fn tag(&self) -> &Bytes
        ensures { result.now ≡ codes "gnap" }
    {
        &self.tag
    }
}
