//! What a resource server is set up with.
ghost use Rattle.std.specs.Prelude.{◌≡◌};
ghost use Rattle.resource_server.specs.Routing.{has_path};

use bytes_and_lists::bytes::Bytes;
use bytes_and_lists::seq::Seq;
use gnap_model::rights::Right;
use hmac_key::Keyring;

/// The routes of a resource server, no two with one method and one path.
pub type Routes = Seq<Route>;

/// A resource that is served.
#[derive(Drop)]
pub struct Route {
    /// 1 to 15 upper-case letters.
    pub method: Bytes,
    /// It begins with `/`.
    pub path: Bytes,
    /// The right that a token needs.
    pub right: Right,
    /// What is shown.
    pub text: Bytes,
}

impl Route {
    /// Whether it has this path.
    pub fn has_path(&self, path: &[u8]) -> bool
        ensures { result ≡ has_path path.now self.now }
    {
        self.path.as_slice() == path
    }
}

/// The setup of a resource server.
#[derive(Drop)]
pub struct RsSetup {
    /// Its own address.
    pub base: Bytes,
    /// The address of the authorization server.
    pub server: Bytes,
    /// The id of its key.
    pub id: Bytes,
    /// The secret of its key.
    pub secret: Bytes,
    /// The keys of clients.
    pub ring: Keyring,
    pub routes: Routes,
}
