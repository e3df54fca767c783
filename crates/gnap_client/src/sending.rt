//! Sending requests over a link.
ghost use Rattle.gnap_client.specs.Sending.{Sends};

use crate::client::{Client, ClientFault, Took};
use outside::link::{Link, LinkFault};

impl Client {
    /// Exchanges the request over the link, once, and takes the reply. `LinkFault` comes exactly where that exchange failed.
    pub fn send<L: Link>(&mut self, link: &mut L, request: &[u8]) -> Result<Took, ClientFault>
        ensures { Sends request.now (L.link link.old) (L.link link.new) self.old self.new result }
    {
        match link.exchange(request) {
            Ok(reply) => self.take_reply(reply.as_slice()),
            Err(LinkFault::Failed) => Err(ClientFault::LinkFault),
            Err(LinkFault::OutOfMemory) => Err(ClientFault::OutOfMemory),
        }
    }
}
