//! Which peers may send.

ghost use Rattle.std.specs.Prelude.{◌↔◌, IsTrue};
ghost use Rattle.network_prefixes.specs.Peers.{LetsIn};

use crate::prefix::Prefix;
use std::net::IpAddr;

/// The prefixes that peers may have. Without one all peers may send.
#[derive(Drop)]
pub struct PeerFilter {
    pub prefixes: Vec<Prefix>,
}

impl PeerFilter {
    /// Whether a peer with this address may send: there is no prefix, or one covers it.
    pub fn lets_in(&self, peer: IpAddr) -> bool
        ensures { IsTrue result ↔ LetsIn self.now peer }
    {
        self.prefixes.is_empty() || self.prefixes.iter().any(|prefix| prefix.covers(peer))
    }
}
