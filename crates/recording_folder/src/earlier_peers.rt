//! What an earlier run left of the peers that sent datagrams.

ghost use Rattle.std.specs.Prelude.{◌≡◌, ◌++◌, ◌∷◌, [], List, decimal, OnErr, OnOk, IfOk};
ghost use Rattle.std.specs.Option.{option_map_or};
ghost use Rattle.std.specs.String.{string_bytes};
ghost use Rattle.recording_names.specs.SessionNames.{hyphened};
ghost use Rattle.recording_folder.specs.PeerFiles.{Note};
ghost use Rattle.recording_folder.specs.EarlierPeers.{HasNoted, IsGone, IsHandedOver, KeepsOf, comes_later, is_later, kept_of, name_of};

use crate::peer_files::NamedFile;
use recording_names::address_name;
use recording_resumption::{EarlierDomains, EarlierSession, domains_left};
use std::alloc::{AllocError, Global};
use std::cmp::Ordering;
use std::collections::BTreeMap;
use std::mem;
use std::net::SocketAddr;

// What the last file of a peer left.
#[derive(Drop)]
struct EarlierPeer {
    // How late that file is.
    rank: [u64; 4],
    domains: EarlierDomains,
}

/// What an earlier run left of each peer that sent datagrams, by the last of its files that was noted.
#[derive(Drop)]
pub struct EarlierPeers {
    // By the address, as it stands in names, and the port.
    peers: BTreeMap<String, EarlierPeer>,
}

// How a peer is named: its address, as it stands in names, and its port.
fn peer_name(alloc: Global, address: &str, port: u16) -> Result<String, AllocError>
    ensures { IfOk result (λ name. string_bytes name ≡ hyphened address.now (decimal port)) }
{
    format!(in alloc; "{address}-{port}")
}

impl EarlierPeers {
    /// Nothing was noted.
    pub fn new(alloc: Global) -> Self
        ensures { HasNoted result [] }
    {
        EarlierPeers {
            peers: BTreeMap::new(alloc),
        }
    }

    // Whether a file of a peer that is as late as this is later than what is kept of the peer, if anything is.
    fn is_later_than_kept(&self, peer: &str, rank: [u64; 4]) -> bool
        ensures { result ≡ is_later (kept_of self.now peer.now) rank }
    {
        let Some(kept) = self.peers.get(peer) else {
            return true;
        };
        match kept.rank.cmp(&rank) {
            Ordering::Less => true,
            _ => false,
        }
    }

    /// Whether a file is later than what was noted of its peer, if anything was. Only memory can be refused.
    pub fn is_later(&self, alloc: Global, file: &NamedFile<'_>) -> Result<bool, AllocError>
        ensures { IfOk result (λ answer. answer ≡ comes_later self.now file.now) }
    {
        let peer = peer_name(alloc, file.session.address, file.session.port)?;
        Ok(self.is_later_than_kept(peer.as_str(), file.rank()))
    }

    /// Notes a file of a peer's datagrams, and what it left, which is kept if it is later than those that were noted of the
    /// peer. Only memory can be refused, and then nothing has changed.
    pub fn note(
        &mut self,
        alloc: Global,
        file: &NamedFile<'_>,
        session: &EarlierSession,
    ) -> Result<(), AllocError>
        ensures noted { (notes : List Note) → HasNoted self.old notes → OnOk result (HasNoted self.new
            (notes ++ record { file = file.now; session = session.now } ∷ [])) }
        ensures err { (all : List Note) → HasNoted self.old all → OnErr result (HasNoted self.new all) }
    {
        let peer = peer_name(alloc, file.session.address, file.session.port)?;
        let rank = file.rank();
        if !self.is_later_than_kept(peer.as_str(), rank) {
            return Ok(());
        }
        let domains = domains_left(alloc, session)?;
        self.peers.insert(peer, EarlierPeer { rank, domains })?;
        Ok(())
    }

    // Keeps these domains of a peer, if anything is kept of it, and answers which were kept before; otherwise these.
    fn replace_domains(&mut self, peer: &str, domains: EarlierDomains) -> EarlierDomains
        ensures before { result ≡ option_map_or (λ p. p.domains) (kept_of self.old peer.now) domains }
        ensures kept { KeepsOf self.old peer.now domains self.new }
    {
        match self.peers.get_mut(peer) {
            Some(kept) => mem::replace(&mut kept.domains, domains),
            None => domains,
        }
    }

    /// What is left of a peer by the last of its files that was noted, which is handed over once: nothing, if none was.
    /// Only memory can be refused, and then nothing has changed.
    pub fn take(&mut self, alloc: Global, peer: SocketAddr) -> Result<EarlierDomains, AllocError>
        ensures left { (notes : List Note) → HasNoted self.old notes
            → IfOk result (IsHandedOver notes (name_of peer)) }
        ensures gone { OnOk result (IsGone self.old (name_of peer) self.new) }
        ensures err { OnErr result (self.new ≡ self.old) }
    {
        let address = address_name(alloc, peer.ip())?;
        let name = peer_name(alloc, address.as_str(), peer.port())?;
        Ok(self.replace_domains(name.as_str(), BTreeMap::new(alloc)))
    }

    /// Keeps again what was handed over of a peer. Only memory can be refused, and then nothing has changed.
    pub fn give_back(
        &mut self,
        alloc: Global,
        peer: SocketAddr,
        domains: EarlierDomains,
    ) -> Result<(), AllocError>
        ensures kept { OnOk result (KeepsOf self.old (name_of peer) domains self.new) }
        ensures err { OnErr result (self.new ≡ self.old) }
    {
        let address = address_name(alloc, peer.ip())?;
        let name = peer_name(alloc, address.as_str(), peer.port())?;
        let _ = self.replace_domains(name.as_str(), domains);
        Ok(())
    }
}
