//! Room for a new peer.

ghost use Rattle.std.specs.Prelude.{◌≡◌, ◌<◌, ◌^◌, ◌∷◌, Some, None, OnErr, OnOk, IfOk, length, if◌then◌else◌};
ghost use Rattle.std.specs.Map.{lookup_entry, remove_entry};
ghost use Rattle.lru.specs.LruCache.{IsValid};
ghost use Rattle.recording_peers.specs.Table.{address_of, of_peer, same_peer};
ghost use Rattle.recording_peers.specs.Steps.{KeepsLimits, PeersPutIn, goes_first, gone_for};

use crate::peer_state::PeerState;
use crate::peers::Peers;
use recording_files::FileSeries;
use std::alloc::AllocError;
use std::net::SocketAddr;

// One more peer of which something holds, or not, after those before it: the last of which it does.
fn or_last(found: Option<SocketAddr>, holds: bool, peer: SocketAddr) -> Option<SocketAddr>
    ensures { result ≡ (if holds then Some peer else found) }
{
    if holds { Some(peer) } else { found }
}

impl<F: FileSeries + Drop> Peers<F> {
    // The peer that goes first: one without a template in force, or else one of which no data record was read, or else any,
    // and of these the one that was silent for longest. This goes over all.
    fn goes_first(&self) -> Option<SocketAddr>
        ensures { result ≡ address_of (goes_first self.now.kept.entries) }
    {
        let mut without_template = None;
        let mut without_record = None;
        for (peer, kept) in self.kept.iter() {
            without_template = or_last(without_template, !kept.recorder.has_template(), *peer);
            without_record = or_last(without_record, !kept.recorder.has_record(), *peer);
        }
        if without_template.is_some() {
            return without_template;
        }
        if without_record.is_some() {
            return without_record;
        }
        let (peer, _) = self.kept.peek_lru()?;
        Some(*peer)
    }

    // Who goes, if there is no room for one more.
    fn goes(&self) -> Option<SocketAddr>
        ensures goes { result ≡ address_of (gone_for self.now.kept.cap self.now.kept.entries) }
        ensures valid { IsValid same_peer self.now.kept }
        ensures fits { length self.now.kept.entries < 2 ^ 63 }
    {
        if self.kept.len() < self.kept.cap().get() {
            None
        } else {
            self.goes_first()
        }
    }

    // Puts a peer that isn't kept first, as there is room. Without memory nothing changes.
    fn put_first(&mut self, peer: SocketAddr, session: PeerState<F>) -> Result<(), AllocError>
        requires room { length self.old.kept.entries < self.old.kept.cap }
        requires new { of_peer peer self.old.kept.entries ≡ None }
        ensures first { OnOk result
            (self.new.kept.entries ≡ (peer, session) ∷ self.old.kept.entries) }
        ensures none { OnErr result (self.new.kept.entries ≡ self.old.kept.entries) }
        ensures limits { KeepsLimits self.old self.new }
    {
        match self.kept.push(peer, session) {
            Ok(_) => Ok(()),
            Err(_) => Err(AllocError),
        }
    }

    // Puts a peer that isn't kept first, as there is room, and takes out another one then. Without memory nothing changes.
    fn put_for(
        &mut self,
        peer: SocketAddr,
        session: PeerState<F>,
        goes: &SocketAddr,
    ) -> Result<Option<(SocketAddr, PeerState<F>)>, AllocError>
        requires room { length self.old.kept.entries < self.old.kept.cap }
        requires new { of_peer peer self.old.kept.entries ≡ None }
        ensures gone { let es = (peer, session) ∷ self.old.kept.entries in
            IfOk result (λ gone. (gone ≡ lookup_entry (same_peer goes.now) es)
            × (self.new.kept.entries ≡ remove_entry (same_peer goes.now) es)) }
        ensures none { OnErr result (self.new.kept.entries ≡ self.old.kept.entries) }
        ensures limits { KeepsLimits self.old self.new }
    {
        self.put_first(peer, session)?;
        Ok(self.kept.pop_entry(goes))
    }

    /// Puts a peer that isn't kept first. If there is no room for it another one goes, and is answered. Without memory nothing
    /// changes.
    pub(crate) fn put_in(
        &mut self,
        peer: SocketAddr,
        session: PeerState<F>,
    ) -> Result<Option<(SocketAddr, PeerState<F>)>, AllocError>
        requires { of_peer peer self.old.kept.entries ≡ None }
        ensures gone { IfOk result (PeersPutIn peer session self.old self.new) }
        ensures none { OnErr result (self.new.kept.entries ≡ self.old.kept.entries) }
        ensures limits { KeepsLimits self.old self.new }
    {
        let Some(goes) = self.goes() else {
            self.put_first(peer, session)?;
            return Ok(None);
        };
        let room = self.kept.cap();
        self.kept.resize(room.saturating_add(1));
        let gone = self.put_for(peer, session, &goes);
        self.kept.resize(room);
        gone
    }
}
