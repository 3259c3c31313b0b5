//! Taking the datagrams of peers.

ghost use Rattle.std.specs.Prelude.{◌≡◌, ◌≤◌, Some, None, IfSome, IsTrue, length};
ghost use Rattle.recording_peers.specs.Table.{of_peer};
ghost use Rattle.recording_peers.specs.Steps.{DatagramBegins, KeepsLimits, PeersBegin, PeersRecord, PeersTake};

use crate::outcome::{Became, Outcome};
use crate::peer_place::PeerPlace;
use crate::peer_state::PeerState;
use crate::peers::Peers;
use ipfix_wire::Header;
use recording_files::FileSeries;
use recording_peer::{Beginning, begins_peer};
use recording_resumption::{EarlierDomains, go_on};
use std::alloc::{AllocError, Global};
use std::net::SocketAddr;

impl<F: FileSeries + Drop> Peers<F> {
    // Whether there is no room for one more peer, and the place is too busy to end another.
    fn lacks_room<P: PeerPlace<F>>(&self, place: &P) -> bool
        ensures { IsTrue result → self.now.kept.cap ≤ length self.now.kept.entries }
    {
        self.kept.len() >= self.kept.cap().get() && place.is_busy()
    }

    /// Records a datagram of a peer that isn't kept, if it begins a session.
    pub(crate) fn record_first<P: PeerPlace<F>>(
        &mut self,
        alloc: Global,
        place: &mut P,
        peer: SocketAddr,
        datagram: &[u8],
        second: u64,
    ) -> Outcome<F>
        requires { of_peer peer self.old.kept.entries ≡ None }
        ensures records { PeersRecord F.seen P.made_for peer datagram.now second result self.old self.new }
        ensures limits { KeepsLimits self.old self.new }
    {
        if self.lacks_room(place) {
            return Outcome {
                became: Became::NoPlace,
                gone: None,
            };
        }
        let earlier = place.earlier(alloc, peer);
        match begins_peer(alloc, self.limits.templates, &earlier, datagram) {
            Ok(Beginning::Begins) => {
                self.record_begun(alloc, place, peer, earlier, datagram, second)
            }
            Ok(Beginning::PassesBy(header)) => {
                pass_by(alloc, place, peer, earlier, &header);
                Outcome {
                    became: Became::NoPlace,
                    gone: None,
                }
            }
            Ok(Beginning::BeginsNone) => {
                place.give_back(alloc, peer, earlier);
                Outcome {
                    became: Became::NoPlace,
                    gone: None,
                }
            }
            Err(_) => {
                place.give_back(alloc, peer, earlier);
                Outcome {
                    became: Became::NoMemory,
                    gone: None,
                }
            }
        }
    }

    // Records a datagram that begins the session of its peer, of which an earlier run left this.
    fn record_begun<P: PeerPlace<F>>(
        &mut self,
        alloc: Global,
        place: &mut P,
        peer: SocketAddr,
        earlier: EarlierDomains,
        datagram: &[u8],
        second: u64,
    ) -> Outcome<F>
        requires new { of_peer peer self.old.kept.entries ≡ None }
        requires begins { DatagramBegins self.old.limits earlier datagram.now }
        ensures records { PeersRecord F.seen P.made_for peer datagram.now second result self.old self.new }
        ensures limits { KeepsLimits self.old self.new }
    {
        match self.begin(alloc, place, peer, earlier, second) {
            Ok(gone) => match self.take(alloc, peer, datagram, second) {
                Some(became) => Outcome { became, gone },
                None => Outcome {
                    became: Became::NoMemory,
                    gone,
                },
            },
            Err(_) => Outcome {
                became: Became::NoMemory,
                gone: None,
            },
        }
    }

    // Begins the session of a peer that isn't kept, of which an earlier run left this, and answers the peer that went.
    fn begin<P: PeerPlace<F>>(
        &mut self,
        alloc: Global,
        place: &mut P,
        peer: SocketAddr,
        earlier: EarlierDomains,
        second: u64,
    ) -> Result<Option<(SocketAddr, PeerState<F>)>, AllocError>
        requires { of_peer peer self.old.kept.entries ≡ None }
        ensures begun { PeersBegin F.seen P.made_for peer earlier result self.old self.new }
        ensures limits { KeepsLimits self.old self.new }
    {
        let files = place.files(alloc, peer)?;
        let session = PeerState::new(alloc, files, earlier, self.limits, second);
        self.put_in(peer, session)
    }

    /// Takes a datagram of a peer, if it is kept.
    pub(crate) fn take(
        &mut self,
        alloc: Global,
        peer: SocketAddr,
        datagram: &[u8],
        second: u64,
    ) -> Option<Became<F>>
        ensures unknown { result ≡ None → of_peer peer self.old.kept.entries ≡ None }
        ensures none { result ≡ None → self.new ≡ self.old }
        ensures taken { IfSome result (PeersTake F.seen peer datagram.now second self.old self.new) }
        ensures limits { KeepsLimits self.old self.new }
    {
        match self.kept.get_mut(&peer)?.take(alloc, datagram, second) {
            Ok(()) => Some(Became::Taken),
            Err(_) => {
                let ended = self.kept.pop(&peer)?;
                Some(Became::Ended(ended))
            }
        }
    }
}

// Keeps again what an earlier run left of a peer, after a datagram with this header that begins no session, as one of a session would
// leave it. Without memory nothing is kept.
fn pass_by<F: FileSeries, P: PeerPlace<F>>(
    alloc: Global,
    place: &mut P,
    peer: SocketAddr,
    earlier: EarlierDomains,
    header: &Header,
) {
    let mut left = earlier;
    if go_on(&mut left, header, false).is_ok() {
        place.give_back(alloc, peer, left);
    }
}
