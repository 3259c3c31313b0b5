//! Where the files of peers are made.

use recording_files::FileSeries;
use recording_resumption::EarlierDomains;
use std::alloc::{AllocError, Global};
use std::net::SocketAddr;

/// Makes the files of each session of a peer.
pub trait PeerPlace<F: FileSeries> {
    ghost use Rattle.std.specs.Prelude.{IfOk};
    ghost use Rattle.std.specs.declared.net.socket_addr.SocketAddr.{SocketAddr as Peer};
    ghost use Rattle.recording_files.specs.Files.{IsEmpty};

    /// What contracts see of files: that they were made for a peer.
    ghost made_for: { F → Peer → Type 0 };

    /// Files in which nothing stands, for a session of this peer that begins. Only memory can be refused.
    fn files(&mut self, alloc: Global, peer: SocketAddr) -> Result<F, AllocError>
        ensures empty { IfOk result (λ files. IsEmpty (F.seen files).contents) }
        ensures made { IfOk result (λ files. made_for files peer) };

    /// What an earlier run left of this peer's domains. It is handed over to the first session of the peer.
    fn earlier(&mut self, alloc: Global, peer: SocketAddr) -> EarlierDomains;

    /// Whether no more files can wait to be finished: then no session is to end for another one.
    fn is_busy(&self) -> bool;

    /// Keeps again what was handed over of this peer, of which no session began.
    fn give_back(&mut self, alloc: Global, peer: SocketAddr, earlier: EarlierDomains);
}
