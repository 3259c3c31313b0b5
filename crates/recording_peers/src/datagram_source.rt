//! Where datagrams come from.

use std::net::SocketAddr;

/// A datagram that was received.
#[derive(Clone, Copy, Debug, PartialEq, Eq)]
pub struct Datagram {
    /// How many octets of the buffer are its octets.
    pub length: usize,
    /// Who sent it.
    pub peer: SocketAddr,
}

/// Why there is no datagram.
#[derive(Clone, Copy, Debug, PartialEq, Eq)]
pub enum NoDatagram {
    /// None came within the time limit, or the wait was interrupted.
    Tick,
    /// The datagrams can't be received.
    Failed,
}

/// Gives datagrams one after another.
pub trait DatagramSource {
    ghost use Rattle.std.specs.Prelude.{◌≤◌, List, [], ◌∷◌, length, IfOk};
    ghost use Rattle.recording_peers.specs.Answers.{Answer, Gives, answer_of};

    /// What contracts see of it: that these are its answers so far, one for each time that it was asked.
    ghost answered: { Self → List Answer → Type 0 };

    /// Receives the next datagram into a buffer. Of one that is longer than the buffer it gives the first
    /// octets.
    fn receive(&mut self, buffer: &mut [u8]) -> Result<Datagram, NoDatagram>
        ensures fits { IfOk result (λ d. d.length ≤ length buffer.new) }
        ensures gives { Gives answered (answer_of result buffer.new ∷ []) self.old self.new };
}
