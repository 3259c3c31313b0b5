//! The system's socket as a source of datagrams.

ghost use Rattle.std.specs.Prelude.{◌≡◌, ◌⊎◌, ◌↔◌, ⊤};
ghost use Rattle.std.specs.IoError.{error_kind};

use crate::socket_drops::SocketDrops;
use network_prefixes::peer_address;
use recording_peers::{Datagram, DatagramSource, NoDatagram};
use recording_sockets::{inode_of, set_buffer};
use std::io::{self, ErrorKind};
use std::net::{Net, SocketAddr, ToSocketAddrs, UdpSocket};
use std::os::fd::AsRawFd;
use std::time::Duration;

/// How many seconds a call waits before it is a tick.
const TICK: u64 = 1;

/// A socket of the system. A call that waits for a second is a tick. What it answers isn't seen by contracts.
#[derive(Drop)]
pub struct SystemSocket {
    socket: UdpSocket,
    /// How many octets of datagrams that nobody took yet the system keeps, of those that it was asked to.
    pub buffer: u32,
}

impl SystemSocket {
    /// A socket that takes datagrams at an address, for which the system is asked to keep so many octets of datagrams that
    /// nobody took yet.
    pub fn bind<R: Net, A: ToSocketAddrs>(
        rt: &R,
        address: A,
        buffer: u32,
    ) -> io::Result<SystemSocket> {
        let socket = UdpSocket::bind(rt, address)?;
        socket.set_read_timeout(Some(Duration::from_secs(TICK)))?;
        let buffer = set_buffer(socket.as_raw_fd(), buffer);
        Ok(SystemSocket { socket, buffer })
    }

    /// The address at which it takes datagrams.
    pub fn local_addr(&self) -> io::Result<SocketAddr> {
        self.socket.local_addr()
    }

    /// The socket as one of which the system has dropped nothing yet, if it says how many it drops.
    pub fn drops(&self, rt: &HostRuntime) -> Option<SocketDrops> {
        let address = self.local_addr().ok()?;
        let inode = inode_of(rt, self.socket.as_raw_fd())?;
        Some(SocketDrops {
            address,
            inode,
            dropped: 0,
        })
    }
}

impl DatagramSource for SystemSocket {
    ghost answered = { λ _ _. ⊤ };

    fn receive(&mut self, buffer: &mut [u8]) -> Result<Datagram, NoDatagram> {
        match self.socket.recv_from(buffer) {
            Ok((length, peer)) => Ok(Datagram {
                length,
                peer: peer_address(peer),
            }),
            Err(error) => Err(why_none(&error)),
        }
    }
}

// A tick, and an interruption, may be tried again at once.
fn why_none(error: &io::Error) -> NoDatagram
    ensures { (result ≡ NoDatagram.Tick) ↔ ((error_kind error.now ≡ ErrorKind.Interrupted)
        ⊎ ((error_kind error.now ≡ ErrorKind.WouldBlock)
        ⊎ (error_kind error.now ≡ ErrorKind.TimedOut))) }
{
    match error.kind() {
        ErrorKind::Interrupted | ErrorKind::WouldBlock | ErrorKind::TimedOut => NoDatagram::Tick,
        _ => NoDatagram::Failed,
    }
}
