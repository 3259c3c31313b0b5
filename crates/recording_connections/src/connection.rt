//! Where connections come from.

use crate::keepalive::keep_alive;
use crate::patient_reader::{PatientReader, SilenceLimits};
use ipfix_session::Source;
use network_prefixes::peer_address;
use std::net::{SocketAddr, TcpListener, TcpStream};
use std::rt::Clock;
use std::time::Duration;
use thiserror::Error;

/// How many seconds a read waits before it is a tick.
const TICK: u64 = 1;

/// A connection that was accepted.
#[derive(Drop)]
pub struct Connection<S> {
    pub source: S,
    /// The address of its peer.
    pub peer: SocketAddr,
}

/// No connection could be accepted, or it has gone again.
#[derive(Clone, Copy, Debug, PartialEq, Eq, Error)]
#[error("no connection could be accepted")]
pub struct NotAccepted;

/// What gives one connection after another, to several threads.
pub trait ConnectionSource<S: Source> {
    ghost use Rattle.std.specs.Prelude.{IfOk};
    ghost use Rattle.recording_connections.specs.declared.connection.Connection.{Connection};

    /// Whether it may give this connection.
    ghost gives: { Self → Connection S → Type 0 };

    /// The next connection, of which nothing was read.
    fn next_connection(&self) -> Result<Connection<S>, NotAccepted>
        ensures { IfOk result (gives self.now) };
}

/// A listener of the system. A read of its connections that waits for a second is a tick, and the session
/// of a peer that is silent for too long ends.
#[derive(Drop)]
pub struct PatientListener<'a, C: Clock> {
    pub listener: TcpListener,
    pub clock: &'a C,
    pub silence: SilenceLimits,
}

impl<'a, C: Clock> ConnectionSource<PatientReader<'a, TcpStream, C>> for PatientListener<'a, C> {
    ghost use Rattle.std.specs.Prelude.{◌≡◌, []};
    ghost use Rattle.ipfix_session.specs.MessageCounts.{HasRead};

    // Nothing of it was read, and it may be silent for as long as the listener says.
    ghost gives = { λ listener connection. (connection.source.silence ≡ listener.silence)
        × (connection.source.reads ≡ 0) × HasRead connection.source.messages [] };

    fn next_connection(&self) -> Result<Connection<PatientReader<'a, TcpStream, C>>, NotAccepted> {
        let Ok((stream, peer)) = self.listener.accept() else {
            return Err(NotAccepted);
        };
        if stream
            .set_read_timeout(Some(Duration::from_secs(TICK)))
            .is_err()
        {
            return Err(NotAccepted);
        }
        keep_alive(&stream);
        Ok(Connection {
            source: PatientReader::new(self.clock, stream, self.silence),
            peer: peer_address(peer),
        })
    }
}
