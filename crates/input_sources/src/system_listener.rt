//! The system's listener.

ghost use Rattle.std.specs.Prelude.{◌≡◌, ⊤, IfOk, IfSome, IsErr, None, Some};
ghost use Rattle.std.specs.Duration.{as_nanos};
ghost use Rattle.input_sources.specs.Had.{IsUnread};

use crate::accepting::{Accepted, Listener};
use ipfix_session::{FromReader, Source};
use network_prefixes::peer_address;
use report_writing::Reason;
use std::net::{TcpListener, TcpStream};
use std::time::Duration;

/// The system's listener.
#[derive(Drop)]
pub struct SystemListener {
    listener: Option<TcpListener>,
}

impl SystemListener {
    /// A listener that is open.
    pub fn new(listener: TcpListener) -> Self
        ensures { result.listener ≡ Some listener }
    {
        SystemListener {
            listener: Some(listener),
        }
    }

    // The next connection, of which nothing was read. Over IPv6, a peer that has an IPv4 address is told by that.
    fn accept_next(&self, idle: Option<Duration>) -> Result<Accepted<FromReader<TcpStream>>, Reason>
        ensures closed { self.now.listener ≡ None → IsErr result }
        ensures no_time { IfSome idle (λ limit. as_nanos limit ≡ 0 → IsErr result) }
        ensures unread { IfOk result
            (λ had. IsUnread ⟦<FromReader<TcpStream> as Source>⟧.seen had.source) }
    {
        let Some(listener) = &self.listener else {
            return Err(Reason::Other);
        };
        let (stream, peer) = match listener.accept() {
            Ok(connection) => connection,
            Err(error) => return Err(Reason::of(&error)),
        };
        match stream.set_read_timeout(idle) {
            Ok(()) => Ok(Accepted {
                source: FromReader::new(stream),
                peer: peer_address(peer),
            }),
            Err(error) => Err(Reason::of(&error)),
        }
    }
}

impl Listener<FromReader<TcpStream>> for SystemListener {
    ghost gives = { λ _ _ _. ⊤ };

    ghost is_of = { λ _ _ _. ⊤ };

    ghost refuses = { λ _ _. ⊤ };

    ghost coming = { λ _. None };

    ghost is_closed = { λ l. l.listener ≡ None };

    fn next_source(
        &mut self,
        idle: Option<Duration>,
    ) -> Result<Accepted<FromReader<TcpStream>>, Reason> {
        self.accept_next(idle)
    }

    fn close(&mut self) {
        self.listener = None;
    }
}
