//! Listening for connections.

use report_writing::{Reason, Status, Verbosity, write_not_had_because};
use std::io::Stderr;
use std::net::TcpListener;

/// A listener on an address. If it can't be had, `err` has a line.
pub fn listen_on(
    rt: &HostRuntime,
    addr: &str,
    verbosity: Verbosity,
    err: &mut Stderr,
) -> Result<TcpListener, Status> {
    match TcpListener::bind(rt, addr) {
        Ok(listener) => Ok(listener),
        Err(error) => {
            let reason = Reason::of(&error);
            let _ = write_not_had_because(verbosity, "listen", addr, reason, err);
            Err(Status::NotOpened)
        }
    }
}
