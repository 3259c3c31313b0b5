//! Connections whose peer has vanished.

use libc::net::{
    IPPROTO_TCP, SO_KEEPALIVE, SOL_SOCKET, TCP_KEEPCNT, TCP_KEEPIDLE, TCP_KEEPINTVL, setsockopt,
};
use recording_sockets::option_value;
use std::net::TcpStream;
use std::os::fd::AsRawFd;

/// After how many seconds of silence the system asks whether a peer is still there.
const IDLE: i32 = 60;

/// How many seconds are between two such questions.
const INTERVAL: i32 = 10;

/// How many of them remain without an answer when the system ends the connection.
const PROBES: i32 = 6;

/// Lets the system look whether the peer of a silent connection is still there: one that has vanished is noticed after two
/// minutes, and a read of its connection then fails. Where the system refuses that, the connection stays as it is.
pub(crate) fn keep_alive(stream: &TcpStream) {
    let fd = stream.as_raw_fd();
    let _ = unsafe { setsockopt(fd, SOL_SOCKET, SO_KEEPALIVE, &option_value(1), 4) };
    let _ = unsafe { setsockopt(fd, IPPROTO_TCP, TCP_KEEPIDLE, &option_value(IDLE), 4) };
    let _ = unsafe { setsockopt(fd, IPPROTO_TCP, TCP_KEEPINTVL, &option_value(INTERVAL), 4) };
    let _ = unsafe { setsockopt(fd, IPPROTO_TCP, TCP_KEEPCNT, &option_value(PROBES), 4) };
}
