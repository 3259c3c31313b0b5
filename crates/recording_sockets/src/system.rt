//! What the system says of its sockets.

use crate::drops::drops_of;
use input_files::ReadText;
use std::alloc::Global;
use std::fs;
use std::os::fd::RawFd;
use std::os::unix::fs::MetadataExt;

/// The texts that Linux has of its UDP sockets.
const UDP: &str = "/proc/net/udp";

const UDP_OVER_IPV6: &str = "/proc/net/udp6";

/// The inode of a socket, if the system says it (Linux).
pub fn inode_of(rt: &HostRuntime, socket: RawFd) -> Option<u64> {
    let path = format!(in rt.alloc(); "/proc/self/fd/{socket}").ok()?;
    let metadata = fs::metadata(rt, path.as_str()).ok()?;
    Some(metadata.ino())
}

/// How many datagrams of a UDP socket the system dropped since it was made, if it says it (Linux).
pub fn system_drops(rt: &HostRuntime, inode: u64) -> Option<u64> {
    match drops_in(rt, UDP, inode) {
        Some(drops) => Some(drops),
        None => drops_in(rt, UDP_OVER_IPV6, inode),
    }
}

// The same, by one of the texts.
fn drops_in(rt: &HostRuntime, path: &str, inode: u64) -> Option<u64> {
    let octets = rt.read_text(rt.alloc(), path).ok()?;
    let text = str::from_utf8(octets.as_slice()).ok()?;
    drops_of(text, inode)
}
