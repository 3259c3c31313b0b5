//! The room that the system has for datagrams that nobody took yet.

ghost use Rattle.std.specs.Prelude.{◌≡◌};
ghost use Rattle.recording_sockets.specs.Buffers.{buffer_within as octets_within};

use crate::options::option_value;
use libc::net::{SO_RCVBUF, SOL_SOCKET, getsockopt, setsockopt};
use std::os::fd::RawFd;

/// Asks the system to keep so many octets of the datagrams of a socket that nobody took yet, at most `i32::MAX`, and answers
/// how many of them it keeps: it may give less (Linux: at most `net.core.rmem_max`). If it doesn't say, all are answered.
pub fn set_buffer(socket: RawFd, octets: u32) -> u32 {
    let value = option_value(i32::try_from(octets).unwrap_or(i32::MAX));
    let _ = unsafe { setsockopt(socket, SOL_SOCKET, SO_RCVBUF, &value, 4) };
    let mut said = [0; 16];
    let mut length = 4;
    match unsafe { getsockopt(socket, SOL_SOCKET, SO_RCVBUF, &mut said, &mut length) } {
        0 => buffer_within(
            octets,
            u32::from_ne_bytes([said[0], said[1], said[2], said[3]]),
        ),
        _ => octets,
    }
}

/// How many of the octets that were asked for are kept, by what the system says: twice what it keeps of datagrams, since its
/// own accounts of them are counted, too.
fn buffer_within(asked: u32, said: u32) -> u32
    ensures { result ≡ octets_within asked said }
{
    asked.min(said / 2)
}
