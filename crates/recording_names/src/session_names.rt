//! The names of sessions.

ghost use Rattle.std.specs.Prelude.{◌≡◌, ◌≢◌, ◌++◌, ◌<◌, ◌^◌, ℕ, List, decimal, IfNone, IfOk, IfSome, OnOk};
ghost use Rattle.std.specs.String.{string_bytes};
ghost use Rattle.std.specs.Net.Addr.{ipv6_segments};
ghost use Rattle.recording_names.specs.SessionNames.{AreInRange, AreParts, HasNoHyphen, IsNumberText, SessionParts, address_name, groups, hyphened, name_of_session, next_group, parts_of, text_of};
ghost use Rattle.recording_names.specs.declared.transport.Transport.{Transport};

use crate::decimals::decimal_number;
use crate::transport::Transport;
use std::alloc::{AllocError, Global};
use std::fmt::Write;
use std::net::{IpAddr, Ipv6Addr, SocketAddr};

// A port is a number below this one.
const PORTS: u64 = 1 << 16;

/// What the name of a session says.
#[derive(Clone, Copy, Debug)]
pub struct SessionName<'a> {
    /// Its peer's address, as it is written there ([`address_name`]).
    pub address: &'a str,
    /// Its peer's port.
    pub port: u16,
    /// What its messages come over.
    pub transport: Transport,
    /// Its number in its run.
    pub number: u64,
}

/// The name of a session: its peer's address, its peer's port and its number, with hyphens between
/// them. Before the number of a session of datagrams stands the letter `u`.
pub fn session_name(
    alloc: Global,
    peer: SocketAddr,
    transport: Transport,
    number: u64,
) -> Result<String, AllocError>
    ensures { IfOk result (λ text. string_bytes text ≡ name_of_session peer transport number) }
{
    let address = address_name(alloc, peer.ip())?;
    let port = peer.port();
    match transport {
        Transport::Connection => format!(in alloc; "{address}-{port}-{number}"),
        Transport::Datagrams => format!(in alloc; "{address}-{port}-u{number}"),
    }
}

/// What a name says, if it is the name of a session. (Any text stands for an address here.)
pub fn read_session_name(name: &str) -> Option<SessionName<'_>>
    ensures some { IfSome result (λ told. name.now ≡ text_of (parts_of told)) }
    ensures none { IfNone result ((s : SessionParts) → AreInRange s → name.now ≢ text_of s) }
{
    let (peer, rest) = split_last(name)?;
    read_parts(peer, rest)
}

/// What the two parts of a name say, before and after its last hyphen.
pub(crate) fn read_parts<'a>(peer: &'a str, rest: &str) -> Option<SessionName<'a>>
    ensures some { IfSome result (λ told. AreParts peer.now rest.now (parts_of told)) }
    ensures none { IfNone result ((s : SessionParts) → AreInRange s
        → ¬ AreParts peer.now rest.now s) }
{
    let (transport, number) = read_number(rest)?;
    let (address, digits) = split_last(peer)?;
    let port = port_number(digits)?;
    Some(SessionName {
        address,
        port,
        transport,
        number,
    })
}

/// What stands before and after the last hyphen.
pub(crate) fn split_last(text: &str) -> Option<(&str, &str)>
    ensures parts { IfSome result (λ parts. text.now ≡ hyphened parts.0.now parts.1.now) }
    ensures last { IfSome result (λ parts. HasNoHyphen parts.1.now) }
    ensures none { IfNone result ((front back : List ℕ) → text.now ≢ hyphened front back) }
{
    text.rsplit_once('-')
}

// The number of a session, and what its messages come over.
fn read_number(text: &str) -> Option<(Transport, u64)>
    ensures some { IfSome result (λ told. IsNumberText text.now told.0 told.1) }
    ensures none { IfNone result ((over : Transport) (n : ℕ) → ¬ IsNumberText text.now over n) }
{
    match text.strip_prefix('u') {
        Some(digits) => {
            let number = decimal_number(digits)?;
            Some((Transport::Datagrams, number))
        }
        None => {
            let number = decimal_number(text)?;
            Some((Transport::Connection, number))
        }
    }
}

// A decimal number of 16 bits, without a sign or leading zeros.
fn port_number(text: &str) -> Option<u16>
    ensures some { IfSome result (λ port. text.now ≡ decimal port) }
    ensures none { IfNone result ((port : ℕ) → port < 2 ^ 16 → text.now ≢ decimal port) }
{
    let number = decimal_number(text)?;
    if number >= PORTS {
        return None;
    }
    Some(number as u16)
}

/// How an address stands in names. One of IPv6 is written as its eight groups with hyphens for the colons,
/// unless it stands for an IPv4 address: then it is that one.
pub fn address_name(alloc: Global, address: IpAddr) -> Result<String, AllocError>
    ensures { IfOk result (λ text. string_bytes text ≡ address_name address) }
{
    match address {
        IpAddr::V4(address) => format!(in alloc; "{address}"),
        IpAddr::V6(address) => match address.to_ipv4_mapped() {
            Some(mapped) => format!(in alloc; "{mapped}"),
            None => groups(alloc, address),
        },
    }
}

// The eight groups of an address with hyphens between them.
fn groups(alloc: Global, address: Ipv6Addr) -> Result<String, AllocError>
    ensures { IfOk result (λ text. string_bytes text ≡ groups (ipv6_segments address)) }
{
    let segments = address.segments();
    let mut text = String::new(alloc);
    write!(text, "{:x}", segments[0])?;
    for segment in &segments[1..] {
        push_group(&mut text, *segment)?;
    }
    Ok(text)
}

// Appends a hyphen and a group.
fn push_group(text: &mut String, segment: u16) -> Result<(), AllocError>
    ensures { OnOk result (string_bytes text.new ≡ string_bytes text.old ++ next_group segment) }
{
    write!(text, "-{segment:x}")
}
