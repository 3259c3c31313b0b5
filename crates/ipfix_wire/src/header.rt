//! Message headers (RFC 7011, section 3.1).

ghost use Rattle.std.specs.Prelude.{◌≡◌, ◌≢◌, ◌<◌, ◌≤◌, ◌↔◌, ◌++◌, ℕ, List, Ok, length, take, IfOk, IsErrOf, OnOk, OnErr};
ghost use Rattle.ipfix_wire.specs.Numbers.{number_at};
ghost use Rattle.ipfix_wire.specs.MessageHeader.{header_octets, IsHeader, header_at};
ghost use Rattle.ipfix_wire.specs.declared.header.Header.{Header};

use crate::fault::WireFault;
use crate::numbers::{u16_at, u32_at};
use byteorder::{BigEndian, ByteOrder};
use std::alloc::AllocError;

// The version of IPFIX messages.
const VERSION: u16 = 10;

/// Octets of a message header.
pub const HEADER_LENGTH: usize = 16;

/// What a message header says.
#[derive(Clone, Copy, Debug, PartialEq, Eq)]
pub struct Header {
    /// Octets of the whole message, the header included.
    pub length: u16,
    /// Seconds since 1970-01-01 UTC.
    pub export_time: u32,
    /// Data records of the domain before this message, modulo 2^32.
    pub sequence: u32,
    /// The observation domain.
    pub domain: u32,
}

/// Reads the header that a message begins with; octets may follow it. The version is looked at
/// before the length.
pub fn read_header(octets: &[u8]) -> Result<Header, WireFault>
    requires { HEADER_LENGTH ≤ length octets.now }
    // What is read is spelled so.
    ensures found { IfOk result (λ h. IsHeader h
        × (take HEADER_LENGTH octets.now ≡ header_octets h)) }
    // What is spelled so is read, whatever follows.
    ensures only { (h : Header) (rest : List ℕ) → IsHeader h
        → octets.now ≡ header_octets h ++ rest → result ≡ Ok h }
    ensures exact { result ≡ header_at octets.now }
    ensures version { IsErrOf result WireFault.Version ↔ (number_at 0 2 octets.now ≢ VERSION) }
    ensures message_length { IsErrOf result WireFault.MessageLength
        ↔ ((number_at 0 2 octets.now ≡ VERSION) × (number_at 2 2 octets.now < HEADER_LENGTH)) }
{
    if u16_at(octets, 0) != VERSION {
        return Err(WireFault::Version);
    }
    let length = u16_at(octets, 2);
    if usize::from(length) < HEADER_LENGTH {
        return Err(WireFault::MessageLength);
    }
    Ok(Header {
        length,
        export_time: u32_at(octets, 4),
        sequence: u32_at(octets, 8),
        domain: u32_at(octets, 12),
    })
}

/// Appends a message header. An `Err` changes nothing.
pub fn write_header(header: &Header, out: &mut Vec<u8>) -> Result<(), AllocError>
    ensures ok { OnOk result (out.new.items ≡ out.old.items ++ header_octets header.now) }
    // It is read again, whatever follows.
    ensures again { HEADER_LENGTH ≤ header.now.length → (more : List ℕ)
        → header_at (header_octets header.now ++ more) ≡ Ok header.now }
    ensures err { OnErr result (out.new.items ≡ out.old.items) }
{
    let Header {
        length,
        export_time,
        sequence,
        domain,
    } = *header;
    let mut octets = [0; HEADER_LENGTH];
    BigEndian::write_u16(&mut octets, VERSION);
    BigEndian::write_u16(&mut octets[2..], length);
    BigEndian::write_u32(&mut octets[4..], export_time);
    BigEndian::write_u32(&mut octets[8..], sequence);
    BigEndian::write_u32(&mut octets[12..], domain);
    out.extend_from_slice(&octets)
}
