//! Times in the format of NTP (RFC 7011, sections 6.1.9 and 6.1.10).

ghost use Rattle.std.specs.Prelude.{◌≡◌, ◌<◌, ◌^◌};
ghost use Rattle.element_values.specs.Instants.{micros_in, nanos_in, parts_in, seconds_since_1970 as since_1970};

use byteorder::{BigEndian, ByteOrder};

/// The seconds from 1900 to 1970.
const SECONDS_TO_1970: u32 = 2_208_988_800;

/// The microseconds since 1970 that 8 octets are, rounded down; `None` for another length. The lowest 11
/// bits of the fraction are not read (RFC 7011, section 6.1.9).
pub fn read_micros(octets: &[u8]) -> Option<u64>
    ensures { result ≡ micros_in octets.now }
{
    let (seconds, fraction) = read_parts(octets)?;
    Some(u64::from(seconds) * 1_000_000 + u64::from(fraction / 2048) * 1_000_000 / 2_097_152)
}

/// The nanoseconds since 1970 that 8 octets are, rounded down; `None` for another length (RFC 7011,
/// section 6.1.10).
pub fn read_nanos(octets: &[u8]) -> Option<u64>
    ensures { result ≡ nanos_in octets.now }
{
    let (seconds, fraction) = read_parts(octets)?;
    Some(u64::from(seconds) * 1_000_000_000 + u64::from(fraction) * 1_000_000_000 / 4_294_967_296)
}

// The seconds since 1970, and the fraction of a second in 2^32 parts.
fn read_parts(octets: &[u8]) -> Option<(u32, u32)>
    ensures { result ≡ parts_in octets.now }
{
    if octets.len() != 8 {
        return None;
    }
    let seconds = seconds_since_1970(BigEndian::read_u32(octets));
    let fraction = BigEndian::read_u32(&octets[4..]);
    Some((seconds, fraction))
}

// What lies before 1970 is of NTP's next era.
fn seconds_since_1970(seconds: u32) -> u32
    ensures { result ≡ since_1970 seconds }
{
    seconds.wrapping_sub(SECONDS_TO_1970)
}
