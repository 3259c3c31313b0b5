//! IPv4 addresses as text, appended.

ghost use Rattle.std.specs.Prelude.{◌≡◌, ◌++◌, OnOk};
ghost use Rattle.ipfix_elements.specs.Texts.{ipv4_text};

use ipfix_elements::{MOST_ADDRESS_OCTETS, place_ipv4};
use std::alloc::AllocError;

/// Appends four decimal numbers joined by dots.
pub fn append_ipv4(address: &[u8; 4], out: &mut Vec<u8>) -> Result<(), AllocError>
    ensures { OnOk result (out.new.items ≡ out.old.items ++ ipv4_text address.now) }
{
    let start = out.len();
    out.extend_from_slice(&[0; MOST_ADDRESS_OCTETS])?;
    let end = place_ipv4(address, out.as_mut_slice(), start);
    out.truncate(end);
    Ok(())
}
