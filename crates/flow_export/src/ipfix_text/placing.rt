//! Numbers that are written at a place in room, which no one has to test for.

ghost use Rattle.std.specs.Prelude.{◌+◌, ◌≤◌, length};
ghost use Rattle.byteorder.specs.Endian.{big_bytes};
ghost use Rattle.ipfix_elements.specs.Placed.{Placed};
ghost use Rattle.flow_export.specs.IpfixText.{number_octets};

use ipfix_elements::place;

/// Writes a number in 64 bits at a place, and answers where it ends.
pub fn place_number(number: u64, octets: &mut [u8], at: usize) -> usize
    requires { at + 8 ≤ length octets.old }
    ensures { Placed octets.old octets.new at (number_octets number) result }
{
    place(&number.to_be_bytes(), octets, at)
}

/// Writes the lowest octets of a number at a place, the highest of them first, and answers where they
/// end.
pub fn place_lowest(number: u64, width: usize, octets: &mut [u8], at: usize) -> usize
    requires narrow { width ≤ 8 }
    requires room { at + width ≤ length octets.old }
    ensures { Placed octets.old octets.new at (big_bytes width number) result }
{
    let all = number.to_be_bytes();
    place(&all[8 - width..], octets, at)
}
