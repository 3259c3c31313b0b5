//! IPv4 addresses as text. How many digits an octet has can't be foretold, so no branch depends on it.

ghost use Rattle.std.specs.Prelude.{◌+◌, ◌≤◌, decimal, length};
ghost use Rattle.ipfix_elements.specs.Texts.{ipv4_text};
ghost use Rattle.ipfix_elements.specs.Placed.{Placed};
ghost use Rattle.ipfix_elements.specs.declared.placing.ipv4.TheConstants.{MOST_ADDRESS_OCTETS};

/// The most octets that the text of an address has.
pub const MOST_ADDRESS_OCTETS: usize = 15;

/// Puts four decimal numbers joined by dots to a place, and answers where they end.
#[inline(always)]
pub fn place_ipv4(address: &[u8; 4], room: &mut [u8], at: usize) -> usize
    requires { at + MOST_ADDRESS_OCTETS ≤ length room.old }
    ensures { Placed room.old room.new at (ipv4_text address.now) result }
{
    let end = place_octet(address[0], room, at);
    room[end] = b'.';
    let end = place_octet(address[1], room, end + 1);
    room[end] = b'.';
    let end = place_octet(address[2], room, end + 1);
    room[end] = b'.';
    place_octet(address[3], room, end + 1)
}

// Puts the number of an octet in decimal to a place, and answers where it ends. A zero before it is written over
// by the digit that follows.
#[inline(always)]
fn place_octet(number: u8, room: &mut [u8], at: usize) -> usize
    requires { at + 3 ≤ length room.old }
    ensures placed { Placed room.old room.new at (decimal number) result }
    ensures short { result ≤ at + 3 }
{
    room[at] = b'0' + number / 100;
    let tens = at + usize::from(number >= 100);
    room[tens] = b'0' + number / 10 % 10;
    let ones = tens + usize::from(number >= 10);
    room[ones] = b'0' + number % 10;
    ones + 1
}
