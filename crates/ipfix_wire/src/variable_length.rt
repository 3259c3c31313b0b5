//! The length that a variable-length field begins with (RFC 7011, section 7).

ghost use Rattle.std.specs.Prelude.{◌≡◌, ◌≤◌, ◌++◌, ℕ, List, Some, length, take, IfSome, OnOk, OnErr, length as list_length};
ghost use Rattle.ipfix_wire.specs.VariableLength.{SpellsLength, length_at, length_octets};

use byteorder::{BigEndian, ByteOrder};
use std::alloc::AllocError;

/// Reads the length that a variable-length field begins with, and says how many octets that takes,
/// which the length doesn't count. `None` is a length that is cut. The long form may have any
/// length.
pub fn read_length(rest: &[u8]) -> Option<(usize, usize)>
    // What is read is spelled so.
    ensures found { IfSome result (λ r. (r.1 ≤ length rest.now)
        × SpellsLength r.0 (take r.1 rest.now)) }
    // What is spelled so is read, whatever follows.
    ensures only { (n : ℕ) (w more : List ℕ) → SpellsLength n w → rest.now ≡ w ++ more
        → result ≡ Some (n, length w) }
    ensures exact { result ≡ length_at rest.now }
{
    match rest {
        [] => None,
        [255, long @ ..] => {
            if long.len() < 2 {
                return None;
            }
            Some((usize::from(BigEndian::read_u16(long)), 3))
        }
        [short, ..] => Some((usize::from(*short), 1)),
    }
}

/// Appends the length of a variable-length field in its shortest form. An `Err` changes nothing.
pub fn write_length(length: u16, out: &mut Vec<u8>) -> Result<(), AllocError>
    ensures ok { OnOk result (out.new.items ≡ out.old.items ++ length_octets length) }
    ensures spelled { SpellsLength length (length_octets length) }
    // It is read again, whatever follows.
    ensures again { (more : List ℕ) → length_at (length_octets length ++ more)
        ≡ Some (length, list_length (length_octets length)) }
    ensures err { OnErr result (out.new.items ≡ out.old.items) }
{
    if length < 255 {
        out.extend_from_slice(&[length as u8])
    } else {
        let mut octets = [255; 3];
        BigEndian::write_u16(&mut octets[1..], length);
        out.extend_from_slice(&octets)
    }
}
