//! Set headers (RFC 7011, section 3.3.2).

ghost use Rattle.std.specs.Prelude.{◌≡◌, ◌+◌, ◌<◌, ◌≤◌, ◌↔◌, ◌++◌, ◌^◌, ℕ, List, Ok, length, IfOk, IsErrOf, OnOk, OnErr};
ghost use Rattle.ipfix_wire.specs.SetHeader.{set_octets, set_at, BeginsWithSet, HasWrongSetLength};

use crate::fault::WireFault;
use crate::numbers::u16_at;
use byteorder::{BigEndian, ByteOrder};
use std::alloc::AllocError;

/// Octets of a set header.
pub const SET_HEADER_LENGTH: usize = 4;

/// The id of a template set.
pub const TEMPLATE_SET_ID: u16 = 2;

/// The id of an options template set.
pub const OPTIONS_TEMPLATE_SET_ID: u16 = 3;

/// The least id of a template, and of a data set (RFC 7011, section 3.4.1).
pub const FIRST_TEMPLATE_ID: u16 = 256;

/// A set: its id, and how many octets its body has.
#[derive(Clone, Copy, Debug, PartialEq, Eq)]
pub struct SetSpan {
    /// [`TEMPLATE_SET_ID`], [`OPTIONS_TEMPLATE_SET_ID`], or from [`FIRST_TEMPLATE_ID`] on the id of
    /// the template of a data set; any other is skipped.
    pub id: u16,
    /// Octets after the header, padding included.
    pub body: usize,
}

/// Reads the header of the set that `rest`, what is left of a message, begins with. The whole set
/// stands in `rest`.
pub fn read_set(rest: &[u8]) -> Result<SetSpan, WireFault>
    requires { 0 < length rest.now }
    // What is read is spelled so, and its body stands there.
    ensures found { IfOk result (BeginsWithSet rest.now) }
    // What is spelled so, with its body, is read, whatever follows.
    ensures only { (id body : ℕ) (more : List ℕ) → id < 2 ^ 16 → SET_HEADER_LENGTH + body < 2 ^ 16
        → body ≤ length more → rest.now ≡ set_octets id body ++ more
        → result ≡ Ok (record { id = id; body = body }) }
    ensures exact { result ≡ set_at rest.now }
    ensures set_header { IsErrOf result WireFault.SetHeader
        ↔ (length rest.now < SET_HEADER_LENGTH) }
    ensures set_length { IsErrOf result WireFault.SetLength ↔ HasWrongSetLength rest.now }
{
    if rest.len() < SET_HEADER_LENGTH {
        return Err(WireFault::SetHeader);
    }
    let length = usize::from(u16_at(rest, 2));
    if length < SET_HEADER_LENGTH || rest.len() < length {
        return Err(WireFault::SetLength);
    }
    Ok(SetSpan {
        id: u16_at(rest, 0),
        body: length - SET_HEADER_LENGTH,
    })
}

/// Appends the header of a set whose body has that many octets. An `Err` changes nothing.
pub fn write_set(id: u16, body: u16, out: &mut Vec<u8>) -> Result<(), AllocError>
    requires { SET_HEADER_LENGTH + body < 2 ^ 16 }
    ensures ok { OnOk result (out.new.items ≡ out.old.items ++ set_octets id body) }
    // It is read again where its body follows.
    ensures again { (more : List ℕ) → body ≤ length more
        → set_at (set_octets id body ++ more) ≡ Ok (record { id = id; body = body }) }
    ensures err { OnErr result (out.new.items ≡ out.old.items) }
{
    let mut octets = [0; SET_HEADER_LENGTH];
    BigEndian::write_u16(&mut octets, id);
    BigEndian::write_u16(&mut octets[2..], SET_HEADER_LENGTH as u16 + body);
    out.extend_from_slice(&octets)
}
