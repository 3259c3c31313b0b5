//! Field specifiers (RFC 7011, section 3.2).

ghost use Rattle.std.specs.Prelude.{◌≡◌, ◌<◌, ◌≤◌, ◌++◌, ◌^◌, ℕ, List, Some, length, take, IfSome, OnOk, OnErr};
ghost use Rattle.ipfix_wire.specs.FieldSpecifier.{SpellsSpec, spec_at, spec_octets};
ghost use Rattle.ipfix_wire.specs.declared.specifier.Spec.{Spec};

use crate::numbers::{u16_at, u32_at};
use byteorder::{BigEndian, ByteOrder};
use std::alloc::AllocError;

const ENTERPRISE_BIT: u16 = 0x8000;

/// The width of a field that says its own length (RFC 7011, section 7).
pub const VARIABLE_WIDTH: u16 = 65535;

/// An information element.
#[derive(Clone, Copy, Debug, PartialEq, Eq)]
pub struct ElementId {
    /// The private enterprise number, 0 for the elements of IANA's registry.
    pub pen: u32,
    /// The number of the element there, at most 32767.
    pub number: u16,
}

impl ElementId {
    /// An element of IANA's registry.
    pub fn iana(number: u16) -> ElementId
        ensures { result ≡ record { pen = 0; number = number } }
    {
        ElementId { pen: 0, number }
    }
}

/// A field specifier: an element and the width of its fields.
#[derive(Clone, Copy, Debug, PartialEq, Eq)]
pub struct Spec {
    pub element: ElementId,
    /// Octets of a field, or [`VARIABLE_WIDTH`].
    pub width: u16,
}

/// Reads the field specifier that `rest` begins with, and says how many octets it takes. `None` is
/// a specifier that is cut. An enterprise bit with enterprise number 0 is read as no bit.
pub fn read_spec(rest: &[u8]) -> Option<(Spec, usize)>
    // What is read is spelled so.
    ensures found { IfSome result (λ r. (r.1 ≤ length rest.now)
        × SpellsSpec r.0 (take r.1 rest.now)) }
    // What is spelled so is read, whatever follows.
    ensures only { (s : Spec) (w more : List ℕ) → SpellsSpec s w → rest.now ≡ w ++ more
        → result ≡ Some (s, length w) }
    ensures exact { result ≡ spec_at rest.now }
{
    if rest.len() < 4 {
        return None;
    }
    let first = u16_at(rest, 0);
    let width = u16_at(rest, 2);
    if first < ENTERPRISE_BIT {
        let element = ElementId::iana(first);
        return Some((Spec { element, width }, 4));
    }
    if rest.len() < 8 {
        return None;
    }
    let element = ElementId {
        pen: u32_at(rest, 4),
        number: first - ENTERPRISE_BIT,
    };
    Some((Spec { element, width }, 8))
}

/// Appends a field specifier, with the enterprise bit only where the enterprise number is not 0. An
/// `Err` changes nothing.
pub fn write_spec(spec: &Spec, out: &mut Vec<u8>) -> Result<(), AllocError>
    requires { spec.now.element.number < 2 ^ 15 }
    ensures ok { OnOk result (out.new.items ≡ out.old.items ++ spec_octets spec.now) }
    ensures spelled { SpellsSpec spec.now (spec_octets spec.now) }
    // It is read again, whatever follows.
    ensures again { (more : List ℕ) → spec_at (spec_octets spec.now ++ more)
        ≡ Some (spec.now, length (spec_octets spec.now)) }
    ensures err { OnErr result (out.new.items ≡ out.old.items) }
{
    let Spec { element, width } = *spec;
    if element.pen == 0 {
        let mut octets = [0; 4];
        BigEndian::write_u16(&mut octets, element.number);
        BigEndian::write_u16(&mut octets[2..], width);
        return out.extend_from_slice(&octets);
    }
    let mut octets = [0; 8];
    BigEndian::write_u16(&mut octets, ENTERPRISE_BIT + element.number);
    BigEndian::write_u16(&mut octets[2..], width);
    BigEndian::write_u32(&mut octets[4..], element.pen);
    out.extend_from_slice(&octets)
}
