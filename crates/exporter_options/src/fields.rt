//! Numbers in the fields of options records.

ghost use Rattle.std.specs.Prelude.{◌≡◌};
ghost use Rattle.ipfix_elements.specs.Values.{number_in};
ghost use Rattle.ipfix_elements.specs.declared.kind.Kind.TheVariants.{Unsigned};
ghost use Rattle.ipfix_elements.specs.declared.kind.Width.TheVariants.{Four};
ghost use Rattle.exporter_options.specs.Rates.{number_as, number_of};

use ipfix_elements::{Kind, Width, read_number};
use ipfix_message::Fields;
use ipfix_wire::ElementId;

/// The unsigned number that up to 4 octets are.
pub fn read_unsigned(octets: &[u8]) -> Option<u32>
    ensures { result ≡ number_in (Unsigned Four) octets.now }
{
    let number = read_number(Kind::Unsigned(Width::Four), octets)?;
    Some(number as u32)
}

/// The number in the first field of an element of IANA's, which is unsigned and has up to 4 octets.
pub fn number(fields: &Fields, element: u16) -> Option<u32>
    ensures { result ≡ number_of element fields.now }
{
    read_unsigned(fields.find(ElementId::iana(element))?)
}

/// The number in the first field of an element of IANA's, of a kind.
pub fn number_as_kind(fields: &Fields, kind: Kind, element: u16) -> Option<u64>
    ensures { result ≡ number_as kind element fields.now }
{
    read_number(kind, fields.find(ElementId::iana(element))?)
}
