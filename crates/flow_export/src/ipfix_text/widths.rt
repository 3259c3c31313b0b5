//! The widths of fields.

ghost use Rattle.std.specs.Prelude.{◌≡◌};
ghost use Rattle.flow_export.specs.IpfixText.{width_of as width_in};

use ipfix_elements::{Kind, Width};
use ipfix_wire::VARIABLE_WIDTH;

/// The octets of a time in milliseconds, a sum or a number of flows.
pub const NUMBER_WIDTH: u16 = 8;

/// The octets of a kind's values, none left out (RFC 7011, sections 6.1 and 6.2).
pub fn width_of(kind: Kind) -> u16
    ensures { result ≡ width_in kind }
{
    match kind {
        Kind::Unsigned(Width::One) => 1,
        Kind::Unsigned(Width::Two) => 2,
        Kind::Unsigned(Width::Four) | Kind::Ipv4 | Kind::Seconds => 4,
        Kind::Unsigned(Width::Eight) | Kind::Millis => 8,
        Kind::Ipv6 => 16,
        Kind::Mac => 6,
        Kind::Octets => VARIABLE_WIDTH,
    }
}
