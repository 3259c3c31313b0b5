//! The keys that flows are aggregated by.

ghost use Rattle.std.specs.Prelude.{◌≡◌};
ghost use Rattle.flow_table.specs.Plans.{element_in, exported_element, prefix_number as number_of_prefix};

use crate::context::{EXPORTER, EXPORTER_IPV6_ADDRESS};
use ipfix_elements::iana;
use ipfix_wire::ElementId;

/// Number of sourceIPv6Address.
pub(crate) const SOURCE_IPV6_ADDRESS: u16 = 27;

/// Number of destinationIPv6Address.
pub(crate) const DESTINATION_IPV6_ADDRESS: u16 = 28;

/// Number of destinationIPv6Prefix.
const DESTINATION_IPV6_PREFIX: u16 = 169;

/// Number of sourceIPv6Prefix.
const SOURCE_IPV6_PREFIX: u16 = 170;

/// A flow key: an element, and how much of its value is looked at (RFC 7015, section 5.2).
#[derive(Clone, Copy, Debug, PartialEq, Eq)]
pub struct Key {
    /// The element that the key is read from.
    pub element: ElementId,
    /// For an address of a flow's ends the number of its first bits that count, 0 to 32 of IPv4 and 0 to
    /// 128 of IPv6. `None` for the whole value.
    pub prefix: Option<u8>,
}

/// Which elements may be keys of a plan.
#[derive(Clone, Copy, Debug, PartialEq, Eq)]
pub(crate) enum KeyElements {
    /// Those of the fields that a record's exporter sent.
    OfRecords,
    /// Elements of context, too.
    WithContext,
}

/// Where an element stands: in the records that are read, or in those that are exported.
#[derive(Clone, Copy, Debug, PartialEq, Eq)]
pub(crate) enum Side {
    Read,
    Exported,
}

impl Key {
    /// The element that the key is exported as: for a prefix of an address sourceIPv4Prefix,
    /// destinationIPv4Prefix, sourceIPv6Prefix or destinationIPv6Prefix, and for [`EXPORTER`], which no template can
    /// name, exporterIPv6Address.
    pub fn exported_element(&self) -> ElementId
        ensures { result ≡ exported_element self.now }
    {
        match self.prefix {
            None if self.element == EXPORTER => EXPORTER_IPV6_ADDRESS,
            None => self.element,
            Some(_) => ElementId::iana(prefix_number(self.element.number)),
        }
    }

    /// The element of the key on that side.
    pub(crate) fn element_in(&self, side: Side) -> ElementId
        ensures { result ≡ element_in side self.now }
    {
        match side {
            Side::Read => self.element,
            Side::Exported => self.exported_element(),
        }
    }
}

// The number of the element of an address's prefix, by that of the address.
fn prefix_number(address: u16) -> u16
    ensures { result ≡ number_of_prefix address }
{
    match address {
        iana::SOURCE_IPV4_ADDRESS => iana::SOURCE_IPV4_PREFIX,
        iana::DESTINATION_IPV4_ADDRESS => iana::DESTINATION_IPV4_PREFIX,
        SOURCE_IPV6_ADDRESS => SOURCE_IPV6_PREFIX,
        _ => DESTINATION_IPV6_PREFIX,
    }
}
