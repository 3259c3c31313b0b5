//! Elements of context: what is known of a record beside the fields that its exporter sent.

ghost use Rattle.std.specs.Prelude.{◌≡◌, Some};
ghost use Rattle.std.specs.Option.{option_map};
ghost use Rattle.flow_table.specs.Plans as plans;

use ipfix_elements::{Kind, Width};
use ipfix_wire::ElementId;

/// Number of the element of an exporter's address: no template can name it, since the numbers of elements
/// have 15 bits there (RFC 7011, section 3.2).
pub(crate) const EXPORTER_NUMBER: u16 = 1 << 15;

/// Number of exporterIPv4Address.
pub(crate) const EXPORTER_IPV4_NUMBER: u16 = 130;

/// Number of exporterIPv6Address.
pub(crate) const EXPORTER_IPV6_NUMBER: u16 = 131;

/// Number of observationDomainId.
pub(crate) const OBSERVATION_DOMAIN_NUMBER: u16 = 149;

/// The address that an exporter is known by, in 16 octets: an address of IPv6, or one of IPv4 mapped into it
/// (RFC 4291, section 2.5.5.2). No exporter can send this element, since no template can name it.
pub const EXPORTER: ElementId = ElementId {
    pen: 0,
    number: EXPORTER_NUMBER,
};

/// exporterIPv4Address, in 4 octets.
pub const EXPORTER_IPV4_ADDRESS: ElementId = ElementId {
    pen: 0,
    number: EXPORTER_IPV4_NUMBER,
};

/// exporterIPv6Address, in 16 octets.
pub const EXPORTER_IPV6_ADDRESS: ElementId = ElementId {
    pen: 0,
    number: EXPORTER_IPV6_NUMBER,
};

/// observationDomainId, in 4 octets (RFC 7011, section 3.1).
pub const OBSERVATION_DOMAIN_ID: ElementId = ElementId {
    pen: 0,
    number: OBSERVATION_DOMAIN_NUMBER,
};

/// Which elements of context the keys of a plan name.
#[derive(Clone, Copy, Debug, PartialEq, Eq)]
pub struct Context {
    /// [`EXPORTER`].
    pub exporter: bool,
    /// [`EXPORTER_IPV4_ADDRESS`].
    pub exporter_ipv4_address: bool,
    /// [`EXPORTER_IPV6_ADDRESS`].
    pub exporter_ipv6_address: bool,
    /// [`OBSERVATION_DOMAIN_ID`].
    pub observation_domain_id: bool,
}

/// The kind of an element of context, and none of any other element.
pub fn context_kind(element: ElementId) -> Option<Kind>
    ensures { result ≡ plans.context_kind element }
{
    if element == EXPORTER {
        Some(Kind::Ipv6)
    } else if element == EXPORTER_IPV4_ADDRESS {
        Some(Kind::Ipv4)
    } else if element == EXPORTER_IPV6_ADDRESS {
        Some(Kind::Ipv6)
    } else if element == OBSERVATION_DOMAIN_ID {
        Some(Kind::Unsigned(Width::Four))
    } else {
        None
    }
}

/// The name of an element of context in plans and headings, whatever files of elements say, and none of any
/// other element.
pub fn context_name(element: ElementId) -> Option<&'static str>
    ensures { option_map (λ name. name.now) result ≡ plans.context_name element }
{
    if element == EXPORTER {
        Some("exporter")
    } else if element == EXPORTER_IPV4_ADDRESS {
        Some("exporterIPv4Address")
    } else if element == EXPORTER_IPV6_ADDRESS {
        Some("exporterIPv6Address")
    } else if element == OBSERVATION_DOMAIN_ID {
        Some("observationDomainId")
    } else {
        None
    }
}

/// The element of context that has a name, if there is one.
pub fn context_named(name: &str) -> Option<ElementId>
    ensures { result ≡ plans.context_named name.now }
{
    match name {
        "exporter" => Some(EXPORTER),
        "exporterIPv4Address" => Some(EXPORTER_IPV4_ADDRESS),
        "exporterIPv6Address" => Some(EXPORTER_IPV6_ADDRESS),
        "observationDomainId" => Some(OBSERVATION_DOMAIN_ID),
        _ => None,
    }
}
