//! What a text of a condition says of values.

ghost use Rattle.std.specs.Prelude.{◌≡◌};
ghost use Rattle.flow_filter.specs.Conditions as conditions;
ghost use Rattle.flow_filter.specs.declared.value.Value.TheVariants.{Number};
ghost use Rattle.flow_filter.specs.Texts.{IsIpv4Network, IsNetwork, IsText, Reads};

use crate::numbers::numbers_in;
use crate::value::Value;
use ipfix_elements::Kind;
use network_prefixes::{AddressBits, Prefix};

/// The values that a text of a condition says.
#[derive(Clone, Copy, Debug, PartialEq, Eq)]
pub enum ValueRange {
    /// The numbers from the first to the last, both of them among these.
    Numbers { first: u64, last: u64 },
    /// The addresses of a network, or one address.
    Network(Prefix),
}

impl ValueRange {
    /// What a text says at an element of a kind: `80` or `1024-65535` at a number; an address or a network
    /// as `192.0.2.0/24` at an IPv4 address, and of both families at an IPv6 address, which may be a mapped
    /// one. `None` for every other text, as for a network with bits after its prefix.
    pub fn read(kind: Kind, text: &str) -> Option<ValueRange>
        ensures { Reads (IsText kind text.now) result }
    {
        match kind {
            Kind::Unsigned(_) => numbers_in(text),
            Kind::Ipv4 => ipv4_network_in(text),
            Kind::Ipv6 => network_in(text),
            Kind::Mac | Kind::Seconds | Kind::Millis | Kind::Octets => None,
        }
    }

    /// Whether a value is among them.
    pub fn has(&self, value: Value) -> bool
        ensures { result ≡ conditions.has self.now value }
    {
        match (self, value) {
            (range, Value::Number(number)) => range.has_number(number),
            (ValueRange::Network(prefix), Value::Address(address)) => covers(prefix, address),
            _ => false,
        }
    }

    /// Whether a number is among them.
    pub(crate) fn has_number(&self, number: u64) -> bool
        ensures { result ≡ conditions.has self.now (Number number) }
    {
        match self {
            ValueRange::Numbers { first, last } => *first <= number && number <= *last,
            ValueRange::Network(_) => false,
        }
    }
}

// Whether a network has an address: it is of the network's family, and begins with its first bits.
fn covers(network: &Prefix, address: AddressBits) -> bool
    ensures { result ≡ conditions.covers network.now address }
{
    address.width == network.address.width
        && address.first(network.length) == network.address.first(network.length)
}

// The network that a text spells.
fn network_in(text: &str) -> Option<ValueRange>
    ensures { Reads (IsNetwork text.now) result }
{
    match Prefix::parse(text) {
        Ok(prefix) => Some(ValueRange::Network(prefix)),
        Err(_) => None,
    }
}

// The network of IPv4 that a text spells.
fn ipv4_network_in(text: &str) -> Option<ValueRange>
    ensures { Reads (IsIpv4Network text.now) result }
{
    match Prefix::parse(text) {
        Ok(prefix) if prefix.address.width == 32 => Some(ValueRange::Network(prefix)),
        _ => None,
    }
}
