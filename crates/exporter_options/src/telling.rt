//! What one options record tells (RFC 7011, section 3.4.2).

ghost use Rattle.std.specs.Prelude.{◌≡◌, take};
ghost use Rattle.exporter_options.specs.Rates.{number_of};
ghost use Rattle.exporter_options.specs.Telling as telling;

use crate::fields::{number_as_kind, read_unsigned};
use crate::sampling::{Sampling, sampling_in, selector_in};
use ipfix_elements::Kind;
use ipfix_message::{DataRecord, Fields};
use ipfix_wire::ElementId;

/// What an options record tells.
#[derive(Clone, Copy, Debug, PartialEq, Eq)]
pub struct Told {
    /// The observation domain that it speaks of.
    pub domain: u32,
    /// When the exporter was started, in milliseconds since 1970-01-01 UTC.
    pub init_time: Option<u64>,
    /// At which rate packets are sampled.
    pub sampling: Option<Sampling>,
    /// By which selector.
    pub selector: Option<u64>,
}

// The domain that is among so many first fields.
fn scope_domain(fields: &Fields, scope: u16) -> Option<u32>
    ensures { result ≡ number_of 149 (take scope fields.now) }
{
    let mut left = scope;
    for field in fields.iter() {
        if left == 0 {
            return None;
        }
        if field.element == ElementId::iana(149) {
            return read_unsigned(field.octets);
        }
        left -= 1;
    }
    None
}

// The domain of an options record: that of its scope, or else that of its message.
fn domain_of(item: &DataRecord) -> u32
    ensures { result ≡ telling.domain_of item.now }
{
    scope_domain(&item.fields, item.scope).unwrap_or(item.domain)
}

/// What a record tells; `None` of one that is no options record.
pub fn told_by(item: &DataRecord) -> Option<Told>
    ensures { result ≡ telling.told_by item.now }
{
    if item.scope == 0 {
        return None;
    }
    Some(Told {
        domain: domain_of(item),
        init_time: number_as_kind(&item.fields, Kind::Millis, 160),
        sampling: sampling_in(&item.fields),
        selector: selector_in(&item.fields),
    })
}
