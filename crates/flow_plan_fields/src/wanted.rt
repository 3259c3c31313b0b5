//! What a plan wants to be known beside its records.

ghost use Rattle.std.specs.Prelude.{◌≡◌};
ghost use Rattle.flow_plan_fields.specs.Wants as wants;

use crate::filtered_plan::FilteredPlan;
use crate::named::PlanMaps;
use crate::sampling::SamplingUse;
use exporter_options::Wanted;
use flow_maps::AddressElement;
use flow_table::{Context, EXPORTER, EXPORTER_IPV4_ADDRESS, EXPORTER_IPV6_ADDRESS, Times};
use ipfix_wire::ElementId;

/// Which elements of context a plan wants: those that its keys and its conditions name, and those that the keys of its
/// maps look up.
pub fn wanted_context(read: &FilteredPlan, maps: &PlanMaps) -> Context
    ensures { result ≡ wants.wanted_context read.now maps.now }
{
    let named = read.context();
    Context {
        exporter: named.exporter || looks_up(maps, EXPORTER),
        exporter_ipv4_address: named.exporter_ipv4_address || looks_up(maps, EXPORTER_IPV4_ADDRESS),
        exporter_ipv6_address: named.exporter_ipv6_address || looks_up(maps, EXPORTER_IPV6_ADDRESS),
        observation_domain_id: named.observation_domain_id,
    }
}

/// What a plan wants of what options records tell: if it reads times of every kind, when the exporter was started; and
/// unless it ignores sampling at which rates packets are selected.
pub fn wanted_options(read: &FilteredPlan) -> Wanted
    ensures { result ≡ wants.wanted_options read.now }
{
    Wanted {
        init_time: read.plan.choices().times == Times::All,
        sampling: read.sampling != SamplingUse::Ignore,
    }
}

/// Whether a plan refuses sampled records.
pub fn refuses_sampled(read: &FilteredPlan) -> bool
    ensures { result ≡ wants.refuses_sampled read.now }
{
    read.sampling == SamplingUse::Refuse
}

// Whether a key of maps looks this element up.
fn looks_up(maps: &PlanMaps, element: ElementId) -> bool
    ensures { result ≡ wants.looks_up maps.now element }
{
    maps.keys
        .iter()
        .any(|key| is_among(element, &key.key.addresses))
}

fn is_among(element: ElementId, addresses: &[AddressElement]) -> bool
    ensures { result ≡ wants.is_among element addresses.now }
{
    addresses.iter().any(|address| address.element == element)
}
