//! A plan, and which records it counts.

ghost use Rattle.std.specs.Prelude.{◌≡◌};
ghost use Rattle.std.specs.Option.{option_map};
ghost use Rattle.flow_plan.specs.Places.{IsPlanOf};
ghost use Rattle.flow_plan_fields.specs.FilteredPlans as filtered;

use crate::sampling::SamplingUse;
use flow_filter::Filter;
use flow_table::{
    Context, EXPORTER, EXPORTER_IPV4_ADDRESS, EXPORTER_IPV6_ADDRESS, OBSERVATION_DOMAIN_ID, Plan,
};
use ipfix_wire::ElementId;

/// A plan, and which records it counts.
#[derive(Debug, Drop)]
pub struct FilteredPlan {
    pub plan: Plan,
    /// Which records count: without conditions all.
    pub filter: Filter,
    /// What becomes of the rates at which exporters select packets.
    pub sampling: SamplingUse,
}

impl FilteredPlan {
    /// Which elements of context the keys of the plan and the conditions of its filter name.
    pub fn context(&self) -> Context
        ensures { result ≡ filtered.context_of self.now }
    {
        let keys = self.plan.context();
        Context {
            exporter: keys.exporter || names(&self.filter, EXPORTER),
            exporter_ipv4_address: keys.exporter_ipv4_address
                || names(&self.filter, EXPORTER_IPV4_ADDRESS),
            exporter_ipv6_address: keys.exporter_ipv6_address
                || names(&self.filter, EXPORTER_IPV6_ADDRESS),
            observation_domain_id: keys.observation_domain_id
                || names(&self.filter, OBSERVATION_DOMAIN_ID),
        }
    }

    /// The filter, if it has a condition.
    pub fn conditions(&self) -> Option<&Filter>
        ensures { option_map (λ f. f.now) result ≡ filtered.filter_of self.now }
    {
        if self.filter.conditions.is_empty() {
            None
        } else {
            Some(&self.filter)
        }
    }
}

// Whether a condition of a filter is of this element.
fn names(filter: &Filter, element: ElementId) -> bool
    ensures { result ≡ filtered.names filter.now element }
{
    filter
        .conditions
        .iter()
        .any(|condition| condition.element == element)
}
