//! Plans, as the tests make them.

use element_registry::Elements;
use flow_table::{Choices, EXPORTER, Key, Method, Plan, PlanFault};
use ipfix_wire::ElementId;
use std::alloc::Global;

/// A plan with intervals of a minute, by source address or a prefix of it.
pub fn by_source(alloc: Global, prefix: Option<u8>) -> Result<Plan, PlanFault> {
    let source = Key {
        element: ElementId::iana(8),
        prefix,
    };
    Plan::new(
        alloc,
        60_000,
        Method::Start,
        &[source],
        &[ElementId::iana(1)],
        4096,
    )
}

/// A plan with intervals of a minute, by the addresses of exporters.
pub fn by_exporter(alloc: Global) -> Result<Plan, PlanFault> {
    let exporter = Key {
        element: EXPORTER,
        prefix: None,
    };
    Plan::with_elements(
        alloc,
        &Elements::built_in(alloc),
        60_000,
        Method::Start,
        &[exporter],
        &[ElementId::iana(1)],
        4096,
        Choices::BASIC,
    )
}
