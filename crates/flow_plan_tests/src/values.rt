//! What makes no plan of values: a value, a number of elements, or a text.

use crate::tests::plan_with;
use element_registry::Elements;
use flow_plan::{PlanPlace, PlanTextError, read_plan_with};
use std::alloc::{AllocError, Global};
use std::test::*;

// What makes no plan of a text's values, in words.
fn place(alloc: Global, text: &str) -> Result<String, AllocError> {
    match read_plan_with(alloc, &Elements::built_in(alloc), text.as_bytes()) {
        Err(PlanTextError::Plan { place, .. }) => match &place {
            PlanPlace::Value { key } => String::from_str(alloc, key.name()),
            PlanPlace::Count { key, count } => format!(in alloc; "{count} {}", key.name()),
            PlanPlace::Text { key, text } => format!(in alloc; "{text} of {}", key.name()),
        },
        _ => String::from_str(alloc, "another fault, or none"),
    }
}

#[test]
fn tells_what_makes_no_plan(rt: HostRuntime) -> Result<(), Fail> {
    let octets = "'octetDeltaCount'";
    for (more, keys, counters, want) in [
        ("max_spread = 4097", "", "", "max_spread"),
        ("", "", "", "0 counters"),
        (
            "",
            "'e0.8/33', 'e0.32', 'flowEndSeconds'",
            octets,
            "e0.32 of keys",
        ),
        (
            "",
            "'vlanId', 'sourceIPv6Address/129', 'vlanId/1'",
            octets,
            "sourceIPv6Address/129 of keys",
        ),
        ("", "", "'e0.1', 'vlanId', 'e0.8'", "vlanId of counters"),
        ("", "'vlanId', 'e0.8', 'e0.58'", octets, "e0.58 of keys"),
        (
            "",
            "'sourceIPv4Prefix', 'sourceIPv4Address/8'",
            octets,
            "sourceIPv4Address/8 of keys",
        ),
        ("", "'e0.2', 'e0.1'", octets, "octetDeltaCount of counters"),
    ] {
        let text = plan_with(rt.alloc(), more, keys, counters)?;
        assert_eq!(rt; place(rt.alloc(), text.as_str())?.as_str(), want);
    }
    Ok(())
}
