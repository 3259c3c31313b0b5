use element_registry::Elements;
use flow_plan::{PlanTextError, PlanTextFault, read_plan, read_plan_with};
use flow_table::{
    EXPORTER, EXPORTER_IPV4_ADDRESS, EXPORTER_IPV6_ADDRESS, Key, Method, OBSERVATION_DOMAIN_ID,
    Plan, PlanFault,
};
use ipfix_wire::ElementId;
use std::alloc::{AllocError, Global};
use std::test::*;

const BY_SOURCE: &str = "interval_ms = 60000
method = \"start\"
keys = [\"sourceIPv4Address\"]
counters = [\"octetDeltaCount\"]
";

pub const BY_NETWORK: &str = "# a comment
counters = ['packetDeltaCount', \"e0.1\"]
max_spread = 2
keys = [\"sourceIPv4Address/24\", \"protocolIdentifier\"]
method = \"proportional\"
interval_ms = 1_000
";

fn key(number: u16, prefix: Option<u8>) -> Key {
    Key {
        element: ElementId::iana(number),
        prefix,
    }
}

// The plan that `BY_SOURCE` says.
fn by_source(alloc: Global) -> Result<Plan, PlanFault> {
    let keys = [key(8, None)];
    let counters = [ElementId::iana(1)];
    Plan::new(alloc, 60_000, Method::Start, &keys, &counters, 4096)
}

/// The plan that [`BY_NETWORK`] says.
pub fn by_network(alloc: Global) -> Result<Plan, PlanFault> {
    let keys = [key(8, Some(24)), key(4, None)];
    let counters = [ElementId::iana(2), ElementId::iana(1)];
    Plan::new(alloc, 1000, Method::Proportional, &keys, &counters, 2)
}

#[test]
fn reads_plans(rt: HostRuntime) -> Result<(), Fail> {
    let plan = read_plan(rt.alloc(), BY_SOURCE)?;
    assert!(rt; plan == by_source(rt.alloc())?);
    let plan = read_plan(rt.alloc(), BY_NETWORK)?;
    assert!(rt; plan == by_network(rt.alloc())?);
    assert_eq!(rt; PlanTextFault::NotToml.number(), 1);
    Ok(())
}

// The line of a fault, or 0, and what it is about.
fn place(error: &PlanTextError) -> (usize, &str) {
    match error {
        PlanTextError::NotUtf8 { line } => (*line, "not UTF-8"),
        PlanTextError::NotToml { line, .. } => (*line, "not TOML"),
        PlanTextError::UnknownField { key } => (0, key.as_str()),
        PlanTextError::Missing { key } | PlanTextError::WrongKind { key } => (0, key.name()),
        PlanTextError::UnknownElement { text, .. } => (0, text.as_str()),
        PlanTextError::Plan { fault, .. } => (0, fault.name()),
        PlanTextError::OutOfMemory => (0, "memory"),
    }
}

// The name of the fault of octets, and its place.
fn fault_of(alloc: Global, octets: &[u8]) -> Result<String, AllocError> {
    match read_plan_with(alloc, &Elements::built_in(alloc), octets) {
        Ok(_) => String::from_str(alloc, "none"),
        Err(error) => {
            let (line, words) = place(&error);
            format!(in alloc; "{}: {line} {words}", error.fault().name())
        }
    }
}

#[test]
fn refuses_documents(rt: HostRuntime) -> Result<(), Fail> {
    for (octets, want) in [
        (BY_SOURCE.as_bytes(), "none"),
        (b"method = \"\xff\"".as_slice(), "NotToml: 1 not UTF-8"),
        (
            b"method = 1\n\n# \xc3\x28".as_slice(),
            "NotToml: 3 not UTF-8",
        ),
        (b"interval_ms =".as_slice(), "NotToml: 1 not TOML"),
        (
            b"method = 1\r\nkeys = 2 3\r\n".as_slice(),
            "NotToml: 2 not TOML",
        ),
        (
            b"method = 1\n\nmethod = 1\n".as_slice(),
            "NotToml: 3 not TOML",
        ),
        (
            b"colour = 1\nbreadth = 2\n".as_slice(),
            "UnknownField: 0 breadth",
        ),
        (b"".as_slice(), "Missing: 0 interval_ms"),
        (b"interval_ms = 0".as_slice(), "Missing: 0 method"),
        (b"interval_ms = -1".as_slice(), "WrongKind: 0 interval_ms"),
        (
            b"interval_ms = 4294967296".as_slice(),
            "WrongKind: 0 interval_ms",
        ),
        (b"interval_ms = 1.0".as_slice(), "WrongKind: 0 interval_ms"),
        (
            b"interval_ms = 1\nmethod = 1".as_slice(),
            "WrongKind: 0 method",
        ),
        (
            b"interval_ms = 1\nmethod = \"middle\"".as_slice(),
            "WrongKind: 0 method",
        ),
        (
            b"method = \"middle\"\nkeys = 1".as_slice(),
            "Missing: 0 interval_ms",
        ),
    ] {
        assert_eq!(rt; fault_of(rt.alloc(), octets)?.as_str(), want);
    }
    Ok(())
}

/// A plan with these keys and counters, and what else stands before them.
pub fn plan_with(
    alloc: Global,
    more: &str,
    keys: &str,
    counters: &str,
) -> Result<String, AllocError> {
    format!(in alloc;
        "interval_ms = 1\nmethod = \"mid\"\n{more}\nkeys = [{keys}]\ncounters = [{counters}]\n"
    )
}

// Its fault.
fn fault_with(alloc: Global, more: &str, keys: &str, counters: &str) -> Result<String, AllocError> {
    fault_of(alloc, plan_with(alloc, more, keys, counters)?.as_bytes())
}

#[test]
fn refuses_values(rt: HostRuntime) -> Result<(), Fail> {
    for (more, keys, counters, want) in [
        ("max_spread = -1", "1", "1", "WrongKind: 0 max_spread"),
        ("", "1", "1", "WrongKind: 0 keys"),
        ("", "'nobody'", "1", "WrongKind: 0 counters"),
        ("", "'vlanId', 'x/1', 'y'", "'z'", "UnknownElement: 0 x/1"),
        ("", "'vlanId'", "'z', 'y'", "UnknownElement: 0 z"),
        (
            "",
            "",
            "'octetDeltaCount/8'",
            "UnknownElement: 0 octetDeltaCount/8",
        ),
        ("", "", "", "Plan: 0 CounterCount"),
        ("max_spread = 0", "", "", "Plan: 0 Spread"),
        ("times = 'none'", "", "1", "WrongKind: 0 counters"),
        (
            "totals = 1\ntimes = 'none'",
            "",
            "'vlanId'",
            "WrongKind: 0 times",
        ),
        (
            "totals = 'deltas'\ntimes = 'all'",
            "",
            "'vlanId'",
            "WrongKind: 0 totals",
        ),
        ("totals = 'as-deltas'", "", "'e0.85'", "none"),
        ("totals = 'refused'", "", "'e0.85'", "Plan: 0 CounterKind"),
    ] {
        let fault = fault_with(rt.alloc(), more, keys, counters)?;
        assert_eq!(rt; fault.as_str(), want);
    }
    Ok(())
}

#[test]
fn reads_prefixes(rt: HostRuntime) -> Result<(), Fail> {
    for (key, want) in [
        ("'vlanId/024'", "UnknownElement: 0 vlanId/024"),
        ("'vlanId/+24'", "UnknownElement: 0 vlanId/+24"),
        ("'vlanId/256'", "UnknownElement: 0 vlanId/256"),
        ("'vlanId/'", "UnknownElement: 0 vlanId/"),
        ("'vlanId/2/4'", "UnknownElement: 0 vlanId/2/4"),
        ("'sourceIPv4Address/33'", "Plan: 0 Prefix"),
        ("'sourceTransportPort/8'", "Plan: 0 Prefix"),
        ("'e0.8/0'", "none"),
        ("'destinationIPv4Address/32'", "none"),
        ("'sourceIPv6Address/0', 'e0.28/128'", "none"),
    ] {
        let fault = fault_with(rt.alloc(), "", key, "'octetDeltaCount'")?;
        assert_eq!(rt; fault.as_str(), want);
    }
    Ok(())
}

// The elements of the keys of a plan.
fn keys_of(alloc: Global, keys: &str) -> Result<Vec<ElementId>, Fail> {
    let text = plan_with(alloc, "", keys, "'octetDeltaCount'")?;
    let plan = read_plan(alloc, text.as_str())?;
    let mut elements = Vec::new(alloc);
    for key in plan.keys() {
        elements.push(key.element)?;
    }
    Ok(elements)
}

#[test]
fn keys_may_name_what_is_known_beside_a_record(rt: HostRuntime) -> Result<(), Fail> {
    let names = "'exporter', 'exporterIPv4Address', 'observationDomainId'";
    let keys = keys_of(rt.alloc(), names)?;
    let want = [EXPORTER, EXPORTER_IPV4_ADDRESS, OBSERVATION_DOMAIN_ID];
    assert_eq!(rt; keys.as_slice(), want.as_slice());
    let keys = keys_of(rt.alloc(), "'exporterIPv6Address', 'e0.130'")?;
    let want = [EXPORTER_IPV6_ADDRESS, EXPORTER_IPV4_ADDRESS];
    assert_eq!(rt; keys.as_slice(), want.as_slice());
    for (keys, counters, want) in [
        ("'exporter/64'", "'e0.1'", "Plan: 0 Prefix"),
        ("'Exporter'", "'e0.1'", "UnknownElement: 0 Exporter"),
        ("'e0.32768'", "'e0.1'", "UnknownElement: 0 e0.32768"),
        (
            "'exporter', 'exporterIPv6Address'",
            "'e0.1'",
            "Plan: 0 Repeated",
        ),
        ("'exporter'", "'exporter'", "UnknownElement: 0 exporter"),
        ("", "'e0.149'", "Plan: 0 CounterKind"),
        (
            "",
            "'observationDomainId'",
            "UnknownElement: 0 observationDomainId",
        ),
    ] {
        let fault = fault_with(rt.alloc(), "", keys, counters)?;
        assert_eq!(rt; fault.as_str(), want);
    }
    Ok(())
}
