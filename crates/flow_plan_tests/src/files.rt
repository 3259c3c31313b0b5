//! Plans whose texts name elements of a file.

use crate::tests::plan_with;
use element_registry::{Elements, ElementsFault, add_file};
use flow_plan::{PlanPlace, PlanTextError, PlanTextFault, read_plan, read_plan_with};
use flow_table::{Choices, Key, Method, Plan};
use ipfix_wire::ElementId;
use std::alloc::{AllocError, Global};
use std::test::*;

const FILE: &str = "Enterprise,ElementID,Name,Abstract Data Type,Data Type Semantics
32473,1,siteNumber,unsigned32,identifier
32473,2,isGuest,boolean,
32473,3,siteName,string,
32473,4,retriedOctets,unsigned64,deltaCounter
32473,5,retriedOctetsTotal,unsigned64,totalCounter
";

const KEYS: &str = "'e32473.siteNumber', 'e32473.isGuest', 'sourceIPv4Address/24'";

const COUNTERS: &str = "'e32473.retriedOctets', 'octetDeltaCount'";

// What the file says.
fn elements(alloc: Global) -> Result<Elements, ElementsFault> {
    match add_file(alloc, Elements::built_in(alloc), FILE.as_bytes()) {
        Ok(added) => Ok(added.elements),
        Err(error) => Err(error.fault),
    }
}

fn of_enterprise(number: u16) -> ElementId {
    ElementId { pen: 32473, number }
}

fn key(element: ElementId, prefix: Option<u8>) -> Key {
    Key { element, prefix }
}

#[test]
fn reads_elements_of_a_file(rt: HostRuntime) -> Result<(), Fail> {
    let elements = elements(rt.alloc())?;
    let text = plan_with(rt.alloc(), "", KEYS, COUNTERS)?;
    let keys = [
        key(of_enterprise(1), None),
        key(of_enterprise(2), None),
        key(ElementId::iana(8), Some(24)),
    ];
    let counters = [of_enterprise(4), ElementId::iana(1)];
    let plan = read_plan_with(rt.alloc(), &elements, text.as_bytes()).map_err(|e| e.fault())?;
    let want = Plan::with_elements(
        rt.alloc(),
        &elements,
        1,
        Method::Mid,
        &keys,
        &counters,
        4096,
        Choices::BASIC,
    )?;
    assert!(rt; plan == want);
    Ok(())
}

#[test]
fn names_of_files_are_unknown_without_them(rt: HostRuntime) -> Result<(), Fail> {
    let text = plan_with(rt.alloc(), "", KEYS, COUNTERS)?;
    assert!(rt;
        matches!(
            read_plan(rt.alloc(), text.as_str()),
            Err(PlanTextFault::UnknownElement)
        )
    );
    Ok(())
}

// The fault of a plan with these keys and counters, and the text that it is about.
fn fault_of(
    alloc: Global,
    elements: &Elements,
    keys: &str,
    counters: &str,
) -> Result<String, AllocError> {
    let text = plan_with(alloc, "", keys, counters)?;
    match read_plan_with(alloc, elements, text.as_bytes()) {
        Ok(_) => String::from_str(alloc, "none"),
        Err(
            PlanTextError::Plan {
                fault,
                place: PlanPlace::Text { text, .. },
            },
        ) => format!(in alloc; "{}: {text}", fault.name()),
        Err(PlanTextError::UnknownElement { text, .. }) => format!(in alloc; "unknown: {text}"),
        Err(error) => String::from_str(alloc, error.fault().name()),
    }
}

#[test]
fn refuses_elements_of_a_file(rt: HostRuntime) -> Result<(), Fail> {
    let elements = elements(rt.alloc())?;
    for (keys, counters, want) in [
        (KEYS, "'e32473.4'", "none"),
        (
            "'e32473.2', 'e32473.siteName', 'flowEndSeconds'",
            COUNTERS,
            "KeyKind: e32473.siteName",
        ),
        (
            KEYS,
            "'e32473.retriedOctets', 'e32473.retriedOctetsTotal', 'vlanId'",
            "CounterKind: e32473.retriedOctetsTotal",
        ),
        (
            "'e32473.siteNumber/8'",
            COUNTERS,
            "Prefix: e32473.siteNumber/8",
        ),
        (
            "'e32473.siteNumber', 'e32473.1'",
            COUNTERS,
            "Repeated: e32473.1",
        ),
        (
            "'e32473.siteNumber', 'siteNumber'",
            COUNTERS,
            "unknown: siteNumber",
        ),
    ] {
        let fault = fault_of(rt.alloc(), &elements, keys, counters)?;
        assert_eq!(rt; fault.as_str(), want);
    }
    Ok(())
}
