use element_registry::Elements;
use flow_filter::{Side, ValueRange};
use flow_plan::PlanTextError;
use flow_plan_fields::{
    FilteredPlan, FilteredPlanError, SamplingUse, WhereFault, read_filtered_plan, side_key,
};
use flow_table::{EXPORTER, OBSERVATION_DOMAIN_ID};
use ipfix_wire::ElementId;
use std::alloc::{AllocError, Global};
use std::test::*;

// The plan and the filter of a text after the keys of a plan by source.
fn read(alloc: Global, conditions: &str) -> Result<FilteredPlan, FilteredPlanError> {
    let head =
        "interval_ms = 60000\nmethod = 'start'\nkeys = ['sourceIPv4Address']\ncounters = ['e0.1']\n";
    match format!(in alloc; "{head}{conditions}") {
        Ok(text) => read_filtered_plan(alloc, &Elements::built_in(alloc), text.as_bytes()),
        Err(_) => Err(FilteredPlanError::Plan(PlanTextError::OutOfMemory)),
    }
}

// What is told of a fault of a [[where]].
fn told(alloc: Global, place: usize, fault: &WhereFault) -> Result<String, AllocError> {
    match fault {
        WhereFault::NoTable => format!(in alloc; "{place} no table"),
        WhereFault::UnknownKey { key } => format!(in alloc; "{place} key {key}"),
        WhereFault::NoElement => format!(in alloc; "{place} no element"),
        WhereFault::UnknownElement { text } => format!(in alloc; "{place} unknown {text}"),
        WhereFault::NoSide => format!(in alloc; "{place} no side"),
        WhereFault::NoTexts { side } => format!(in alloc; "{place} {} no texts", side_key(*side)),
        WhereFault::Kind => format!(in alloc; "{place} kind"),
        WhereFault::Count { side, count } => format!(in alloc;
            "{place} {} {count}",
            side_key(*side)
        ),
        WhereFault::Text { side, text } => format!(in alloc; "{place} {} {text}", side_key(*side)),
        WhereFault::OutOfMemory => format!(in alloc; "{place} memory"),
    }
}

// The number and the name of the fault of a text after the keys of a plan, and its place.
fn fault_of(alloc: Global, conditions: &str) -> Result<String, AllocError> {
    match read(alloc, conditions) {
        Ok(_) => String::from_str(alloc, "none"),
        Err(error) => {
            let words = match &error {
                FilteredPlanError::Plan(_) => String::from_str(alloc, "plan")?,
                FilteredPlanError::NoConditions => String::from_str(alloc, "no array")?,
                FilteredPlanError::Where { place, fault } => told(alloc, *place, fault)?,
                FilteredPlanError::NoSampling => String::from_str(alloc, "no word")?,
            };
            format!(in alloc; "{} {}: {words}", error.number(), error.name())
        }
    }
}

#[test]
fn conditions_in_their_order(rt: HostRuntime) -> Result<(), Fail> {
    let alloc = rt.alloc();
    let text =
        "[[where]]\nelement = 'destinationTransportPort'\nnot_in = ['25']\nin = ['80', '1024-65535']\n\
        [[where]]\nelement = 'exporter'\nin = ['192.0.2.0/24', '2001:db8::/32']\n";
    let Ok(plan) = read(alloc, text) else {
        assert!(rt; false, "no plan");
        return Ok(());
    };
    let conditions = plan.filter.conditions.as_slice();
    assert_eq!(rt; conditions.len(), 3);
    assert_eq!(rt; conditions[0].element, ElementId::iana(11));
    assert_eq!(rt; conditions[0].side, Side::In);
    match conditions[0].ranges.get(1) {
        Some(ValueRange::Numbers { first, last }) => {
            assert_eq!(rt; (*first, *last), (1024, 65_535));
        }
        _ => assert!(rt; false, "no second range"),
    }
    assert_eq!(rt; conditions[1].side, Side::NotIn);
    assert_eq!(rt; conditions[1].ranges.len(), 1);
    assert_eq!(rt; conditions[2].element, EXPORTER);
    Ok(())
}

#[test]
fn without_conditions(rt: HostRuntime) -> Result<(), Fail> {
    let alloc = rt.alloc();
    for text in ["", "where = []\n"] {
        let Ok(plan) = read(alloc, text) else {
            assert!(rt; false, "no plan");
            return Ok(());
        };
        assert!(rt; plan.conditions().is_none(), "{text}");
        assert!(rt; !plan.context().exporter, "{text}");
    }
    Ok(())
}

#[test]
fn context_that_conditions_name(rt: HostRuntime) -> Result<(), Fail> {
    let alloc = rt.alloc();
    let Ok(plan) = read(alloc, "[[where]]\nelement = 'e0.149'\nin = ['7']\n") else {
        assert!(rt; false, "no plan");
        return Ok(());
    };
    assert!(rt; plan.context().observation_domain_id);
    assert!(rt; !plan.context().exporter);
    match plan.filter.conditions.first() {
        Some(condition) => assert_eq!(rt; condition.element, OBSERVATION_DOMAIN_ID),
        None => assert!(rt; false, "no condition"),
    }
    assert!(rt; plan.conditions().is_some());
    Ok(())
}

#[test]
fn faults(rt: HostRuntime) -> Result<(), Fail> {
    let alloc = rt.alloc();
    let one = "[[where]]\nelement = 'e0.11'\nin = ['80']\n";
    for (text, fault) in [
        ("where = 7\n", "8 Filter: no array"),
        ("where = [7]\n", "8 Filter: 1 no table"),
        (
            "[[where]]\nelement = 'e0.11'\nan = ['80']\n",
            "8 Filter: 1 key an",
        ),
        ("[[where]]\nin = ['80']\n", "8 Filter: 1 no element"),
        (
            "[[where]]\nelement = 7\nin = ['80']\n",
            "8 Filter: 1 no element",
        ),
        (
            "[[where]]\nelement = 'port'\nin = ['80']\n",
            "8 Filter: 1 unknown port",
        ),
        ("[[where]]\nelement = 'e0.11'\n", "8 Filter: 1 no side"),
        (
            "[[where]]\nelement = 'e0.11'\nin = '80'\n",
            "8 Filter: 1 in no texts",
        ),
        (
            "[[where]]\nelement = 'e0.11'\nnot_in = [80]\n",
            "8 Filter: 1 not_in no texts",
        ),
        (
            "[[where]]\nelement = 'e0.56'\nin = ['80']\n",
            "8 Filter: 1 kind",
        ),
        (
            "[[where]]\nelement = 'e0.11'\nin = []\n",
            "8 Filter: 1 in 0",
        ),
        (
            "[[where]]\nelement = 'e0.11'\nin = ['1']\nnot_in = ['9-2']\n",
            "8 Filter: 1 not_in 9-2",
        ),
        (
            "[[where]]\nelement = 'e0.11'\nin = ['192.0.2.0/24']\n",
            "8 Filter: 1 in 192.0.2.0/24",
        ),
        (
            "[[where]]\nelement = 'e0.8'\nin = ['192.0.2.1/24']\n",
            "8 Filter: 1 in 192.0.2.1/24",
        ),
    ] {
        assert_eq!(rt; fault_of(alloc, text)?.as_str(), fault);
        let second = format!(in alloc; "{one}{text}")?;
        if text.starts_with('[') {
            let moved = fault_of(alloc, second.as_str())?;
            assert!(rt; moved.as_str().starts_with("8 Filter: 2 "), "{moved}");
        }
    }
    assert_eq!(rt;
        fault_of(alloc, "colour = 1\nwhere = 7\n")?.as_str(),
        "2 UnknownField: plan"
    );
    assert_eq!(rt;
        fault_of(alloc, "where = 7\nwhere = 8\n")?.as_str(),
        "1 NotToml: plan"
    );
    Ok(())
}

// What becomes of sampling, if a text after the keys of a plan has no fault.
fn sampling_of(alloc: Global, text: &str) -> Option<SamplingUse> {
    Some(read(alloc, text).ok()?.sampling)
}

#[test]
fn reads_what_becomes_of_sampling(rt: HostRuntime) -> Result<(), Fail> {
    let alloc = rt.alloc();
    assert_eq!(rt; sampling_of(alloc, ""), Some(SamplingUse::Ignore));
    assert_eq!(rt;
        sampling_of(alloc, "sampling = 'ignore'\n"),
        Some(SamplingUse::Ignore)
    );
    assert_eq!(rt;
        sampling_of(alloc, "sampling = 'refuse'\n"),
        Some(SamplingUse::Refuse)
    );
    assert_eq!(rt;
        sampling_of(alloc, "sampling = 'scale'\n"),
        Some(SamplingUse::Scale)
    );
    Ok(())
}

// The fault of the conditions comes before that of sampling.
#[test]
fn refuses_other_words_of_sampling(rt: HostRuntime) -> Result<(), Fail> {
    let alloc = rt.alloc();
    for text in [
        "sampling = 'Scale'\n",
        "sampling = 1\n",
        "sampling = ['scale']\n",
    ] {
        assert_eq!(rt; fault_of(alloc, text)?.as_str(), "10 Sampling: no word");
    }
    assert_eq!(rt;
        fault_of(alloc, "sampling = 1\nwhere = 7\n")?.as_str(),
        "8 Filter: no array"
    );
    Ok(())
}
