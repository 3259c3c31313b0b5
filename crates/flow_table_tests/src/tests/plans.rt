//! Plans: what they keep, what makes none, and the shares of a flow.

use super::records::by_source;
use flow_table::{Key, Method, Plan, PlanFault, share};
use ipfix_wire::ElementId;
use std::alloc::{AllocError, Global};
use std::process::Abort;
use std::test::Fail;

/// The number of a key's element, and its prefix.
type KeyPair = (u16, Option<u8>);

/// 192.0.2.0/24 in place of an address.
const NETWORK: KeyPair = (8, Some(24));

fn keys_of(alloc: Global, pairs: &[KeyPair]) -> Result<Vec<Key>, AllocError> {
    let mut keys = Vec::new(alloc);
    for (number, prefix) in pairs {
        keys.push(Key {
            element: ElementId::iana(*number),
            prefix: *prefix,
        })?;
    }
    Ok(keys)
}

fn elements_of(alloc: Global, numbers: &[u16]) -> Result<Vec<ElementId>, AllocError> {
    let mut elements = Vec::new(alloc);
    for number in numbers {
        elements.push(ElementId::iana(*number))?;
    }
    Ok(elements)
}

fn plan_of(
    alloc: Global,
    length: u32,
    keys: &[KeyPair],
    counters: &[u16],
    max_spread: u32,
) -> Result<Plan, PlanFault> {
    let keys = keys_of(alloc, keys)?;
    let counters = elements_of(alloc, counters)?;
    Plan::new(alloc, length, Method::Mid, &keys, &counters, max_spread)
}

// The name of the fault of these arguments.
fn fault_of(
    alloc: Global,
    length: u32,
    keys: &[KeyPair],
    counters: &[u16],
    max_spread: u32,
) -> &'static str {
    match plan_of(alloc, length, keys, counters, max_spread) {
        Ok(_) => "none",
        Err(fault) => fault.name(),
    }
}

// The fault of a plan with this length and this spread.
fn fault_at(alloc: Global, length: u32, max_spread: u32) -> &'static str {
    fault_of(alloc, length, &[NETWORK], &[1], max_spread)
}

#[test]
fn refuses_lengths_and_spreads(rt: HostRuntime) {
    let alloc = rt.alloc();
    let refused = [
        fault_at(alloc, 0, 4096),
        fault_at(alloc, 60_000, 0),
        fault_at(alloc, 60_000, 4097),
        fault_at(alloc, 0, 0),
    ];
    assert_eq!(rt; refused, ["Length", "Spread", "Spread", "Length"]);
    let taken = [fault_at(alloc, 1, 1), fault_at(alloc, u32::MAX, 4096)];
    assert_eq!(rt; (taken, PlanFault::Spread.number()), (["none"; 2], 2));
}

// That a plan with these keys and counters has this fault.
fn assert_fault(rt: &impl Abort, alloc: Global, keys: &[KeyPair], counters: &[u16], want: &str) {
    assert_eq!(rt; fault_of(alloc, 60_000, keys, counters, 4096), want);
}

const EIGHT: [KeyPair; 8] = [
    (4, None),
    (5, None),
    (6, None),
    (7, None),
    (8, None),
    (9, None),
    (10, None),
    (11, None),
];

// A prefix comes after all kinds, and before the counters.
#[test]
fn refuses_keys(rt: HostRuntime) {
    let alloc = rt.alloc();
    let cases: [(&[KeyPair], &[u16], &str); 14] = [
        (&EIGHT, &[1], "none"),
        (&[], &[1], "none"),
        (&[(152, None)], &[1], "KeyKind"),
        (&[(8, Some(33)), (152, None)], &[1], "KeyKind"),
        (&[(8, Some(33))], &[], "Prefix"),
        (&[(7, Some(8))], &[1], "Prefix"),
        (&[NETWORK, (8, Some(16))], &[1], "Repeated"),
        (&[NETWORK, (44, None)], &[1], "Repeated"),
        (&[(12, Some(24)), (45, None)], &[1], "Repeated"),
        (&[NETWORK, (45, None)], &[1], "none"),
        (&[(8, Some(32)), (12, Some(0))], &[1], "none"),
        (&[(8, None), (8, None)], &[1], "Repeated"),
        (&[(1, None)], &[1], "Repeated"),
        (&[(27, None), (56, None)], &[1], "none"),
    ];
    for (keys, counters, want) in cases {
        assert_fault(&rt, alloc, keys, counters, want);
    }
}

#[test]
fn refuses_counters(rt: HostRuntime) {
    let alloc = rt.alloc();
    assert_fault(&rt, alloc, &[NETWORK], &[], "CounterCount");
    assert_fault(&rt, alloc, &[NETWORK], &[1, 2, 3, 23, 24], "CounterCount");
    assert_fault(&rt, alloc, &[NETWORK], &[1, 2, 3, 23], "none");
    assert_fault(&rt, alloc, &[NETWORK], &[4], "CounterKind");
    assert_fault(&rt, alloc, &[NETWORK], &[1, 1], "Repeated");
    assert_fault(&rt, alloc, &[NETWORK], &[24, 132, 133], "none");
}

#[test]
fn a_plan_keeps_its_arguments(rt: HostRuntime) -> Result<(), Fail> {
    let plan = plan_of(rt.alloc(), 1000, &[NETWORK], &[2, 1], 7)?;
    let copy = plan.copy(rt.alloc())?;
    let other = by_source(rt.alloc(), Method::Mid)?;
    let same = [plan == copy, plan == other];
    let kept = (copy.length(), copy.method(), copy.max_spread());
    let counts = [copy.keys().len(), copy.kinds().len(), copy.counters().len()];
    assert_eq!(rt;
        (same, kept, counts),
        ([true, false], (1000, Method::Mid, 7), [1, 1, 2])
    );
    Ok(())
}

// The number of the element as which a key is exported.
fn exported(number: u16, prefix: Option<u8>) -> u16 {
    let element = ElementId::iana(number);
    Key { element, prefix }.exported_element().number
}

#[test]
fn a_prefix_is_exported_as_its_own_element(rt: HostRuntime) {
    let numbers = [
        exported(8, None),
        exported(8, Some(24)),
        exported(12, Some(24)),
        exported(27, Some(48)),
        exported(28, Some(0)),
    ];
    assert_eq!(rt; numbers, [8, 44, 45, 170, 169]);
}

// The shares that the first three intervals have of a flow's value.
fn shares_of(plan: &Plan, start: u32, length: u32, value: u64) -> [u64; 3] {
    let start = u64::from(start);
    let end = start + u64::from(length);
    [
        share(plan, start, end, value, 0),
        share(plan, start, end, value, 1),
        share(plan, start, end, value, 2),
    ]
}

fn assert_shares(
    rt: &impl Abort,
    alloc: Global,
    method: Method,
    (start, length): (u32, u32),
    value: u64,
    want: [u64; 3],
) -> Result<(), PlanFault> {
    let plan = by_source(alloc, method)?;
    assert_eq!(rt; shares_of(&plan, start, length, value), want);
    Ok(())
}

#[test]
fn shares_follow_the_method(rt: HostRuntime) -> Result<(), Fail> {
    let alloc = rt.alloc();
    let half = 9_223_372_036_854_775_807;
    for (method, start, length, value, want) in [
        (Method::Start, 59_000, 2000, 7, [7, 0, 0]),
        (Method::End, 59_000, 2000, 7, [0, 7, 0]),
        (Method::Mid, 59_000, 2000, 7, [0, 7, 0]),
        (Method::Uniform, 59_000, 2000, 7, [4, 3, 0]),
        (Method::Proportional, 59_000, 2000, 7, [3, 4, 0]),
        (Method::End, 0, 60_000, 5, [0, 5, 0]),
        (Method::Uniform, 0, 120_000, 1, [1, 0, 0]),
        (Method::Proportional, 0, 120_000, 1, [0, 0, 1]),
        (
            Method::Proportional,
            0,
            119_999,
            u64::MAX,
            [half, half + 1, 0],
        ),
        (Method::Proportional, 59_999, 0, 5, [5, 0, 0]),
    ] {
        assert_shares(&rt, alloc, method, (start, length), value, want)?;
    }
    Ok(())
}
