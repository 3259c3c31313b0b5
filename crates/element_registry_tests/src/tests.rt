//! What files say of elements. Names, types and semantics are those of IANA's registry; 29305 is the
//! enterprise of RFC 5103, and 32473 that of examples (RFC 5612).

use element_registry::{ElementKind, Elements, ElementsFault, Entry, add_file};
use ipfix_elements::{Kind, Width};
use ipfix_wire::ElementId;
use std::alloc::Global;
use std::test::*;

/// The columns and some rows of IANA's registry.
pub const IANA: &str =
    "ElementID,Name,Abstract Data Type,Data Type Semantics,Status,Description,Units,Range,References,Requester,Revision,Date
0,Reserved,,,,,,,[RFC5102],,,2013-02-18
8,sourceIPv4Address,ipv4Address,default,current,,,,[RFC5102],,1,2014-02-03
15,ipNextHopIPv4Address,ipv4Address,default,current,\"The IPv4 address of the next IPv4 hop, as it
is said.\",,,[RFC5102],,1,2014-02-03
19,postMCastPacketDeltaCount,unsigned64,deltaCounter,current,,packets,,[RFC5102],,0,2013-02-18
21,flowEndSysUpTime,unsigned32,,current,,milliseconds,,[RFC5102],,1,2014-01-11
82,interfaceName,string,default,current,,,,,,0,2013-02-18
85,octetTotalCount,unsigned64,totalCounter,current,,octets,,[RFC5102],,0,2013-02-18
90,mplsVpnRouteDistinguisher,octetArray,default,current,,,,[RFC5102],,1,2014-02-03
105-127,Assigned for NetFlow v9 compatibility,,,,,,,[RFC3954],,,2013-02-18
131,exporterIPv6Address,ipv6Address,default,current,,,,[RFC5102],,1,2014-02-03
154,flowStartMicroseconds,dateTimeMicroseconds,default,current,,microseconds,,[RFC5102],,0,2013-02-18
156,flowStartNanoseconds,dateTimeNanoseconds,default,current,,nanoseconds,,[RFC5102],,0,2013-02-18
276,dataRecordsReliability,boolean,default,current,,,,[RFC6526],,1,2014-02-03
278,newConnectionDeltaCount,unsigned32,deltaCounter,current,,,,,,1,2014-08-13
291,basicList,basicList,list,current,,,,[RFC6313],,0,2013-02-18
311,samplingProbability,float64,quantity,current,,,,[RFC5477],,0,2013-02-18
434,mibObjectValueInteger,signed32,quantity,current,,,,[RFC8038],,1,2017-04-30
";

const OCTETS: ElementKind = ElementKind::Plain(Kind::Octets);

const U32: ElementKind = ElementKind::Plain(Kind::Unsigned(Width::Four));

const U64: ElementKind = ElementKind::Plain(Kind::Unsigned(Width::Eight));

/// The elements of [`IANA`] that are not built in, and which of them are delta counters.
pub const OF_IANA: [(u16, &str, ElementKind, bool); 14] = [
    (
        15,
        "ipNextHopIPv4Address",
        ElementKind::Plain(Kind::Ipv4),
        false,
    ),
    (19, "postMCastPacketDeltaCount", U64, true),
    (21, "flowEndSysUpTime", U32, false),
    (82, "interfaceName", ElementKind::Text, false),
    (85, "octetTotalCount", U64, false),
    (90, "mplsVpnRouteDistinguisher", OCTETS, false),
    (
        131,
        "exporterIPv6Address",
        ElementKind::Plain(Kind::Ipv6),
        false,
    ),
    (154, "flowStartMicroseconds", ElementKind::Micros, false),
    (156, "flowStartNanoseconds", ElementKind::Nanos, false),
    (276, "dataRecordsReliability", ElementKind::Boolean, false),
    // unsigned32 in the file: a delta counter is an unsigned64.
    (278, "newConnectionDeltaCount", U64, true),
    (291, "basicList", OCTETS, false),
    (311, "samplingProbability", OCTETS, false),
    (
        434,
        "mibObjectValueInteger",
        ElementKind::Signed(Width::Four),
        false,
    ),
];

/// What is known after a file.
pub fn read(alloc: Global, text: &str) -> Result<Elements, ElementsFault> {
    add_to(alloc, Elements::built_in(alloc), text)
}

fn add_to(alloc: Global, elements: Elements, text: &str) -> Result<Elements, ElementsFault> {
    match add_file(alloc, elements, text.as_bytes()) {
        Ok(added) => Ok(added.elements),
        Err(error) => Err(error.fault),
    }
}

fn parts_of(entry: &Entry) -> (ElementId, &str, ElementKind, bool) {
    (
        entry.element,
        entry.name.as_str(),
        entry.kind,
        entry.is_delta,
    )
}

fn parts_at(elements: &Elements, place: usize) -> Option<(ElementId, &str, ElementKind, bool)> {
    Some(parts_of(elements.entries().get(place)?))
}

fn parts_found(
    elements: &Elements,
    element: ElementId,
) -> Option<(ElementId, &str, ElementKind, bool)> {
    Some(parts_of(elements.find_entry(element)?))
}

// What is known of an element, and which one has the name.
fn look_up<'a>(
    elements: &'a Elements,
    element: ElementId,
    name: &str,
) -> (ElementKind, Option<&'a str>, Option<ElementId>) {
    (
        elements.kind_of(element),
        elements.name_of(element),
        elements.by_name(name),
    )
}

fn is_known(elements: &Elements, element: ElementId, name: &str, kind: ElementKind) -> bool {
    look_up(elements, element, name) == (kind, Some(name), Some(element))
}

#[test]
fn reads_ianas_columns(rt: HostRuntime) -> Result<(), Fail> {
    let elements = read(rt.alloc(), IANA)?;
    assert_eq!(rt; elements.entries().len(), OF_IANA.len());
    for (place, &(number, name, kind, is_delta)) in OF_IANA.iter().enumerate() {
        assert_eq!(rt;
            parts_at(&elements, place),
            Some((ElementId::iana(number), name, kind, is_delta))
        );
        assert_eq!(rt;
            parts_found(&elements, ElementId::iana(number)),
            parts_at(&elements, place)
        );
    }
    assert_eq!(rt; parts_found(&elements, ElementId::iana(8)), None);
    Ok(())
}

#[test]
fn finds_elements_by_number_and_by_name(rt: HostRuntime) -> Result<(), Fail> {
    let elements = read(rt.alloc(), IANA)?;
    for &(number, name, kind, _) in &OF_IANA {
        assert!(rt;
            is_known(&elements, ElementId::iana(number), name, kind),
            "{name}"
        );
    }
    let unknown = ElementId::iana(83);
    assert_eq!(rt;
        look_up(&elements, unknown, "interfaceDescription"),
        (OCTETS, None, None)
    );
    assert_eq!(rt;
        look_up(&elements, unknown, "e0.83"),
        (OCTETS, None, Some(unknown))
    );
    Ok(())
}

#[test]
fn columns_stand_in_any_order(rt: HostRuntime) -> Result<(), Fail> {
    let elements = read(
        rt.alloc(),
        "Units,Data Type Semantics,Name,Enterprise,Abstract Data Type,ElementID
packets,deltaCounter,postMCastPacketDeltaCount,,unsigned64,19
,default,interfaceName,0,string,82
",
    )?;
    let entries = elements.entries();
    assert_eq!(rt; entries.len(), 2);
    assert_eq!(rt;
        parts_of(&entries[0]),
        (ElementId::iana(19), "postMCastPacketDeltaCount", U64, true)
    );
    assert_eq!(rt;
        parts_of(&entries[1]),
        (
            ElementId::iana(82),
            "interfaceName",
            ElementKind::Text,
            false
        )
    );
    Ok(())
}

// A text with a row of each built-in element, which says another name and another type.
fn other_rows(alloc: Global) -> Result<String, Fail> {
    let mut text = String::from_str(alloc, "ElementID,Name,Abstract Data Type\n")?;
    for number in BUILT_IN {
        text.push_str(format!(in alloc; "{number},interfaceName,boolean\n")?.as_str())?;
    }
    Ok(text)
}

const BUILT_IN: [u16; 35] = [
    1, 2, 3, 4, 5, 6, 7, 8, 9, 10, 11, 12, 13, 14, 16, 17, 23, 24, 27, 28, 44, 45, 56, 58, 60, 61,
    132, 133, 136, 150, 151, 152, 153, 210, 375,
];

#[test]
fn built_in_elements_stay_as_they_are(rt: HostRuntime) -> Result<(), Fail> {
    let elements = read(rt.alloc(), other_rows(rt.alloc())?.as_str())?;
    assert_eq!(rt; elements.entries().len(), 0);
    for number in BUILT_IN {
        let element = ElementId::iana(number);
        let kind = ElementKind::Plain(ipfix_elements::kind_of(element));
        let name = ipfix_elements::name_of(element).unwrap_or("");
        assert!(rt; is_known(&elements, element, name, kind), "{number}");
    }
    assert_eq!(rt; elements.by_name("interfaceName"), None);
    Ok(())
}

#[test]
fn unknown_types_are_octets(rt: HostRuntime) -> Result<(), Fail> {
    let elements = read(
        rt.alloc(),
        "Enterprise,ElementID,Name,Abstract Data Type\n32473,1,aNumber,unsigned256\n",
    )?;
    let element = ElementId {
        pen: 32473,
        number: 1,
    };
    assert!(rt; is_known(&elements, element, "e32473.aNumber", OCTETS));
    Ok(())
}

/// A row of each width with each semantics that may make a difference, and delta counters of other types.
const COUNTERS: &str = "Enterprise,ElementID,Name,Abstract Data Type,Data Type Semantics
32473,1,deltas8,unsigned8,deltaCounter
32473,2,deltas16,unsigned16,deltaCounter
32473,3,deltas32,unsigned32,deltaCounter
32473,4,deltas64,unsigned64,deltaCounter
32473,5,quantity,unsigned32,quantity
32473,6,total,unsigned32,totalCounter
32473,7,identifier,unsigned16,identifier
32473,8,plain,unsigned32,
32473,9,lowerCase,unsigned32,deltacounter
32473,10,signedDeltas,signed32,deltaCounter
32473,11,floats,float64,deltaCounter
32473,12,flag,boolean,deltaCounter
32473,13,address,ipv4Address,deltaCounter
32473,14,seconds,dateTimeSeconds,deltaCounter
32473,15,unknown,unsigned256,deltaCounter
";

const KINDS_OF_COUNTERS: [(ElementKind, bool); 15] = [
    (U64, true),
    (U64, true),
    (U64, true),
    (U64, true),
    (U32, false),
    (U32, false),
    (ElementKind::Plain(Kind::Unsigned(Width::Two)), false),
    (U32, false),
    (U32, false),
    (ElementKind::Signed(Width::Four), true),
    (OCTETS, true),
    (ElementKind::Boolean, true),
    (ElementKind::Plain(Kind::Ipv4), true),
    (ElementKind::Plain(Kind::Seconds), true),
    (OCTETS, true),
];

#[test]
fn delta_counters_of_unsigned_types_are_unsigned64(rt: HostRuntime) -> Result<(), Fail> {
    let elements = read(rt.alloc(), COUNTERS)?;
    assert_eq!(rt; elements.entries().len(), KINDS_OF_COUNTERS.len());
    for (entry, (kind, is_delta)) in elements.entries().iter().zip(KINDS_OF_COUNTERS) {
        assert_eq!(rt;
            (entry.kind, entry.is_delta),
            (kind, is_delta),
            "{}",
            entry.name
        );
        assert_eq!(rt; elements.kind_of(entry.element), kind, "{}", entry.name);
    }
    Ok(())
}

#[test]
fn without_semantics_no_type_is_widened(rt: HostRuntime) -> Result<(), Fail> {
    let elements = read(
        rt.alloc(),
        "Enterprise,ElementID,Name,Abstract Data Type\n32473,1,aNumber,unsigned32\n",
    )?;
    let element = ElementId {
        pen: 32473,
        number: 1,
    };
    assert!(rt; is_known(&elements, element, "e32473.aNumber", U32));
    Ok(())
}

const OF_ENTERPRISES: &str = "Enterprise,ElementID,Name,Abstract Data Type,Data Type Semantics
29305,1,reverseOctetDeltaCount,unsigned64,deltaCounter
,468,httpUserAgent,string,default
6871,111,httpUserAgent,string,
39499,20,httpUserAgent,string,
4294967295,32767,last,string,
";

#[test]
fn names_of_enterprises_have_its_number(rt: HostRuntime) -> Result<(), Fail> {
    let elements = read(rt.alloc(), OF_ENTERPRISES)?;
    for (pen, number, name, kind) in [
        (29305, 1, "e29305.reverseOctetDeltaCount", U64),
        (0, 468, "httpUserAgent", ElementKind::Text),
        (6871, 111, "e6871.httpUserAgent", ElementKind::Text),
        (39499, 20, "e39499.httpUserAgent", ElementKind::Text),
        (4294967295, 32767, "e4294967295.last", ElementKind::Text),
    ] {
        assert!(rt;
            is_known(&elements, ElementId { pen, number }, name, kind),
            "{name}"
        );
    }
    let reverse = ElementId {
        pen: 29305,
        number: 1,
    };
    assert_eq!(rt; elements.by_name("e29305.1"), Some(reverse));
    for name in [
        "reverseOctetDeltaCount",
        "e0.httpUserAgent",
        "e39499.HTTPUserAgent",
    ] {
        assert_eq!(rt; elements.by_name(name), None, "{name}");
    }
    Ok(())
}

fn name_text(alloc: Global, elements: &Elements, element: ElementId) -> Result<Vec<u8>, Fail> {
    let mut out = Vec::new(alloc);
    elements.write_name(element, &mut out)?;
    Ok(out)
}

#[test]
fn writes_names(rt: HostRuntime) -> Result<(), Fail> {
    let elements = read(rt.alloc(), OF_ENTERPRISES)?;
    for (pen, number, text) in [
        (0, 8, "sourceIPv4Address"),
        (0, 468, "httpUserAgent"),
        (0, 469, "e0.469"),
        (29305, 1, "e29305.reverseOctetDeltaCount"),
        (29305, 2, "e29305.2"),
    ] {
        let written = name_text(rt.alloc(), &elements, ElementId { pen, number })?;
        assert_eq!(rt; written.as_slice(), text.as_bytes(), "{text}");
    }
    Ok(())
}

// The elements of one file, and then of the other.
fn both(alloc: Global, first: &str, second: &str) -> Result<Elements, ElementsFault> {
    add_to(alloc, read(alloc, first)?, second)
}

#[test]
fn files_follow_each_other(rt: HostRuntime) -> Result<(), Fail> {
    let elements = both(rt.alloc(), IANA, OF_ENTERPRISES)?;
    let entries = elements.entries();
    assert_eq!(rt; entries.len(), 19);
    let text = ElementKind::Text;
    let last = ElementId {
        pen: 4294967295,
        number: 32767,
    };
    assert_eq!(rt;
        parts_of(&entries[18]),
        (last, "e4294967295.last", text, false)
    );
    let others = both(rt.alloc(), OF_ENTERPRISES, IANA)?;
    for entry in entries {
        let (element, name, kind, _) = parts_of(entry);
        assert!(rt; is_known(&others, element, name, kind), "{name}");
    }
    assert_eq!(rt;
        both(rt.alloc(), IANA, IANA).err(),
        Some(ElementsFault::NumberTwice)
    );
    Ok(())
}

// Adds an element to those that are known, unless it is built in.
fn add_text(
    alloc: Global,
    elements: &mut Elements,
    number: u16,
    name: &str,
) -> Result<(), ElementsFault> {
    let element = ElementId::iana(number);
    if ipfix_elements::name_of(element).is_some() {
        return Ok(());
    }
    elements.add(Entry {
        element,
        name: String::from_str(alloc, name)?,
        kind: ElementKind::Text,
        is_delta: false,
    })
}

#[test]
fn adds_an_element(rt: HostRuntime) -> Result<(), Fail> {
    let mut elements = Elements::built_in(rt.alloc());
    add_text(rt.alloc(), &mut elements, 82, "interfaceName")?;
    assert!(rt;
        is_known(
            &elements,
            ElementId::iana(82),
            "interfaceName",
            ElementKind::Text
        )
    );
    let again = add_text(rt.alloc(), &mut elements, 82, "interfaceDescription");
    assert_eq!(rt; again, Err(ElementsFault::NumberTwice));
    let other = add_text(rt.alloc(), &mut elements, 83, "interfaceName");
    assert_eq!(rt; other, Err(ElementsFault::NameTwice));
    assert_eq!(rt; elements.entries().len(), 1);
    Ok(())
}
