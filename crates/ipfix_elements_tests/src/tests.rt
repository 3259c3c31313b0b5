use ipfix_elements::laws::cell_order;
use ipfix_elements::*;
use ipfix_wire::ElementId;
use std::alloc::Global;
use std::io;
use std::io::{ErrorKind, Write};
use std::test::Fail;

const TABLE: [(u16, &str, Kind); 35] = [
    (1, "octetDeltaCount", Kind::Unsigned(Width::Eight)),
    (2, "packetDeltaCount", Kind::Unsigned(Width::Eight)),
    (3, "deltaFlowCount", Kind::Unsigned(Width::Eight)),
    (4, "protocolIdentifier", Kind::Unsigned(Width::One)),
    (5, "ipClassOfService", Kind::Unsigned(Width::One)),
    (6, "tcpControlBits", Kind::Unsigned(Width::Two)),
    (7, "sourceTransportPort", Kind::Unsigned(Width::Two)),
    (8, "sourceIPv4Address", Kind::Ipv4),
    (9, "sourceIPv4PrefixLength", Kind::Unsigned(Width::One)),
    (10, "ingressInterface", Kind::Unsigned(Width::Four)),
    (11, "destinationTransportPort", Kind::Unsigned(Width::Two)),
    (12, "destinationIPv4Address", Kind::Ipv4),
    (
        13,
        "destinationIPv4PrefixLength",
        Kind::Unsigned(Width::One),
    ),
    (14, "egressInterface", Kind::Unsigned(Width::Four)),
    (16, "bgpSourceAsNumber", Kind::Unsigned(Width::Four)),
    (17, "bgpDestinationAsNumber", Kind::Unsigned(Width::Four)),
    (23, "postOctetDeltaCount", Kind::Unsigned(Width::Eight)),
    (24, "postPacketDeltaCount", Kind::Unsigned(Width::Eight)),
    (27, "sourceIPv6Address", Kind::Ipv6),
    (28, "destinationIPv6Address", Kind::Ipv6),
    (44, "sourceIPv4Prefix", Kind::Ipv4),
    (45, "destinationIPv4Prefix", Kind::Ipv4),
    (56, "sourceMacAddress", Kind::Mac),
    (58, "vlanId", Kind::Unsigned(Width::Two)),
    (60, "ipVersion", Kind::Unsigned(Width::One)),
    (61, "flowDirection", Kind::Unsigned(Width::One)),
    (132, "droppedOctetDeltaCount", Kind::Unsigned(Width::Eight)),
    (133, "droppedPacketDeltaCount", Kind::Unsigned(Width::Eight)),
    (136, "flowEndReason", Kind::Unsigned(Width::One)),
    (150, "flowStartSeconds", Kind::Seconds),
    (151, "flowEndSeconds", Kind::Seconds),
    (152, "flowStartMilliseconds", Kind::Millis),
    (153, "flowEndMilliseconds", Kind::Millis),
    (210, "paddingOctets", Kind::Octets),
    (375, "originalFlowsPresent", Kind::Unsigned(Width::Eight)),
];

fn name_text(alloc: Global, element: ElementId) -> Result<Vec<u8>, Fail> {
    let mut out = Vec::new(alloc);
    write_name(element, &mut out)?;
    Ok(out)
}

fn value_text(alloc: Global, kind: Kind, octets: &[u8]) -> Result<Vec<u8>, Fail> {
    let mut text = Vec::new(alloc);
    write_value(kind, octets, &mut text)?;
    Ok(text)
}

#[test]
fn elements_have_kinds_and_names(rt: HostRuntime) {
    for &(number, name, kind) in &TABLE {
        let element = ElementId::iana(number);
        assert_eq!(rt;
            (kind_of(element), name_of(element), by_name(name)),
            (kind, Some(name), Some(element)),
            "{number} {name}"
        );
    }
}

#[test]
fn names_are_written(rt: HostRuntime) -> Result<(), Fail> {
    for &(number, name, _) in &TABLE {
        let written = name_text(rt.alloc(), ElementId::iana(number))?;
        assert_eq!(rt; written.as_slice(), name.as_bytes(), "text of {number}");
    }
    Ok(())
}

// The numbers that have a name of their own are those of the elements with these names.
#[test]
fn named_numbers_are_those_of_the_elements(rt: HostRuntime) {
    let numbers = [
        (iana::OCTET_DELTA_COUNT, "octetDeltaCount"),
        (iana::SOURCE_IPV4_ADDRESS, "sourceIPv4Address"),
        (iana::DESTINATION_IPV4_ADDRESS, "destinationIPv4Address"),
        (iana::SOURCE_IPV4_PREFIX, "sourceIPv4Prefix"),
        (iana::DESTINATION_IPV4_PREFIX, "destinationIPv4Prefix"),
        (iana::FLOW_START_SECONDS, "flowStartSeconds"),
        (iana::FLOW_END_SECONDS, "flowEndSeconds"),
        (iana::FLOW_START_MILLISECONDS, "flowStartMilliseconds"),
        (iana::FLOW_END_MILLISECONDS, "flowEndMilliseconds"),
        (iana::ORIGINAL_FLOWS_PRESENT, "originalFlowsPresent"),
    ];
    for (number, name) in numbers {
        assert_eq!(rt; name_of(ElementId::iana(number)), Some(name));
    }
}

#[test]
fn private_elements_have_no_name(rt: HostRuntime) {
    for number in [1, 8] {
        let private = ElementId { pen: 32473, number };
        assert_eq!(rt;
            (name_of(private), kind_of(private)),
            (None, Kind::Octets),
            "{number}"
        );
    }
}

#[test]
fn elements_without_names_are_written_by_numbers(rt: HostRuntime) -> Result<(), Fail> {
    for (pen, number, text) in [(32473, 1, "e32473.1"), (0, 999, "e0.999")] {
        let written = name_text(rt.alloc(), ElementId { pen, number })?;
        assert_eq!(rt; written.as_slice(), text.as_bytes(), "{text}");
    }
    Ok(())
}

#[test]
fn elements_are_found_by_numbers(rt: HostRuntime) {
    for (text, pen, number) in [
        ("e32473.1", 32473, 1),
        ("e0.8", 0, 8),
        ("e4294967295.32767", 4294967295, 32767),
    ] {
        assert_eq!(rt; by_name(text), Some(ElementId { pen, number }), "{text}");
    }
}

#[test]
fn other_texts_name_no_element(rt: HostRuntime) {
    for &refused in &[
        "",
        "e",
        "nobody",
        "e0",
        "e0.",
        "e.8",
        "e0.08",
        "e00.8",
        "e+0.8",
        "e0.+8",
        "e0.8 ",
        "E0.8",
        "e0.8.1",
        "e4294967296.8",
        "e0.32768",
        "octetdeltacount",
    ] {
        assert_eq!(rt; by_name(refused), None, "{refused}");
    }
}

#[test]
fn reads_numbers(rt: HostRuntime) {
    let two = Kind::Unsigned(Width::Two);
    let eight = Kind::Unsigned(Width::Eight);
    let cases: [(Kind, &[u8], Option<u64>); 10] = [
        (two, &[0x12], Some(18)),
        (two, &[0, 0x12], Some(18)),
        (two, &[], None),
        (two, &[0, 0, 0x12], None),
        (eight, &[1, 2, 3], Some(66051)),
        (Kind::Seconds, &[0x65, 0x53, 0xf1, 0], Some(1700000000)),
        (Kind::Seconds, &[0xf1, 0], None),
        (Kind::Millis, &[0, 0, 0, 0, 0, 0, 3, 0xe8], Some(1000)),
        (Kind::Millis, &[0, 0, 3, 0xe8], None),
        (Kind::Ipv4, &[192, 0, 2, 1], None),
    ];
    for (kind, octets, wanted) in cases {
        assert_eq!(rt; read_number(kind, octets), wanted, "{kind:?} {octets:?}");
    }
}

#[test]
fn reads_cells(rt: HostRuntime) {
    let cases: [(Kind, &[u8], Option<Cell>); 6] = [
        (
            Kind::Ipv4,
            &[192, 0, 2, 1],
            Some(Cell::Ipv4([192, 0, 2, 1])),
        ),
        (Kind::Ipv4, &[192, 0, 2], None),
        (
            Kind::Mac,
            &[2, 0x42, 0xac, 0x11, 0, 2],
            Some(Cell::Mac([2, 0x42, 0xac, 0x11, 0, 2])),
        ),
        (Kind::Ipv6, &[1; 16], Some(Cell::Ipv6([1; 16]))),
        (Kind::Seconds, &[0, 0, 0, 7], Some(Cell::Number(7))),
        (Kind::Octets, &[1], None),
    ];
    for (kind, octets, wanted) in cases {
        assert_eq!(rt; read_cell(kind, octets), wanted, "{kind:?} {octets:?}");
    }
}

#[test]
fn cells_ascend(rt: HostRuntime) {
    cell_order();
    let ascending = [
        Cell::Number(9),
        Cell::Number(10),
        Cell::Ipv4([9, 0, 0, 0]),
        Cell::Ipv4([10, 0, 0, 0]),
        Cell::Ipv6([0; 16]),
        Cell::Mac([0; 6]),
        Cell::Mac([0, 0, 0, 0, 0, 1]),
    ];
    for (low, high) in ascending.iter().zip(&ascending[1..]) {
        assert!(rt; low < high);
    }
}

#[test]
fn writes_values_as_texts(rt: HostRuntime) -> Result<(), Fail> {
    let address = [0x20, 1, 0x0d, 0xb8, 0, 0, 0, 0, 0, 0, 0, 0, 0, 0, 0, 1];
    let long = [0x61; 254];
    let cases: [(Kind, &[u8], &str); 9] = [
        (Kind::Unsigned(Width::Eight), &[0, 0, 5, 0xdc], "1500"),
        (Kind::Millis, &[0, 0, 0, 0, 0, 0, 3, 0xe8], "1000"),
        (Kind::Ipv4, &[192, 0, 2, 1], "192.0.2.1"),
        (Kind::Ipv4, &[192, 0, 2], "?0xc00002"),
        (
            Kind::Ipv6,
            &address,
            "2001:0db8:0000:0000:0000:0000:0000:0001",
        ),
        (Kind::Mac, &[2, 0x42, 0xac, 0x11, 0, 2], "02:42:ac:11:00:02"),
        (Kind::Octets, &[], "0x"),
        (Kind::Octets, &[1, 2, 3, 4, 5], "0x0102030405"),
        (Kind::Unsigned(Width::Two), &[], "?0x"),
    ];
    for (kind, octets, wanted) in cases {
        assert_eq!(rt;
            value_text(rt.alloc(), kind, octets)?.as_slice(),
            wanted.as_bytes(),
            "{wanted}"
        );
    }
    let text = value_text(rt.alloc(), Kind::Octets, &long)?;
    assert_eq!(rt; text.len(), 510);
    assert!(rt; text.as_slice().starts_with(b"0x6161"));
    assert!(rt;
        text[2..]
            .iter()
            .all(|digit| *digit == b'6' || *digit == b'1')
    );
    Ok(())
}

#[test]
fn writes_cells_as_octets(rt: HostRuntime) -> Result<(), Fail> {
    let mut out = Vec::new(rt.alloc());
    write_cell_octets(&Cell::Number(18), 2, &mut out)?;
    write_cell_octets(&Cell::Number(1), 9, &mut out)?;
    write_cell_octets(&Cell::Ipv4([192, 0, 2, 1]), 4, &mut out)?;
    write_cell_octets(&Cell::Ipv6([6; 16]), 16, &mut out)?;
    write_cell_octets(&Cell::Mac([3; 6]), 6, &mut out)?;
    assert_eq!(rt; out.len(), 37);
    assert_eq!(rt;
        &out[..15],
        [0, 0x12, 0, 0, 0, 0, 0, 0, 0, 0, 1, 192, 0, 2, 1].as_slice()
    );
    Ok(())
}

#[test]
fn masks_addresses(rt: HostRuntime) {
    assert_eq!(rt; mask([192, 0, 2, 1], 24), [192, 0, 2, 0]);
    assert_eq!(rt; mask([192, 0, 2, 200], 24), [192, 0, 2, 0]);
    assert_eq!(rt; mask([192, 0, 2, 200], 25), [192, 0, 2, 128]);
    assert_eq!(rt; mask([192, 0, 2, 200], 0), [0, 0, 0, 0]);
    assert_eq!(rt; mask([192, 0, 2, 200], 32), [192, 0, 2, 200]);
}

/// Takes so many octets, and then fails.
#[derive(Drop)]
struct Broken {
    left: usize,
}

impl Write for Broken {
    fn write(&mut self, octets: &[u8]) -> io::Result<usize> {
        if self.left < octets.len() {
            return Err(io::Error::from(ErrorKind::BrokenPipe));
        }
        self.left -= octets.len();
        Ok(octets.len())
    }

    fn flush(&mut self) -> io::Result<()> {
        Ok(())
    }
}

#[test]
fn tells_that_a_writer_failed(rt: HostRuntime) {
    assert!(rt; write_name(ElementId::iana(8), &mut Broken { left: 16 }).is_err());
    assert!(rt; write_name(ElementId::iana(999), &mut Broken { left: 5 }).is_err());
    for left in [0, 2, 100] {
        assert!(rt;
            write_value(Kind::Octets, &[1; 100], &mut Broken { left }).is_err(),
            "{left}"
        );
    }
    assert!(rt; write_cell(&Cell::Mac([0; 6]), &mut Broken { left: 16 }).is_err());
    assert!(rt; write_cell(&Cell::Mac([0; 6]), &mut Broken { left: 17 }).is_ok());
}
