//! Which records pass.

use flow_filter::{
    Condition, Filter, FilterFault, FilterSink, Side, Value, ValueRange, is_comparable, value_in,
};
use ipfix_elements::{Kind, Width};
use ipfix_message::{DataRecord, Fields};
use ipfix_session::{Sink, VecSink};
use ipfix_wire::ElementId;
use network_prefixes::AddressBits;
use std::alloc::{AllocError, Global};
use std::test::*;

const PORT: Kind = Kind::Unsigned(Width::Two);

// A record of these fields of IANA's elements, in up to 16 octets each.
fn record(alloc: Global, fields: &[(u16, &[u8])]) -> Result<DataRecord, AllocError> {
    let mut kept = Fields::new(alloc);
    for (number, octets) in fields {
        kept.push(ElementId::iana(*number), &octets[..octets.len().min(16)])?;
    }
    Ok(DataRecord {
        domain: 1,
        export_time: 1_700_000_000,
        template: 256,
        scope: 0,
        fields: kept,
    })
}

// Whether one field of element 7 passes one condition of these texts.
fn holds(
    alloc: Global,
    kind: Kind,
    side: Side,
    texts: &[&str],
    octets: &[u8],
) -> Result<bool, FilterFault> {
    let condition = Condition::new(alloc, ElementId::iana(7), kind, side, texts)?;
    let data_record = record(alloc, &[(7, octets)])?;
    Ok(condition.holds(&data_record))
}

#[test]
fn both_ends_of_a_range_are_in_it(rt: HostRuntime) -> Result<(), Fail> {
    let alloc = rt.alloc();
    let ports = ["443", "1024-65535"];
    let found = [
        holds(alloc, PORT, Side::In, &ports, &443u16.to_be_bytes())?,
        holds(alloc, PORT, Side::In, &ports, &1023u16.to_be_bytes())?,
        holds(alloc, PORT, Side::In, &ports, &1024u16.to_be_bytes())?,
        holds(alloc, PORT, Side::In, &ports, &65535u16.to_be_bytes())?,
        holds(alloc, PORT, Side::NotIn, &ports, &1024u16.to_be_bytes())?,
        holds(alloc, PORT, Side::NotIn, &ports, &444u16.to_be_bytes())?,
    ];
    assert_eq!(rt; found, [true, false, true, true, false, true]);
    Ok(())
}

#[test]
fn a_number_may_be_in_fewer_octets(rt: HostRuntime) -> Result<(), Fail> {
    let alloc = rt.alloc();
    let found = [
        holds(alloc, PORT, Side::In, &["53"], &[53])?,
        holds(alloc, PORT, Side::In, &["53-53"], &[0, 53])?,
    ];
    assert_eq!(rt; found, [true; 2]);
    Ok(())
}

#[test]
fn networks_of_both_families(rt: HostRuntime) -> Result<(), Fail> {
    let alloc = rt.alloc();
    let ipv4 = ["192.0.2.0/24", "198.51.100.7"];
    let found = [
        holds(alloc, Kind::Ipv4, Side::In, &ipv4, &[192, 0, 2, 0])?,
        holds(alloc, Kind::Ipv4, Side::In, &ipv4, &[192, 0, 2, 255])?,
        holds(alloc, Kind::Ipv4, Side::In, &ipv4, &[192, 0, 3, 0])?,
        holds(alloc, Kind::Ipv4, Side::In, &ipv4, &[198, 51, 100, 7])?,
    ];
    assert_eq!(rt; found, [true, true, false, true]);
    let mut documentation = [0u8; 16];
    documentation[0] = 0x20;
    documentation[1] = 0x01;
    documentation[2] = 0x0d;
    documentation[3] = 0xb8;
    let found = [
        holds(
            alloc,
            Kind::Ipv6,
            Side::In,
            &["2001:db8::/32"],
            &documentation,
        )?,
        holds(
            alloc,
            Kind::Ipv6,
            Side::In,
            &["2001:db9::/32"],
            &documentation,
        )?,
    ];
    assert_eq!(rt; found, [true, false]);
    Ok(())
}

#[test]
fn no_network_has_an_address_of_the_other_family(rt: HostRuntime) -> Result<(), Fail> {
    let alloc = rt.alloc();
    let mut ending = [0u8; 16];
    ending[12] = 192;
    ending[13] = 0;
    ending[14] = 2;
    ending[15] = 1;
    let found = [
        holds(
            alloc,
            Kind::Ipv6,
            Side::In,
            &["192.0.2.1", "0.0.0.0/0"],
            &ending,
        )?,
        holds(alloc, Kind::Ipv6, Side::In, &["::/0"], &ending)?,
    ];
    assert_eq!(rt; found, [false, true]);
    let mut mapped = ending;
    mapped[10] = 0xff;
    mapped[11] = 0xff;
    let found = [
        holds(alloc, Kind::Ipv6, Side::In, &["192.0.2.0/24"], &mapped)?,
        holds(alloc, Kind::Ipv6, Side::In, &["::/0"], &mapped)?,
    ];
    assert_eq!(rt; found, [true, false]);
    Ok(())
}

#[test]
fn a_record_without_a_value_is_in_nothing(rt: HostRuntime) -> Result<(), Fail> {
    let alloc = rt.alloc();
    let all = ["0.0.0.0/0"];
    // five octets are no IPv4 address
    let found = [
        holds(alloc, Kind::Ipv4, Side::In, &all, &[192, 0, 2, 1, 0])?,
        holds(alloc, Kind::Ipv4, Side::NotIn, &all, &[192, 0, 2, 1, 0])?,
    ];
    assert_eq!(rt; found, [false, true]);
    let lacking = record(alloc, &[(11, &[0, 53])])?;
    for side in [Side::In, Side::NotIn] {
        let condition = Condition::new(alloc, ElementId::iana(7), PORT, side, &["0-65535"])?;
        assert_eq!(rt; condition.holds(&lacking), side == Side::NotIn);
    }
    Ok(())
}

#[test]
fn the_first_field_of_an_element_counts(rt: HostRuntime) -> Result<(), Fail> {
    let alloc = rt.alloc();
    let twice = record(alloc, &[(7, &[0, 80]), (7, &[0, 53])])?;
    let condition = Condition::new(alloc, ElementId::iana(7), PORT, Side::In, &["53"])?;
    assert!(rt; !condition.holds(&twice));
    Ok(())
}

#[test]
fn all_conditions_must_hold(rt: HostRuntime) -> Result<(), Fail> {
    let alloc = rt.alloc();
    let mut filter = Filter {
        conditions: Vec::new(alloc),
    };
    let data_record = record(alloc, &[(4, &[6]), (7, &[0, 80])])?;
    assert!(rt; filter.passes(&data_record));
    let protocol = Kind::Unsigned(Width::One);
    filter.conditions.push(Condition::new(alloc, ElementId::iana(4), protocol, Side::In, &["6"])?)?;
    assert!(rt; filter.passes(&data_record));
    filter.conditions.push(Condition::new(alloc, ElementId::iana(7), PORT, Side::NotIn, &["80"])?)?;
    assert!(rt; !filter.passes(&data_record));
    Ok(())
}

#[test]
fn a_sink_leaves_out_what_does_not_pass(rt: HostRuntime) -> Result<(), Fail> {
    let alloc = rt.alloc();
    let mut filter = Filter {
        conditions: Vec::new(alloc),
    };
    filter.conditions.push(Condition::new(alloc, ElementId::iana(7), PORT, Side::In, &["80"])?)?;
    let mut sink = FilterSink::new(Some(&filter), VecSink::new(alloc));
    assert!(rt; sink.put(record(alloc, &[(7, &[0, 80])])?).is_ok());
    assert!(rt; sink.put(record(alloc, &[(7, &[0, 53])])?).is_ok());
    let mut options = record(alloc, &[(7, &[0, 53])])?;
    options.scope = 1;
    assert!(rt; filter.counts(&options) && !filter.passes(&options));
    assert!(rt; sink.put(options).is_ok());
    assert_eq!(rt; sink.filtered, 1);
    assert_eq!(rt; sink.sink.records.len(), 2);
    assert_eq!(rt; sink.sink.refused, 0);
    Ok(())
}

#[test]
fn values_by_kind(rt: HostRuntime) -> Result<(), Fail> {
    assert!(rt; is_comparable(PORT) && is_comparable(Kind::Ipv4) && is_comparable(Kind::Ipv6));
    assert!(rt;
        !is_comparable(Kind::Mac) && !is_comparable(Kind::Millis) && !is_comparable(Kind::Octets)
    );
    assert_eq!(rt; value_in(PORT, &[1, 0]), Some(Value::Number(256)));
    assert_eq!(rt; value_in(PORT, &[0, 1, 0]), None);
    let address = AddressBits {
        width: 32,
        bits: 0xc000_0201,
    };
    assert_eq!(rt;
        value_in(Kind::Ipv4, &[192, 0, 2, 1]),
        Some(Value::Address(address))
    );
    assert_eq!(rt; value_in(Kind::Mac, &[0, 0, 94, 0, 83, 1]), None);
    Ok(())
}

#[test]
fn what_a_text_says(rt: HostRuntime) -> Result<(), Fail> {
    let range = ValueRange::Numbers {
        first: 1024,
        last: 65535,
    };
    assert_eq!(rt; ValueRange::read(PORT, "1024-65535"), Some(range));
    assert!(rt; range.has(Value::Number(1024)) && !range.has(Value::Number(65536)));
    Ok(())
}
