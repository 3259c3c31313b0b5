//! Tables by what is known of a record beside its own fields.

ghost use Rattle.std.specs.Prelude.{◌≡◌, IfOk};
ghost use Rattle.flow_table.specs.Fitting.{FitsPlan};

use super::tables::{TIME, table_of, write_as};
use element_registry::Elements;
use flow_export::{AnyTable, Format};
use flow_table::{
    Choices, EXPORTER, EXPORTER_IPV4_ADDRESS, EXPORTER_IPV6_ADDRESS, Key, Method,
    OBSERVATION_DOMAIN_ID, Plan, PlanFault,
};
use ipfix_message::{DataRecord, Fields};
use ipfix_wire::ElementId;
use std::alloc::{AllocError, Global};
use std::test::Fail;

/// 192.0.2.1, mapped into IPv6.
const MAPPED: [u8; 16] = [0, 0, 0, 0, 0, 0, 0, 0, 0, 0, 0xff, 0xff, 192, 0, 2, 1];

/// 2001:db8::ffff:c000:201, which has the last octets of the other, and the two before them.
const OTHER: [u8; 16] = [
    0x20, 0x01, 0x0d, 0xb8, 0, 0, 0, 0, 0, 0, 0xff, 0xff, 192, 0, 2, 1,
];

// A flow of 1500 octets in the first minute, of an exporter and of domain 7.
fn flow(alloc: Global, exporter: &[u8; 16]) -> Result<DataRecord, AllocError> {
    let mut fields = Fields::new(alloc);
    fields.push(ElementId::iana(152), &1000_u64.to_be_bytes())?;
    fields.push(ElementId::iana(153), &1000_u64.to_be_bytes())?;
    fields.push(ElementId::iana(1), &1500_u64.to_be_bytes())?;
    fields.push(EXPORTER, exporter)?;
    fields.push(EXPORTER_IPV4_ADDRESS, &[192, 0, 2, 1])?;
    fields.push(EXPORTER_IPV6_ADDRESS, exporter)?;
    fields.push(OBSERVATION_DOMAIN_ID, &7_u32.to_be_bytes())?;
    Ok(DataRecord {
        domain: 7,
        export_time: TIME,
        template: 256,
        scope: 0,
        fields,
    })
}

fn keys_of(alloc: Global, elements: &[ElementId]) -> Result<Vec<Key>, AllocError> {
    let mut keys = Vec::new(alloc);
    for element in elements {
        keys.push(Key {
            element: *element,
            prefix: None,
        })?;
    }
    Ok(keys)
}

fn plan_of(alloc: Global, elements: &[ElementId]) -> Result<Plan, PlanFault> {
    let keys = keys_of(alloc, elements)?;
    Plan::with_elements(
        alloc,
        &Elements::built_in(alloc),
        60_000,
        Method::Start,
        &keys,
        &[ElementId::iana(1)],
        4096,
        Choices::BASIC,
    )
}

// The table of a flow of each exporter, by these elements.
fn text_by(alloc: Global, elements: &[ElementId], format: Format) -> Result<Vec<u8>, Fail> {
    let plan = plan_of(alloc, elements)?;
    let records = [flow(alloc, &MAPPED)?, flow(alloc, &OTHER)?];
    let table = table_of(alloc, &plan, &records)?;
    let mut out = Vec::new(alloc);
    write_as(alloc, &plan, &AnyTable::Rows(&table), format, &mut out)?;
    Ok(out)
}

const BY_EXPORTER: &str = "start,end,exporter,octetDeltaCount,flows
0,59999,192.0.2.1,1500,1
0,59999,2001:0db8:0000:0000:0000:ffff:c000:0201,1500,1
";

const BY_ALL_ELSE: &str =
    "start,end,exporterIPv4Address,exporterIPv6Address,observationDomainId,octetDeltaCount,flows
0,59999,192.0.2.1,0000:0000:0000:0000:0000:ffff:c000:0201,7,1500,1
0,59999,192.0.2.1,2001:0db8:0000:0000:0000:ffff:c000:0201,7,1500,1
";

const OBJECTS: &str =
    "{\"start\":0,\"end\":59999,\"exporter\":\"192.0.2.1\",\"octetDeltaCount\":1500,\"flows\":1}
{\"start\":0,\"end\":59999,\"exporter\":\"2001:0db8:0000:0000:0000:ffff:c000:0201\",\
\"octetDeltaCount\":1500,\"flows\":1}
";

// An address of IPv4 is shown as it is in a column `exporter` alone.
#[test]
fn an_exporter_is_written_as_an_address(rt: HostRuntime) -> Result<(), Fail> {
    let text = text_by(rt.alloc(), &[EXPORTER], Format::Csv)?;
    assert_eq!(rt; text.as_slice(), BY_EXPORTER.as_bytes());
    let text = text_by(rt.alloc(), &[EXPORTER], Format::Json)?;
    assert_eq!(rt; text.as_slice(), OBJECTS.as_bytes());
    let elements = [
        EXPORTER_IPV4_ADDRESS,
        EXPORTER_IPV6_ADDRESS,
        OBSERVATION_DOMAIN_ID,
    ];
    let text = text_by(rt.alloc(), &elements, Format::Csv)?;
    assert_eq!(rt; text.as_slice(), BY_ALL_ELSE.as_bytes());
    Ok(())
}

// It is exporterIPv6Address (131) in 16 octets, behind the two times of 8.
#[test]
fn an_exporter_is_exported_as_an_address_of_ipv6(rt: HostRuntime) -> Result<(), Fail> {
    let text = text_by(rt.alloc(), &[EXPORTER], Format::Ipfix)?;
    let octets = text.as_slice();
    // Headers of 20 octets, the id and the number of fields in 4, two specifiers of 4.
    assert!(rt; octets.len() > 112);
    assert_eq!(rt; &octets[32..36], [0, 131, 0, 16].as_slice());
    // The template's message has 44 octets, the headers of the next 20, and the times 16.
    assert_eq!(rt; &octets[80..96], MAPPED.as_slice());
    Ok(())
}
